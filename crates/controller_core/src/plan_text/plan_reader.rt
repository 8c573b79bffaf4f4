//! Reading the text of a plan.
ghost use Rattle.std.specs.Prelude.{◌≡◌, ◌⊎◌, Ok, Err, List, [], IfOk, IfErr, IfNone, IfSome, MatchResult, ℕ};
ghost use Rattle.controller_core.specs.declared.plan_text.entry.Entry.{Entry};
ghost use Rattle.controller_core.specs.declared.plan_text.event_plan.EventPlan.{EventPlan};
ghost use Rattle.controller_core.specs.declared.plan_text.kind.Kind.{Kind};
ghost use Rattle.controller_core.specs.declared.plan_text.plan_text_fault.PlanTextFault.TheVariants.{OutOfMemory};
ghost use Rattle.controller_core.specs.PlanText.Entries.{AreLines};
ghost use Rattle.controller_core.specs.PlanText.Sheets.{IsOnce, sheet_of};
ghost use Rattle.controller_core.specs.PlanText.Plans.{BeginsWith, IsPlanText};
ghost use Rattle.controller_core.specs.PlanText.Reading.{IsCause, IsLineCause, IsRead};
ghost use Rattle.controller_core.specs.PlanText.Drafts.{sheet};

use crate::plan_text::draft::Draft;
use crate::plan_text::event_plan::EventPlan;
use crate::plan_text::kind::Kind;
use crate::plan_text::line_fault::LineFault;
use crate::plan_text::plan_text_fault::PlanTextFault;
use crate::plan_text::split::split;
use std::alloc::Global;

/// The plan that a text spells: a line for its kind, and one for each value, which is a name, a space and the value. A line
/// feed ends each line.
pub fn read_plan(alloc: Global, bytes: &[u8]) -> Result<EventPlan, PlanTextFault>
    // The text has good lines, and the plan is what they give.
    ensures plan { IfOk result (λ plan. IsPlanText bytes.now plan) }
    ensures fault { IfErr result (λ fault. IsCause bytes.now fault) }

    // What is spelled is read, unless memory runs out.
    ensures only { (plan : EventPlan) → IsPlanText bytes.now plan → (result ≡ Ok plan) ⊎ (result ≡ Err OutOfMemory) }
{
    let Some((kind, lines)) = read_kind(bytes) else {
        return Err(PlanTextFault::Line(1));
    };
    let draft = match read_lines(alloc, kind, lines) {
        Ok(draft) => draft,
        Err(fault) => return Err(fault),
    };
    let reuse = draft.first_reuse(alloc);
    let Some(plan) = draft.finish(kind) else {
        return Err(PlanTextFault::Line(1));
    };
    match reuse {
        Ok(None) => Ok(plan),
        Ok(Some(line)) => Err(PlanTextFault::Line(line)),
        Err(_) => Err(PlanTextFault::OutOfMemory),
    }
}

// The kind that the first line names, and what stands behind that line.
fn read_kind(text: &[u8]) -> Option<(Kind, &[u8])>
    ensures some { IfSome result (λ r. BeginsWith r.0 text.now r.1.now) }
    ensures none { IfNone result ((kind : Kind) (rest : List ℕ) → ¬ BeginsWith kind text.now rest) }
{
    let (line, rest) = split(text, b'\n')?;
    let kind = Kind::of_line(line)?;
    Some((kind, rest))
}

// What the lines behind the first give, each of which a line feed ends.
fn read_lines(alloc: Global, kind: Kind, text: &[u8]) -> Result<Draft, PlanTextFault>
    ensures ok { IfOk result (λ draft. IsRead kind text.now (sheet draft)) }
    ensures fault { IfErr result (λ fault. IsLineCause kind text.now fault) }
    ensures only { (entries : List Entry) → AreLines kind entries text.now [] → IsOnce (sheet_of entries)
        → MatchResult result (λ draft. sheet draft ≡ sheet_of entries) (λ fault. fault ≡ OutOfMemory) }
{
    let mut draft = Draft::new(alloc);
    let mut rest = text;
    let mut number = 2u64;
    while !rest.is_empty() {
        match draft.take_line(alloc, kind, number, rest) {
            Ok(behind) => rest = behind,
            Err(LineFault::Refused) => return Err(PlanTextFault::Line(number)),
            Err(LineFault::OutOfMemory) => return Err(PlanTextFault::OutOfMemory),
        }
        number += 1;
    }
    Ok(draft)
}
