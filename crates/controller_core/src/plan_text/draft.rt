//! Plans that are being read.
ghost use Rattle.std.specs.Prelude.{◌≡◌, ◌++◌, ◌∷◌, [], IsSome, IfSome, IfNone, IfErr, OnOk, OnErr, IfOk};
ghost use Rattle.std.specs.Option.{option_to_list};
ghost use Rattle.controller_core.specs.PlanText.Plans.{default_threshold, event_of};

use crate::controller_core::{Plan, Slot};
use crate::plan_text::entry::Entry;
use crate::plan_text::event_plan::{EventPlan, PlannedEvent};
use crate::plan_text::given_prefix::GivenPrefix;
use crate::plan_text::kind::Kind;
use crate::plan_text::line_fault::LineFault;
use crate::plan_text::promise::Promise;
use crate::plan_text::reuse;
use crate::plan_text::split::split;
use cesr_codes::{Digest, DigestCode, Key, Prefix};
use json_tree::{Text, Tree};
use lists::Items;
use sith::Threshold;
use std::alloc::{AllocError, Global};

/// What the lines of a plan so far give.
#[derive(Drop)]
pub(crate) struct Draft {
    prefix: Option<GivenPrefix>,
    code: Option<DigestCode>,
    kt: Option<Threshold>,
    nt: Option<Threshold>,
    keys: Items<Key>,
    next: Items<Digest>,
    cuts: Items<Key>,
    adds: Items<Key>,
    toad: Option<u64>,
    traits: Items<Text>,
    anchors: Items<Tree>,
    delegator: Option<Prefix>,
    signers: Items<Slot>,
    promises: Items<Promise>,
    reuse: Option<()>,
}

impl Draft {
    ghost use Rattle.std.specs.Prelude.{Some};
    ghost use Rattle.controller_core.specs.declared.plan_text.entry.Entry.{Entry};
    ghost use Rattle.controller_core.specs.declared.plan_text.event_plan.EventPlan.{EventPlan};
    ghost use Rattle.controller_core.specs.declared.plan_text.line_fault.LineFault.TheVariants.{Refused};
    ghost use Rattle.controller_core.specs.declared.plan_text.entry.Entry.TheVariants.{Next};
    ghost use Rattle.controller_core.specs.PlanText.Promises.{HasFirstReuse, PromisesNewKeys};
    ghost use Rattle.controller_core.specs.PlanText.Sheets.{IsOnce};
    ghost use Rattle.controller_core.specs.PlanText.Plans.{IsEventPlan, plan_of};
    ghost use Rattle.controller_core.specs.PlanText.Drafts.{IsRefusedLine, TakesLine, empty, push, sheet};

    /// That of no lines.
    pub(crate) fn new(alloc: Global) -> Draft
        ensures { sheet result ≡ empty }
    {
        Draft {
            prefix: None,
            code: None,
            kt: None,
            nt: None,
            keys: Items::new(alloc),
            next: Items::new(alloc),
            cuts: Items::new(alloc),
            adds: Items::new(alloc),
            toad: None,
            traits: Items::new(alloc),
            anchors: Items::new(alloc),
            delegator: None,
            signers: Items::new(alloc),
            promises: Items::new(alloc),
            reuse: None,
        }
    }

    /// Takes the first line of the text, which has this number in the plan, and answers what stands behind it.
    pub(crate) fn take_line<'a>(
        &mut self,
        alloc: Global,
        kind: Kind,
        number: u64,
        text: &'a [u8],
    ) -> Result<&'a [u8], LineFault>
        ensures some { IfOk result (λ rest. TakesLine kind number text.now rest.now (sheet self.old) (sheet self.new)) }
        ensures refused { IfErr result (λ fault. fault ≡ Refused → IsRefusedLine kind number text.now (sheet self.old)) }
    {
        let Some((line, rest)) = split(text, b'\n') else {
            return Err(LineFault::Refused);
        };
        let entry = match Entry::read(alloc, kind, line) {
            Ok(entry) => entry,
            Err(fault) => return Err(fault),
        };
        match self.add(number, entry) {
            Ok(()) => Ok(rest),
            Err(fault) => Err(fault),
        }
    }

    // Adds what the line of this number gives.
    fn add(&mut self, number: u64, entry: Entry) -> Result<(), LineFault>
        ensures ok { OnOk result (sheet self.new ≡ push number entry (sheet self.old)) }
        ensures refused { IfErr result (λ fault. fault ≡ Refused → ¬ IsOnce (push number entry (sheet self.old))) }
    {
        match entry {
            Entry::Prefix(prefix) => fill(&mut self.prefix, prefix)?,
            Entry::Code(code) => fill(&mut self.code, code)?,
            Entry::Kt(threshold) => fill(&mut self.kt, threshold)?,
            Entry::Nt(threshold) => fill(&mut self.nt, threshold)?,
            Entry::Key(key) => self.keys.push(key)?,
            Entry::Next(digest) => self.add_next(number, digest)?,
            Entry::Cut(key) => self.cuts.push(key)?,
            Entry::Add(key) => self.adds.push(key)?,
            Entry::Bt(toad) => fill(&mut self.toad, toad)?,
            Entry::Trait(text) => self.traits.push(text)?,
            Entry::Seal(tree) => self.anchors.push(tree)?,
            Entry::Di(prefix) => fill(&mut self.delegator, prefix)?,
            Entry::Sign(slot) => self.signers.push(slot)?,
            Entry::Reuse => fill(&mut self.reuse, ())?,
        }
        Ok(())
    }

    // Adds a promise. Before a line `reuse yes` it is kept with its line too, to be judged with the plan's keys.
    fn add_next(&mut self, line: u64, digest: Digest) -> Result<(), AllocError>
        ensures { OnOk result (sheet self.new ≡ push line (Next digest) (sheet self.old)) }
    {
        if self.reuse.is_none() {
            self.promises.push(Promise { line, digest })?;
        }
        self.next.push(digest)?;
        Ok(())
    }

    /// The number of the first line before one `reuse yes` that promises a key which the plan has already.
    pub(crate) fn first_reuse(&self, alloc: Global) -> Result<Option<u64>, AllocError>
        ensures some { IfOk result (λ found. IfSome found (HasFirstReuse (sheet self.now))) }
        ensures none { IfOk result (λ found. IfNone found (PromisesNewKeys (sheet self.now))) }
    {
        reuse::first_reuse(alloc, self.keys.as_slice(), self.promises.as_slice())
    }

    /// The plan of this kind, where nothing is missing and no delegator too many.
    pub(crate) fn finish(self, kind: Kind) -> Option<EventPlan>
        ensures some { IfSome result (λ plan. IsEventPlan kind (sheet self) plan) }
        ensures only { (plan : EventPlan) → IsEventPlan kind (sheet self) plan → result ≡ Some plan }
    {
        if self.delegator.is_some() != kind.has_delegator() {
            return None;
        }
        let event = event(kind, self.prefix)?;
        let plan = self.plan(kind);
        Some(EventPlan { event, plan })
    }

    // The plan, with the values that stand for those that no line gives.
    fn plan(self, kind: Kind) -> Plan
        ensures { result ≡ plan_of kind (sheet self) }
    {
        Plan {
            delegated: kind.is_delegated(),
            code: self.code.unwrap_or(DigestCode::Blake3),
            basic: self.prefix.unwrap_or(GivenPrefix::Said).is_basic(),
            kt: self.kt.unwrap_or(Threshold::Count(1)),
            keys: self.keys,
            nt: self.nt.unwrap_or(next_threshold(&self.next)),
            next: self.next,
            toad: self.toad.unwrap_or(0),
            cuts: self.cuts,
            adds: self.adds,
            traits: self.traits,
            anchors: self.anchors,
            delegator: self.delegator,
            signers: self.signers,
        }
    }
}

// Puts a value where there is none yet.
fn fill<T: Drop>(place: &mut Option<T>, value: T) -> Result<(), LineFault>
    ensures ok { OnOk result (option_to_list place.new ≡ option_to_list place.old ++ value ∷ []) }
    ensures refused { OnErr result (IsSome place.old) }
{
    if place.is_some() {
        return Err(LineFault::Refused);
    }
    *place = Some(value);
    Ok(())
}

// The threshold of the next keys where no line gives one.
fn next_threshold(next: &Items<Digest>) -> Threshold
    ensures { result ≡ default_threshold next.now }
{
    if next.is_empty() {
        Threshold::Count(0)
    } else {
        Threshold::Count(1)
    }
}

// The event of a plan of this kind with this prefix.
fn event(kind: Kind, prefix: Option<GivenPrefix>) -> Option<PlannedEvent>
    ensures { result ≡ event_of kind (option_to_list prefix) }
{
    match (kind, prefix) {
        (Kind::Icp | Kind::Dip, _) => Some(PlannedEvent::Inception),
        (Kind::Rot | Kind::Drt, Some(GivenPrefix::Of(prefix))) => {
            Some(PlannedEvent::Rotation(prefix))
        }
        (Kind::Ixn, Some(GivenPrefix::Of(prefix))) => Some(PlannedEvent::Interaction(prefix)),
        _ => None,
    }
}
