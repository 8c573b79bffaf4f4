//! The open questions, which the verifier is asked between two turns.
ghost use Rattle.std.specs.Prelude.{◌≡◌, ◌≤◌, [], ◌∷◌, false, length, OnOk, IfOk, IfErr, IfSome, if◌then◌else◌};
ghost use Rattle.lists.specs.KeriSpecs.Causes.{HasCause};
ghost use Rattle.lists.specs.KeriSpecs.Shown.{Puts};
ghost use Rattle.keri_outside.specs.Asked.{inquiry};
ghost use Rattle.turn_lock.specs.Locks.{limit_of, known, IsPassOf};
ghost use Rattle.reader_hub.specs.SharedReader.Asks.{Asks, LeavesNone, StopsAsking};

use crate::reader_hub::{Asked, Extent, Hub, Pass};
use crate::shared_reader::endings::ending_of;
use journal::Question;
use keri_outside::{Failed, Verifier};
use run_status::Close;
use std::alloc::Global;
use std::sync::Wait;

/// Asks the verifier open questions of that extent, and tells the hub its verdicts, until none is left. A verdict, of
/// this reader or of another one, may open further questions.
pub(crate) fn ask_open<V: Verifier, W: Wait>(
    rt: &W,
    alloc: Global,
    hub: &Hub,
    pass: &mut Pass,
    verifier: &mut V,
    extent: Extent,
) -> Result<(), Close>
    requires pass { IsPassOf hub.now.turn pass.old }
    ensures pass { IsPassOf hub.now.turn pass.new }
    ensures same { V.says verifier.new ≡ V.says verifier.old }
    ensures none_failed { OnOk result (V.faults verifier.new ≡ V.faults verifier.old) }
    ensures asks { OnOk result (Asks extent (V.says verifier.old) (V.inquiries verifier.old) (V.inquiries verifier.new)
        (known pass.old) (known pass.new) 1 0) }
    ensures none_open { OnOk result (LeavesNone extent (known pass.new)) }
    ensures stopped { IfErr result (λ ending. Asks extent (V.says verifier.old) (V.inquiries verifier.old)
        (V.inquiries verifier.new) (known pass.old) (known pass.new) 4 1) }
    ensures stops { IfErr result (StopsAsking (limit_of hub.now.turn) (known pass.new) (V.faults verifier.old)
        (V.faults verifier.new)) }
{
    for _ in rt.forever() {
        match ask_one(rt, alloc, hub, pass, verifier, extent) {
            Ok(true) => {}
            Ok(false) => return Ok(()),
            Err(ending) => return Err(ending),
        }
    }
    unreachable!()
}

// Asks an open question of that extent and tells the hub the verdict, where there is one.
fn ask_one<V: Verifier, W: Wait>(
    rt: &W,
    alloc: Global,
    hub: &Hub,
    pass: &mut Pass,
    verifier: &mut V,
    extent: Extent,
) -> Result<bool, Close>
    requires pass { IsPassOf hub.now.turn pass.old }
    ensures pass { IsPassOf hub.now.turn pass.new }
    ensures same { V.says verifier.new ≡ V.says verifier.old }
    ensures none_failed { OnOk result (V.faults verifier.new ≡ V.faults verifier.old) }
    ensures asks { IfOk result (λ some. Asks extent (V.says verifier.old) (V.inquiries verifier.old)
        (V.inquiries verifier.new) (known pass.old) (known pass.new) (if some then 0 else 1) 0) }
    ensures none_open { IfOk result (λ some. some ≡ false → LeavesNone extent (known pass.new)) }
    ensures stopped { IfErr result (λ ending. Asks extent (V.says verifier.old) (V.inquiries verifier.old)
        (V.inquiries verifier.new) (known pass.old) (known pass.new) 4 1) }
    ensures stops { IfErr result (StopsAsking (limit_of hub.now.turn) (known pass.new) (V.faults verifier.old)
        (V.faults verifier.new)) }
{
    let answer = match hub.next_question(rt, alloc, pass, extent) {
        Ok(answer) => answer,
        Err(fault) => return Err(ending_of(fault)),
    };
    let Some(Asked { question, bytes }) = answer else {
        return Ok(false);
    };
    let verdict = match verdict_on(verifier, &question, bytes.as_slice()) {
        Ok(verdict) => verdict,
        Err(Failed) => return Err(Close::VerifierFault),
    };
    match hub.answer(rt, pass, &question, verdict) {
        Ok(_) => Ok(true),
        Err(fault) => Err(ending_of(fault)),
    }
}

// What the verifier says of a question on this body.
fn verdict_on<V: Verifier>(
    verifier: &mut V,
    question: &Question,
    body: &[u8],
) -> Result<bool, Failed>
    requires few { length body.now ≤ 65535 }
    ensures said { IfOk result (λ yes. IfSome (V.says verifier.old question.now.key body.now question.now.sig)
        (λ told. yes ≡ told)) }
    ensures same { V.says verifier.new ≡ V.says verifier.old }
    ensures asked { Puts (V.inquiries verifier.old) (V.inquiries verifier.new) result
        (inquiry question.now.key body.now question.now.sig ∷ []) }
    ensures cause { HasCause (V.faults verifier.old) (V.faults verifier.new) result }
{
    verifier.ask(&question.key, body, &question.sig)
}
