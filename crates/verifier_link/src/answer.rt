//! The rehearsal's answers on a sink.
ghost use Rattle.std.specs.Prelude.{◌≡◌, ◌∷◌, []};
ghost use Rattle.lists.specs.KeriSpecs.Causes.{HasCause};
ghost use Rattle.lists.specs.KeriSpecs.Shown.{Puts};
ghost use Rattle.verifier_link.specs.Answers.{rehearsal_text, verdict_text};

use crate::Wanted;
use keri_outside::{Failed, Sink, rehearse};

/// Puts what the rehearsal answers about a body, or where the sink fails a front of it.
pub(crate) fn put_answer<K: Sink>(sink: &mut K, wanted: &Wanted, body: &[u8]) -> Result<(), Failed>
    ensures written { Puts (K.written sink.old) (K.written sink.new) result (rehearsal_text wanted.now body.now) }
    ensures cause { HasCause (K.faults sink.old) (K.faults sink.new) result }
{
    match wanted {
        Wanted::Verdict(key, sig) => {
            let yes = rehearse(key, body).raw == sig.raw;
            sink.put(&[verdict_letter(yes)])
        }
        Wanted::Signature(key) => {
            let mut text = [0u8; 88];
            rehearse(key, body).write(&mut text);
            sink.put(&text)
        }
    }
}

// The letter of a verdict.
fn verdict_letter(yes: bool) -> u8
    ensures { result ∷ [] ≡ verdict_text yes }
{
    if yes { b'Y' } else { b'N' }
}
