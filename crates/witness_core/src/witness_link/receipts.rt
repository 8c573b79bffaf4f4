//! Receipts that are put on a sink.
ghost use Rattle.lists.specs.KeriSpecs.Causes.{HasCause};
ghost use Rattle.lists.specs.KeriSpecs.Shown.{Puts};
ghost use Rattle.witness_core.specs.WitnessLink.Calls.{text_of};

use crate::witness_receipts::Receipt;
use keri_outside::{Failed, Sink};

/// Puts the receipts, one after the other, each whole.
pub(crate) fn put_receipts<K: Sink>(sink: &mut K, receipts: &[Receipt]) -> Result<(), Failed>
    ensures puts { Puts (K.written sink.old) (K.written sink.new) result (text_of receipts.now) }
    ensures cause { HasCause (K.faults sink.old) (K.faults sink.new) result }
{
    for receipt in receipts {
        match sink.put(receipt.bytes.as_slice()) {
            Ok(()) => {}
            Err(Failed) => return Err(Failed),
        }
    }
    Ok(())
}
