//! Places of signatures.
ghost use Rattle.std.specs.Prelude.{◌≡◌, Ok, IfOk, ℕ, Option};
ghost use Rattle.controller_core.specs.declared.controller_core.slot.Slot.{Slot};
ghost use Rattle.controller_core.specs.PlanText.Entries.{IsOndex, IsSlot, ondex_text, slot_text};

use crate::controller_core::Slot;
use crate::plan_text::line_fault::LineFault;
use crate::plan_text::number::read_index;
use crate::plan_text::split::split;

/// The place of a signature's key that is written so.
pub(crate) fn read_slot(value: &[u8]) -> Result<Slot, LineFault>
    ensures some { IfOk result (λ slot. IsSlot slot × (value.now ≡ slot_text slot)) }
    ensures only { (slot : Slot) → IsSlot slot → value.now ≡ slot_text slot → result ≡ Ok slot }
{
    let Some((index, ondex)) = split(value, b' ') else {
        return Err(LineFault::Refused);
    };
    match (read_index(index), read_ondex(ondex)) {
        (Ok(index), Ok(ondex)) => Ok(Slot { index, ondex }),
        _ => Err(LineFault::Refused),
    }
}

// The other index, or the hyphen for none.
fn read_ondex(text: &[u8]) -> Result<Option<u16>, LineFault>
    ensures some { IfOk result (λ ondex. IsOndex ondex × (text.now ≡ ondex_text ondex)) }
    ensures only { (ondex : Option ℕ) → IsOndex ondex → text.now ≡ ondex_text ondex → result ≡ Ok ondex }
{
    if text == b"-".as_slice() {
        return Ok(None);
    }
    Ok(Some(read_index(text)?))
}
