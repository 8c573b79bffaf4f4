//! What came with entries of a journal, raised on an event.
ghost use Rattle.std.specs.Prelude.{◌≡◌, ◌<◌, length, slice_get, Some, OnOk, OnErr};
ghost use Rattle.std.specs.Option.{option_copied};
ghost use Rattle.event_body.specs.declared.event_body.event.Event.{Event as EventValue};
ghost use Rattle.key_state.specs.Kept.{IsKept};
ghost use Rattle.validator_core.specs.Tables.EntryClaims.{all_came_to, came_to, is_receipt_of, bears_on};
ghost use Rattle.validator_core.specs.Tables.RaisedRows.{RaisesRows, RaisesSomeRows};

use crate::tables::raised_claims::raise_claims;
use claim_table::ClaimTable;
use event_body::Event;
use journal::{Claim, Entry};
use key_state::KeyState;
use std::alloc::AllocError;

/// Raises the claims that came by the entries of these numbers and stand on the event of a number, behind a state (an
/// inception is behind none), where their keys are found. After an error some of them are raised.
pub fn raise_entries(
    claims: &mut ClaimTable,
    events: &[Event],
    entries: &[Entry],
    numbers: &[u32],
    number: u32,
    state: Option<&KeyState>,
) -> Result<(), AllocError>
    requires held { number < length events.now }
    requires kept { (e : EventValue) → slice_get events.now number ≡ Some e → IsKept e }
    ensures ok { OnOk result ((e : EventValue) → slice_get events.now number ≡ Some e
        → RaisesRows number (option_copied state.entry) e (all_came_to events.now number entries.now numbers.now)
        claims.old claims.new) }
    ensures err { OnErr result (RaisesSomeRows number claims.old claims.new) }
{
    for entry in numbers {
        let came = entries.get(*entry as usize);
        raise_claims_by(claims, events, came, number, state)?;
    }
    Ok(())
}

/// Raises the claims that came by an entry and stand on the event of a number, behind a state, where their keys are found.
/// After an error some of them are raised.
pub fn raise_claims_by(
    claims: &mut ClaimTable,
    events: &[Event],
    entry: Option<&Entry>,
    number: u32,
    state: Option<&KeyState>,
) -> Result<(), AllocError>
    requires held { number < length events.now }
    requires kept { (e : EventValue) → slice_get events.now number ≡ Some e → IsKept e }
    ensures ok { OnOk result ((e : EventValue) → slice_get events.now number ≡ Some e
        → RaisesRows number (option_copied state.entry) e (came_to events.now number (option_copied entry.entry))
        claims.old claims.new) }
    ensures err { OnErr result (RaisesSomeRows number claims.old claims.new) }
{
    let came = claims_by(events, entry, number);
    let event = &events[number as usize];
    raise_claims(claims, number, state, event, came)
}

/// The claims of an entry that stand on the event of a number.
pub fn claims_by<'a>(events: &[Event], entry: Option<&'a Entry>, number: u32) -> &'a [Claim]
    ensures { result.now ≡ came_to events.now number (option_copied entry.entry) }
{
    match entry {
        Some(Entry::Took { body, claims, .. }) => {
            if bears_on(events, *body, number) {
                claims.as_slice()
            } else {
                &[]
            }
        }
        Some(Entry::Heard { .. }) | None => &[],
    }
}

// Whether what came with the body of a number stands on another: it is that body, or a receipt of it.
fn bears_on(events: &[Event], came: u32, number: u32) -> bool
    ensures { result ≡ bears_on events.now came number }
{
    came == number || is_receipt_of(events.get(came as usize), events.get(number as usize))
}

// Whether the first is a receipt of the second.
fn is_receipt_of(receipt: Option<&Event>, event: Option<&Event>) -> bool
    ensures { result ≡ is_receipt_of (option_copied receipt.entry) (option_copied event.entry) }
{
    let (Some(receipt), Some(event)) = (receipt, event) else {
        return false;
    };
    receipt.is_receipt()
        && receipt.said() == event.said()
        && receipt.prefix() == event.prefix()
        && receipt.sn() == event.sn()
}
