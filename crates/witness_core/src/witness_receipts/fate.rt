//! What becomes of an event.
ghost use Rattle.std.specs.Prelude.{◌≡◌, ◌<◌, ◌≤◌, ◌-◌, ◌&&◌, Some, false, length, slice_get};
ghost use Rattle.event_body.specs.EventBody.Events as events;
ghost use Rattle.journal.specs.Journal.Grown.{IsGrown};
ghost use Rattle.journal.specs.Journal.Logs.{is_in, takes as takes_next};
ghost use Rattle.journal.specs.declared.journal.body.Body.{Body};
ghost use Rattle.validator_core.specs.ValidatorCore.View.{accepted_by, base_of, state_of};
ghost use Rattle.witness_core.specs.WitnessReceipts.Fates as fates;
ghost use Rattle.witness_core.specs.WitnessReceipts.Fates.{live_there, waiting_fate};

use cesr_codes::{Digest, Key, Prefix};
use event_body::Event;
use journal::{Reason, Why, takes};
use key_state::KeyState;
use validator_core::Core;

/// What becomes of a message.
#[derive(Clone, Copy, PartialEq, Eq, Debug)]
pub enum Fate {
    /// Its event is stored. The event's own witnesses hold the witness's key, or they don't.
    Stored { listed: bool },
    /// Its event waits.
    Waits(Why),
    /// Another event is stored at its place: that with this digest.
    Seen(Digest),
    /// It is a receipt.
    NotAnEvent,
    /// It is refused.
    Refused(Reason),
}

/// The fate of the event of a number. It takes no memory.
pub fn event_fate(core: &Core, key: &Key, number: u32) -> Fate
    requires grown { IsGrown (base_of core.now) }
    requires held { number < length core.now.held }
    requires event { (b : Body) → slice_get core.now.held number ≡ Some b → events.is_receipt b.event ≡ false }
    ensures { (b : Body) → slice_get core.now.held number ≡ Some b → fates.event_fate key.now core.now b ≡ Some result }
{
    core.sound();
    match core.place_of(number) {
        Some(place) => Fate::Stored {
            listed: core.is_witness_at(place, key),
        },
        None => fate_of_waiting(core, number),
    }
}

// The fate of the event of a number that isn't stored.
fn fate_of_waiting(core: &Core, number: u32) -> Fate
    requires grown { IsGrown (base_of core.now) }
    requires held { number < length core.now.held }
    requires event { (b : Body) → slice_get core.now.held number ≡ Some b → events.is_receipt b.event ≡ false }
    requires waits { (b : Body) → slice_get core.now.held number ≡ Some b → is_in (accepted_by core.now) b ≡ false }
    ensures { (b : Body) → slice_get core.now.held number ≡ Some b → waiting_fate core.now b ≡ Some result }
{
    core.sound();
    let Some(event) = core.event(number) else {
        unreachable!()
    };
    match core.why_waits(number) {
        Some(why) => fate_by(core, event, why),
        None => unreachable!(),
    }
}

// The fate of an event that waits for this reason.
fn fate_by(core: &Core, event: &Event, why: Why) -> Fate
    requires { IsGrown (base_of core.now) }
    ensures { fates.fate_by core.now event.now (Some why) ≡ Some result }
{
    if wants_signatures(core, event, why) {
        return Fate::Waits(why);
    }
    match live_at(core, &event.prefix(), event.sn()) {
        Some(said) => Fate::Seen(said),
        None => Fate::Waits(why),
    }
}

// Whether the state takes the event, which waits for its signatures alone.
fn wants_signatures(core: &Core, event: &Event, why: Why) -> bool
    ensures { result ≡ (takes_next (state_of core.now (events.prefix_of event.now)) event.now && fates.is_signing why) }
{
    takes(core.state(&event.prefix()), event) && is_signing(why)
}

// Whether signatures are wanted.
fn is_signing(why: Why) -> bool
    ensures { result ≡ fates.is_signing why }
{
    matches!(why, Why::Signatures | Why::Next)
}

// The digest of the live event of an identifier at a number. It takes no memory. The state has those from its last establishment
// event on; an earlier one is looked for among the accepted events.
fn live_at(core: &Core, prefix: &Prefix, sn: u64) -> Option<Digest>
    requires { IsGrown (base_of core.now) }
    ensures { result ≡ live_there (accepted_by core.now) prefix.now sn }
{
    let state = core.state(prefix)?;
    if sn < state.est_sn {
        earlier_at(core, prefix, sn)
    } else {
        live_since(state, sn)
    }
}

// The digest of the live event of a number that isn't before the last establishment event.
fn live_since(state: &KeyState, sn: u64) -> Option<Digest>
    requires { state.now.est_sn ≤ sn }
    ensures { result ≡ slice_get state.now.since (sn - state.now.est_sn) }
{
    let place = (sn - state.est_sn) as usize;
    state.since.as_slice().get(place).copied()
}

// The digest of the live event of an identifier at a number. It goes over the accepted events from the last one back to the first
// that isn't behind the number.
fn earlier_at(core: &Core, prefix: &Prefix, sn: u64) -> Option<Digest>
    ensures { result ≡ live_there (accepted_by core.now) prefix.now sn }
{
    let events = core.events();
    let accepted = core.accepted();
    for place in (0..accepted.len()).rev() {
        let event = &events[accepted[place] as usize];
        if is_within(event, prefix, sn) {
            return said_at(event, sn);
        }
    }
    None
}

// Whether the event is in the log of the identifier, and not behind the number.
fn is_within(event: &Event, prefix: &Prefix, sn: u64) -> bool
    ensures { result ≡ fates.is_within prefix.now sn event.now }
{
    event.prefix() == *prefix && event.sn() <= sn
}

// The digest of the event, where it has the number.
fn said_at(event: &Event, sn: u64) -> Option<Digest>
    ensures { result ≡ fates.said_at sn event.now }
{
    if event.sn() == sn {
        Some(event.said())
    } else {
        None
    }
}
