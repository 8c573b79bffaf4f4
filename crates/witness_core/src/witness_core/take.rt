//! Messages that are judged, and told to the core.
//!
//! An event that isn't taken is let go by `drop`: where that happens of itself at a function's end, its proof takes longer.
ghost use Rattle.std.specs.Prelude.{◌≡◌, ◌⊎◌, ◌≤◌, true, false, length, IfOk, IfErr, OnOk, OnErr, MatchResult, Ok, Some, slice_get};
ghost use Rattle.validator_core.specs.Acceptance.Standing.{IsHeld};
ghost use Rattle.validator_core.specs.Tables.View.{body_of};
ghost use Rattle.event_body.specs.EventBody.Events as events;
ghost use Rattle.journal.specs.Journal.Logs.{is_in};
ghost use Rattle.journal.specs.Journal.Replies as replies;
ghost use Rattle.journal.specs.Journal.Replies.{is_full};
ghost use Rattle.validator_core.specs.ValidatorCore.Messages.{JudgesMessage};
ghost use Rattle.validator_core.specs.ValidatorCore.View.{Follows, base_of, told_of};
ghost use Rattle.witness_core.specs.WitnessStore.Histories.{history_of, log_in};
ghost use Rattle.witness_core.specs.WitnessStore.Room.{IsKnown, IsRoom};
ghost use Rattle.witness_core.specs.WitnessStore.Storing.{AreStored};
ghost use Rattle.witness_core.specs.declared.witness_store.witness_fault.WitnessFault.TheVariants.{LimitReached as NoRoom, OutOfMemory as NoMemory};
ghost use Rattle.witness_core.specs.WitnessCore.Faults.{FullBy};
ghost use Rattle.witness_core.specs.WitnessCore.Telling.{Came, Fails, FailsMessage, IsReady, IsTurnedAway, IsUntold, TakesIn, has_no_room};

use crate::witness_core::WitnessFault;
use crate::witness_core::taken::Taken;
use crate::witness_store::{Coming, Room, count_signatures, lacks_room};
use cesr_stream::Message;
use event_body::Event;
use journal::{Claim, Reply};
use json_tree::Text;
use keri_outside::{Limits, Steps};
use lists::{Items, length_u32};
use shelf_log::{Disk, Shelf};
use std::alloc::Global;
use validator_core::{Core, claims_of, judge_message};

/// Judges a message, and tells the core of its event where there is room.
pub(crate) fn take_in<D: Disk + Drop>(
    alloc: Global,
    core: &mut Core,
    shelf: &Shelf<D>,
    room: &mut Room,
    steps: &mut Steps,
    limits: Limits,
    message: &Message,
) -> Result<Taken, WitnessFault>
    requires limits { (shelf.now.limits ≡ limits) × (core.old.limits ≡ limits) }
    requires stored { AreStored (history_of core.old) shelf.now.list shelf.now.limits shelf.now.broken
        (D.shown shelf.now.disk) room.old }
    ensures taken { IfOk result (λ taken. TakesIn limits core.old room.old shelf.now.list message.now taken
        core.new room.new) }
    ensures full { MatchResult result (λ _. IsTurnedAway limits core.old shelf.now.list message.now → ⊥)
        (FullBy (IsTurnedAway limits core.old shelf.now.list message.now)) }
    ensures fault { IfErr result (FailsMessage message.now core.old room.old core.new room.new) }
    ensures follows { Follows core.old core.new }
{
    match judge_message(alloc, message)? {
        Err(reason) => Ok(Taken::Refused(reason)),
        Ok(event) => {
            if event.is_receipt() {
                drop(event);
                return Ok(Taken::NotAnEvent);
            }
            let Ok(claims) = claims_of(alloc, message) else {
                drop(event);
                return Err(WitnessFault::OutOfMemory);
            };
            let brought = Brought { event, claims };
            let number = take_event(core, shelf, room, steps, limits, message, brought)?;
            Ok(Taken::Event(number))
        }
    }
}

// An event of a message, with the claims that came with it.
#[derive(Drop)]
struct Brought {
    event: Event,
    claims: Items<Claim>,
}

// Tells the core of a message's event where there is room. Answers the number of its body.
fn take_event<D: Disk + Drop>(
    core: &mut Core,
    shelf: &Shelf<D>,
    room: &mut Room,
    steps: &mut Steps,
    limits: Limits,
    message: &Message,
    brought: Brought,
) -> Result<u32, WitnessFault>
    requires limits { (shelf.now.limits ≡ limits) × (core.old.limits ≡ limits) }
    requires stored { AreStored (history_of core.old) shelf.now.list shelf.now.limits shelf.now.broken
        (D.shown shelf.now.disk) room.old }
    requires judged { JudgesMessage message.now (Ok brought.event) }
    requires claims { brought.claims ≡ replies.claims_of message.now }
    requires no_receipt { events.is_receipt brought.event ≡ false }
    ensures ready { IfOk result (λ number. IsReady limits core.old shelf.now.list message.now number
        core.new room.new) }
    ensures room { OnOk result (has_no_room limits core.old shelf.now.list (body_of message.now.body brought.event)
        (replies.claims_of message.now) ≡ false) }
    ensures fault { IfErr result (Fails (has_no_room limits core.old shelf.now.list (body_of message.now.body brought.event)
        (replies.claims_of message.now) ≡ true) (body_of message.now.body brought.event) (replies.claims_of message.now)
        core.old room.old core.new room.new) }
{
    let Brought { event, claims } = brought;
    let coming = Coming {
        number: core.number_of(message.body.as_slice(), &event),
        bytes: message.body.len(),
        signatures: count_signatures(claims.as_slice()),
    };
    if lacks_room(core, shelf, room, limits, coming) {
        drop(event);
        return Err(WitnessFault::LimitReached);
    }
    match coming.number {
        Some(number) => take_again(core, room, steps, &message.body, event, claims, number),
        None => take_first(core, room, steps, &message.body, event, claims),
    }
}

// Tells the core of claims on a body that it holds. Answers its number.
fn take_again(
    core: &mut Core,
    room: &mut Room,
    steps: &mut Steps,
    body: &Text,
    event: Event,
    claims: Items<Claim>,
    number: u32,
) -> Result<u32, WitnessFault>
    requires held { IsHeld (body_of body.now event) }
    requires no_receipt { events.is_receipt event ≡ false }
    requires known { IsKnown core.old }
    requires there { slice_get core.old.held number ≡ Some (body_of body.now event) }
    requires room { IsRoom (history_of core.old) (length (log_in (history_of core.old))) room.old }
    requires small { room.old.reserved ≤ 1073741824 }
    ensures known { OnOk result (IsKnown core.new) }
    ensures number { IfOk result (λ number. slice_get core.new.held number ≡ Some (body_of body.now event)) }
    ensures came { OnOk result (Came (body_of body.now event) claims core.old core.new) }
    ensures room { OnOk result (IsRoom (history_of core.new) (length (log_in (history_of core.old))) room.new) }
    ensures not_full { OnOk result (is_full core.old.limits (base_of core.old) (told_of core.old)
        (body_of body.now event) claims ≡ false) }
    ensures fault { IfErr result (Fails (is_full core.old.limits (base_of core.old) (told_of core.old)
        (body_of body.now event) claims ≡ true) (body_of body.now event) claims core.old room.old core.new room.new) }
{
    let signatures = count_signatures(claims.as_slice());
    let waits = core.waiting().look(number, steps).is_some();
    enter(core, steps, body, event, claims)?;
    room.add_signatures(number, signatures as u32, waits);
    Ok(number)
}

// Tells the core of a body that it doesn't hold. Answers its number.
fn take_first(
    core: &mut Core,
    room: &mut Room,
    steps: &mut Steps,
    body: &Text,
    event: Event,
    claims: Items<Claim>,
) -> Result<u32, WitnessFault>
    requires held { IsHeld (body_of body.now event) }
    requires no_receipt { events.is_receipt event ≡ false }
    requires known { IsKnown core.old }
    requires new { is_in core.old.held (body_of body.now event) ≡ false }
    requires room { IsRoom (history_of core.old) (length (log_in (history_of core.old))) room.old }
    requires small { room.old.reserved ≤ 1073741824 }
    ensures known { OnOk result (IsKnown core.new) }
    ensures number { IfOk result (λ number. slice_get core.new.held number ≡ Some (body_of body.now event)) }
    ensures came { OnOk result (Came (body_of body.now event) claims core.old core.new) }
    ensures room { OnOk result (IsRoom (history_of core.new) (length (log_in (history_of core.old))) room.new) }
    ensures not_full { OnOk result (is_full core.old.limits (base_of core.old) (told_of core.old)
        (body_of body.now event) claims ≡ false) }
    ensures fault { IfErr result (Fails (is_full core.old.limits (base_of core.old) (told_of core.old)
        (body_of body.now event) claims ≡ true) (body_of body.now event) claims core.old room.old core.new room.new) }
{
    let signatures = count_signatures(claims.as_slice());
    let Ok(number) = length_u32(core.journal().bodies.len()) else {
        drop(event);
        return Err(WitnessFault::OutOfMemory);
    };
    enter(core, steps, body, event, claims)?;
    room.add_body(body.len(), signatures as u32)?;
    Ok(number)
}

// Tells the core of a body with its claims.
fn enter(
    core: &mut Core,
    steps: &mut Steps,
    body: &Text,
    event: Event,
    claims: Items<Claim>,
) -> Result<(), WitnessFault>
    requires held { IsHeld (body_of body.now event) }
    ensures known { OnOk result (IsKnown core.new) }
    ensures came { OnOk result (Came (body_of body.now event) claims core.old core.new) }
    ensures not_full { OnOk result (is_full core.old.limits (base_of core.old) (told_of core.old)
        (body_of body.now event) claims ≡ false) }
    ensures untold { OnErr result (IsUntold core.old core.new) }
    ensures full { IfErr result (λ fault. fault ≡ NoRoom → is_full core.old.limits (base_of core.old)
        (told_of core.old) (body_of body.now event) claims ≡ true) }
    ensures fault { IfErr result (λ fault. (fault ≡ NoRoom) ⊎ (fault ≡ NoMemory)) }
{
    let reply = core.take_event(0, body, event, claims, steps)?;
    core.sound();
    match reply {
        Reply::LimitReached => Err(WitnessFault::LimitReached),
        Reply::Taken => Ok(()),
        Reply::Again => Ok(()),
        Reply::Refused(_) => unreachable!(),
    }
}
