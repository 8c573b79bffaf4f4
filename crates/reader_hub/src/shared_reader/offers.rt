//! Messages that are handed to the hub.
ghost use Rattle.std.specs.Prelude.{◌≡◌, ◌∷◌, ◌++◌, [], OnOk, OnErr, IfErr};
ghost use Rattle.turn_lock.specs.Locks.{limit_of, known, IsPassOf};
ghost use Rattle.reader_hub.specs.SharedReader.Asks.{TellsNothing};
ghost use Rattle.reader_hub.specs.SharedReader.Offers.{IsKeptOut, OffersOne};

use crate::reader_hub::{Hub, Pass};
use crate::shared_reader::endings::ending_of;
use cesr_stream::Message;
use journal::{Reason, Refusal, Reply};
use run_status::Close;
use std::alloc::Global;
use std::sync::Wait;

/// Hands a message to the hub, and notes it where it is refused.
pub(crate) fn hand_in<W: Wait>(
    rt: &W,
    alloc: Global,
    hub: &Hub,
    pass: &mut Pass,
    refused: &mut Vec<Refusal>,
    message: &Message,
) -> Result<(), Close>
    requires pass { IsPassOf hub.now.turn pass.old }
    ensures pass { IsPassOf hub.now.turn pass.new }
    ensures offers { OnOk result (OffersOne (known pass.old) (known pass.new) refused.old.items refused.new.items
        message.now) }
    ensures nothing { OnErr result (TellsNothing (known pass.old) (known pass.new) 1) }
    ensures kept { OnErr result (refused.new.items ≡ refused.old.items) }
    ensures cause { IfErr result (IsKeptOut (limit_of hub.now.turn) (known pass.new) message.now) }
{
    match hub.take(rt, alloc, pass, message) {
        Ok(Reply::Taken) => Ok(()),
        Ok(Reply::Again) => Ok(()),
        Ok(Reply::Refused(reason)) => note(refused, message.place, reason),
        Ok(Reply::LimitReached) => Err(Close::LimitReached),
        Err(fault) => Err(ending_of(fault)),
    }
}

// Notes that a message was refused.
fn note(refused: &mut Vec<Refusal>, place: u64, reason: Reason) -> Result<(), Close>
    ensures ok { OnOk result (refused.new.items
        ≡ refused.old.items ++ record { place = place; reason = reason } ∷ []) }
    ensures err { IfErr result (λ ending. ending ≡ Close.OutOfMemory) }
    ensures kept { OnErr result (refused.new.items ≡ refused.old.items) }
{
    match refused.push(Refusal { place, reason }) {
        Ok(()) => Ok(()),
        Err(_) => Err(Close::OutOfMemory),
    }
}
