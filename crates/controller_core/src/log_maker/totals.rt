//! How much a stream has in all.
ghost use Rattle.std.specs.Prelude.{◌≡◌, ◌≤◌, ◌+◌, ◌*◌, ◌^◌, length, false, IfSome, IfNone};
ghost use Rattle.std.specs.Fmt.{digits as hexadecimal};
ghost use Rattle.controller_core.specs.LogMaker.Draws.{rotations_before};
ghost use Rattle.controller_core.specs.LogMaker.Messages.{message_text};
ghost use Rattle.controller_core.specs.LogMaker.Streams.{log_text, stream_rotations, stream_text};

use crate::log_maker::draw::Draw;

// The bytes of a message without the digits of its event's number, by the event's kind. Of an inception's body there are 485, of a
// rotation's 351 and of an interaction's 202: names, brackets and commas, and 44 characters for each key and digest, by the
// fields of that kind. The groups behind it have 360: 4 and 88 of the signature, 4 and three times 88 of the receipts.
const INCEPTION_SIZE: u64 = 485 + 360;

const ROTATION_SIZE: u64 = 351 + 360;

const INTERACTION_SIZE: u64 = 202 + 360;

/// The rotations and the bytes of a whole stream.
#[derive(Clone, Copy, PartialEq, Eq, Debug)]
pub struct Totals {
    pub rotations: u64,
    pub bytes: u64,
}

/// How many rotations and bytes the stream of the seed has, where 64 bits hold the numbers. Nothing of it is made, and
/// no memory is taken.
pub fn totals_of(seed: u64, logs: u64, events: u64) -> Option<Totals>
    ensures rotations { IfSome result (λ totals. totals.rotations ≡ stream_rotations seed logs events) }
    ensures bytes { IfSome result (λ totals. totals.bytes ≡ length (stream_text seed logs events)) }

    // There is no answer only where there are as many bytes. A message has 846 at most.
    ensures many { IfNone result (2 ^ 64 ≤ length (stream_text seed logs events)) }
    ensures few { length (stream_text seed logs events) ≤ logs * (events * 846) }
{
    let mut totals = Totals {
        rotations: 0,
        bytes: 0,
    };
    for log in 0..logs {
        let Some(of_log) = log_totals(seed, log, events) else {
            return None;
        };
        let Some(both) = added(totals, of_log) else {
            return None;
        };
        totals = both;
    }
    Some(totals)
}

// The same of two parts.
fn added(one: Totals, other: Totals) -> Option<Totals>
    requires one { one.rotations ≤ one.bytes }
    requires other { other.rotations ≤ other.bytes }
    ensures some { IfSome result (λ both. (both.rotations ≡ one.rotations + other.rotations)
        × (both.bytes ≡ one.bytes + other.bytes)) }
    ensures none { IfNone result (2 ^ 64 ≤ one.bytes + other.bytes) }
{
    let Some(bytes) = one.bytes.checked_add(other.bytes) else {
        return None;
    };
    Some(Totals {
        rotations: one.rotations + other.rotations,
        bytes,
    })
}

// The same of one log.
fn log_totals(seed: u64, log: u64, events: u64) -> Option<Totals>
    ensures rotations { IfSome result (λ totals. totals.rotations ≡ rotations_before seed log events) }
    ensures bytes { IfSome result (λ totals. totals.bytes ≡ length (log_text seed log events)) }
    ensures few { IfSome result (λ totals. totals.rotations ≤ totals.bytes) }
    ensures many { IfNone result (2 ^ 64 ≤ length (log_text seed log events)) }
{
    let mut next = Draw::first(seed, log);
    let mut bytes = 0u64;
    'events: while next.sn < events {
        let Some(more) = bytes.checked_add(message_size(&next)) else {
            return None;
        };
        bytes = more;
        next = next.next();
    }
    Some(Totals {
        rotations: next.rotations,
        bytes,
    })
}

// How many bytes the message of the event has.
fn message_size(event: &Draw) -> u64
    ensures size { result ≡ length (message_text event.now.seed event.now.log event.now.sn) }
    ensures some { 1 ≤ result }
{
    let plain = if event.sn == 0 {
        INCEPTION_SIZE
    } else if event.is_rotation() {
        ROTATION_SIZE
    } else {
        INTERACTION_SIZE
    };
    plain + hex_length(event.sn)
}

// How many hexadecimal digits a number has.
fn hex_length(number: u64) -> u64
    ensures digits { result ≡ length (hexadecimal 16 false number) }
    ensures few { result ≤ 64 }
{
    if number < 16 {
        1
    } else {
        1 + hex_length(number / 16)
    }
}
