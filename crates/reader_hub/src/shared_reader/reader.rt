//! One reader.
ghost use Rattle.std.specs.Prelude.{[]};
ghost use Rattle.turn_lock.specs.Known.{OwnsAlone};
ghost use Rattle.turn_lock.specs.Locks.{limit_of, known, IsPassOf};
ghost use Rattle.reader_hub.specs.SharedReader.Readers.{HasRead};

use crate::reader_hub::{Extent, Hub, Pass};
use crate::shared_reader::hub_taker::HubTaker;
use journal::Refusal;
use keri_outside::{Gate, Limits, Source, Verifier};
use run_status::{Close, feed_messages};
use std::alloc::Global;
use std::sync::Wait;

/// What a reader reads with.
#[derive(Drop)]
pub struct Reader<S, V> {
    pub pass: Pass,
    /// Which questions are asked between messages.
    pub extent: Extent,
    pub source: S,
    pub verifier: V,
}

/// What a reader hands back.
#[derive(Drop)]
pub struct ReadOne<S, V> {
    pub pass: Pass,
    pub source: S,
    pub verifier: V,
    /// The messages that were refused, in order.
    pub refused: Vec<Refusal>,
    pub ending: Close,
}

/// Reads the source as far as a stream may be read. Each message is offered with the pass, and then the verifier is
/// asked what is open to that extent, and behind the last message all that is open; each between `before` and `after` of
/// the gate. The pass comes back with this reader's entries in its share. A reader that shares the hub with no other, and
/// asks the first question each time, has each message taken once no question is open.
pub fn read_one<S: Source + Drop, V: Verifier + Drop, G: Gate, W: Wait>(
    rt: &W,
    alloc: Global,
    hub: &Hub,
    gate: &G,
    limits: Limits,
    reader: Reader<S, V>,
) -> ReadOne<S, V>
    requires pass { IsPassOf hub.now.turn reader.pass }
    requires own { OwnsAlone (known reader.pass) [] }
    ensures pass { IsPassOf hub.now.turn result.pass }
    ensures reads { HasRead S.left S.faults V.says V.inquiries V.faults limits (limit_of hub.now.turn) reader result }
{
    let Reader {
        pass,
        extent,
        mut source,
        verifier,
    } = reader;
    let mut taker = HubTaker {
        rt,
        alloc,
        hub,
        gate,
        pass,
        verifier,
        refused: Vec::new(alloc),
        extent,
        count: 0,
    };
    let (feed_end, last) = feed_messages(alloc, &mut source, limits, &mut taker);
    let ending = taker.finish(feed_end, last);
    let HubTaker {
        pass,
        verifier,
        refused,
        ..
    } = taker;
    ReadOne {
        pass,
        source,
        verifier,
        refused,
        ending,
    }
}
