//! What takes the messages of a reader.
ghost use Rattle.std.specs.Prelude.{◌≡◌};
ghost use Rattle.turn_lock.specs.Locks.{lock_of};
ghost use Rattle.reader_hub.specs.SharedReader.Asks.{at_last};

use crate::reader_hub::{Extent, Hub, Pass};
use crate::shared_reader::offers::hand_in;
use crate::shared_reader::questions::ask_open;
use cesr_stream::Message;
use journal::Refusal;
use keri_outside::{Gate, Verifier};
use run_status::{Close, FeedClose, Taker};
use std::alloc::Global;
use std::sync::Wait;

/// A pass of a hub, with the verifier that is asked, and what was refused.
#[derive(Drop)]
pub(crate) struct HubTaker<'a, V, G, W> {
    pub(crate) rt: &'a W,
    pub(crate) alloc: Global,
    pub(crate) hub: &'a Hub,
    pub(crate) gate: &'a G,
    pub(crate) pass: Pass,
    pub(crate) verifier: V,
    pub(crate) refused: Vec<Refusal>,
    /// Which questions are asked between messages.
    pub(crate) extent: Extent,
    /// How many messages came.
    pub(crate) count: u64,
    ghost of_hub: { lock_of pass ≡ hub.now.turn.table.shared.table_id },
}

impl<'a, V: Verifier + Drop, G: Gate, W: Wait> Taker for HubTaker<'a, V, G, W> {
    ghost use Rattle.reader_hub.specs.SharedReader.Taken.{HasStopped, HasTaken};
    ghost use Rattle.reader_hub.specs.SharedReader.Takers.{standing_of};

    type Stop = Close;

    ghost has_taken = { λ first now. HasTaken (standing_of V.says V.inquiries V.faults first)
        (standing_of V.says V.inquiries V.faults now) };

    ghost has_stopped = { λ first now. HasStopped (standing_of V.says V.inquiries V.faults first)
        (standing_of V.says V.inquiries V.faults now) };

    fn take(&mut self, message: Message) -> Result<(), Close> {
        self.take_message(&message, self.extent)
    }
}

impl<'a, V: Verifier + Drop, G: Gate, W: Wait> HubTaker<'a, V, G, W> {
    ghost use Rattle.std.specs.Prelude.{OnOk, IfErr};
    ghost use Rattle.reader_hub.specs.SharedReader.Taken.{Finishes, StopsAt, TakesLast, TakesOne};
    ghost use Rattle.reader_hub.specs.SharedReader.Takers.{standing_of};

    // Offers a message between the two calls of the gate.
    fn take_message(&mut self, message: &Message, extent: Extent) -> Result<(), Close>
        ensures ok { OnOk result (TakesOne extent message.now (standing_of V.says V.inquiries V.faults self.old)
            (standing_of V.says V.inquiries V.faults self.new)) }
        ensures err { IfErr result (StopsAt extent message.now (standing_of V.says V.inquiries V.faults self.old)
            (standing_of V.says V.inquiries V.faults self.new)) }
    {
        let number = self.pass.number();
        self.gate.before(number, self.count);
        let offered = self.offer(message, extent);
        self.gate.after(number, self.count);
        self.count = self.count.wrapping_add(1);
        offered
    }

    // Offers a message, and asks what is open then, as far as that extent goes, also where it is refused.
    fn offer(&mut self, message: &Message, extent: Extent) -> Result<(), Close>
        ensures ok { OnOk result (TakesOne extent message.now (standing_of V.says V.inquiries V.faults self.old)
            (standing_of V.says V.inquiries V.faults self.new)) }
        ensures err { IfErr result (StopsAt extent message.now (standing_of V.says V.inquiries V.faults self.old)
            (standing_of V.says V.inquiries V.faults self.new)) }
    {
        match hand_in(
            self.rt,
            self.alloc,
            self.hub,
            &mut self.pass,
            &mut self.refused,
            message,
        ) {
            Ok(()) => ask_open(
                self.rt,
                self.alloc,
                self.hub,
                &mut self.pass,
                &mut self.verifier,
                extent,
            ),
            Err(ending) => Err(ending),
        }
    }

    /// Takes the last message, where there is one and nothing stopped the reader before it, and answers how it ends.
    pub(crate) fn finish(&mut self, feed_end: FeedClose<Close>, last: Option<Message>) -> Close
        ensures { Finishes feed_end last (standing_of V.says V.inquiries V.faults self.old)
            (standing_of V.says V.inquiries V.faults self.new) result }
    {
        let ending = match feed_end {
            FeedClose::End => Close::End,
            FeedClose::Bad(bad) => Close::Bad(bad),
            FeedClose::ReadFault => Close::ReadFault,
            FeedClose::LimitReached => return Close::LimitReached,
            FeedClose::OutOfMemory => return Close::OutOfMemory,
            FeedClose::Stopped(ending) => return ending,
        };
        self.take_last(ending, last)
    }

    // Takes the last message, where there is one, and asks all that is open then.
    fn take_last(&mut self, ending: Close, last: Option<Message>) -> Close
        ensures { TakesLast ending last (standing_of V.says V.inquiries V.faults self.old)
            (standing_of V.says V.inquiries V.faults self.new) result }
    {
        match last {
            Some(message) => match self.take_message(&message, behind_last(self.extent)) {
                Ok(()) => ending,
                Err(stop) => stop,
            },
            None => ending,
        }
    }
}

// Which questions are asked behind the last message, by which are asked between messages: all of them.
fn behind_last(extent: Extent) -> Extent
    ensures { result ≡ at_last extent }
{
    match extent {
        Extent::First => Extent::First,
        Extent::Free | Extent::All => Extent::All,
    }
}
