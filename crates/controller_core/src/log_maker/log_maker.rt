//! A stream of logs as a source, which is made event by event.
ghost use Rattle.std.specs.Prelude.{◌≡◌, ◌≤◌, ◌<◌, ◌++◌, [], drop, length, take};

use crate::log_maker::message::next_message;
use crate::log_maker::rest::Rest;
use keri_outside::{Failed, Source};
use std::alloc::{AllocError, Global};

/// The stream of a seed, which is made message by message as it is read.
#[derive(Drop)]
pub struct LogMaker {
    alloc: Global,
    rest: Rest,
    /// The last message that was made.
    message: Vec<u8>,
    /// How much of it was given.
    given: usize,
    faults: u64,
    ghost in_message: { given ≤ length message.items },
}

impl LogMaker {
    ghost use Rattle.std.specs.Prelude.{Some, OnOk};
    ghost use Rattle.controller_core.specs.LogMaker.Making.{maker_left, maker_faults};
    ghost use Rattle.controller_core.specs.LogMaker.Streams.{stream_text};

    /// The stream of the seed: so many logs of so many events each.
    pub fn new(alloc: Global, seed: u64, logs: u64, events: u64) -> LogMaker
        ensures left { maker_left result ≡ Some (stream_text seed logs events) }
        ensures faults { maker_faults result ≡ 0 }
    {
        LogMaker {
            alloc,
            rest: Rest::new(seed, logs, events),
            message: Vec::new(alloc),
            given: 0,
            faults: 0,
        }
    }

    // Makes the next message where the last one was given.
    fn fill(&mut self) -> Result<(), AllocError>
        ensures same { maker_left self.new ≡ maker_left self.old }
        ensures faults { maker_faults self.new ≡ maker_faults self.old }
        ensures some { OnOk result (drop self.new.given self.new.message.items ≡ [] → maker_left self.new ≡ Some []) }
    {
        if self.given < self.message.len() {
            return Ok(());
        }
        self.rest = self.rest.opened();
        if self.rest.events_left == 0 {
            return Ok(());
        }
        let made = next_message(self.alloc, &self.rest.log)?;
        self.rest = self.rest.behind(made.said);
        self.given = 0;
        self.message = made.text;
        Ok(())
    }
}

impl Source for LogMaker {
    ghost use Rattle.controller_core.specs.LogMaker.Making.{maker_left, maker_faults};

    ghost left = { maker_left };

    ghost faults = { maker_faults };

    fn read(&mut self, buf: &mut [u8]) -> Result<usize, Failed> {
        if self.fill().is_err() {
            self.faults = self.faults.saturating_add(1);
            return Err(Failed);
        }
        let count = give(&self.message[self.given..], buf);
        self.given += count;
        Ok(count)
    }
}

// Copies the first bytes of a message, as many as there is room for.
fn give(left: &[u8], buf: &mut [u8]) -> usize
    requires { 0 < length buf.old }
    ensures bound { result ≤ length buf.new }
    ensures front { left.now ≡ take result buf.new ++ drop result left.now }
    ensures end { result ≡ 0 → left.now ≡ [] }
{
    let count = left.len().min(buf.len());
    buf[..count].copy_from_slice(&left[..count]);
    count
}
