//! Sinks in memory.
ghost use Rattle.std.specs.Prelude.{◌≡◌, [], Some};

use crate::{Failed, Sink};
use lists::Items;
use std::alloc::Global;

/// A sink in memory, which tells all.
#[derive(Drop)]
pub struct MemSink {
    written: Vec<u8>,
    failing: Items<u64>,
    calls: u64,
    faults: u64,
}

impl MemSink {
    ghost use Rattle.keri_outside.specs.Memory.{sink_written, sink_faults, sink_failing};

    /// A sink to which nothing is written yet. Its puts of the numbers in `failing`, counted from 0, fail.
    pub fn new(alloc: Global, failing: Items<u64>) -> MemSink
        ensures written { sink_written result ≡ Some [] }
        ensures faults { sink_faults result ≡ 0 }
        ensures failing { sink_failing result ≡ failing }
    {
        MemSink {
            written: Vec::new(alloc),
            failing,
            calls: 0,
            faults: 0,
        }
    }

    /// What was written.
    pub fn bytes(&self) -> &[u8]
        ensures { sink_written self.now ≡ Some result.now }
    {
        self.written.as_slice()
    }
}

impl Sink for MemSink {
    ghost use Rattle.keri_outside.specs.Memory.{sink_written, sink_faults};

    ghost written = { sink_written };

    ghost faults = { sink_faults };

    fn put(&mut self, bytes: &[u8]) -> Result<(), Failed> {
        let call = self.calls;
        self.calls = self.calls.saturating_add(1);
        let fails = self.failing.as_slice().contains(&call);
        if fails || self.written.extend_from_slice(bytes).is_err() {
            self.faults = self.faults.saturating_add(1);
            return Err(Failed);
        }
        Ok(())
    }
}
