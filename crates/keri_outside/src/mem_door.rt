//! Doors in memory.
ghost use Rattle.std.specs.Prelude.{◌≡◌, Some, map};

use crate::{Caller, Door, Failed, MemLink, MemSink, MemSource};
use lists::Items;
use std::alloc::Global;

/// A door in memory, which tells all.
#[derive(Drop)]
pub struct MemDoor {
    alloc: Global,
    links: Vec<MemLink>,
    failing: Items<u64>,
    calls: u64,
    faults: u64,
}

impl MemDoor {
    ghost use Rattle.keri_outside.specs.Doors.{door_left, door_faults, door_failing};

    /// A door at which these links come. Its calls of the numbers in `failing`, counted from 0, fail.
    pub fn new(alloc: Global, links: Items<MemLink>, failing: Items<u64>) -> MemDoor
        ensures left { door_left result ≡ Some (map (λ link. link.bytes) links) }
        ensures faults { door_faults result ≡ 0 }
        ensures failing { door_failing result ≡ failing }
    {
        MemDoor {
            alloc,
            links: links.into_vec(),
            failing,
            calls: 0,
            faults: 0,
        }
    }
}

impl Door for MemDoor {
    ghost use Rattle.keri_outside.specs.Doors.{door_left, door_faults};

    type Source = MemSource;

    type Sink = MemSink;

    ghost left = { door_left };

    ghost faults = { door_faults };

    fn next(&mut self) -> Result<Option<Caller<MemSource, MemSink>>, Failed> {
        let call = self.calls;
        self.calls = self.calls.saturating_add(1);
        if self.failing.as_slice().contains(&call) {
            self.faults = self.faults.saturating_add(1);
            return Err(Failed);
        }
        if self.links.is_empty() {
            return Ok(None);
        }
        let link = self.links.remove(0);
        Ok(Some(Caller {
            source: MemSource::new(link.bytes, link.piece, link.failing_reads),
            sink: MemSink::new(self.alloc, link.failing_puts),
        }))
    }
}
