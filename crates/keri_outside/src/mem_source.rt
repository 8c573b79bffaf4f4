//! Sources in memory.
ghost use Rattle.std.specs.Prelude.{◌≡◌, ◌≤◌, ◌<◌, ◌++◌, [], length, take, drop, Some};

use crate::{Failed, Source};
use lists::Items;

/// A source over bytes in memory, which tells all.
#[derive(Drop)]
pub struct MemSource {
    bytes: Items<u8>,
    place: usize,
    piece: usize,
    failing: Items<u64>,
    calls: u64,
    faults: u64,
    ghost in_bytes: { place ≤ length bytes },
    ghost gives_some: { 0 < piece },
}

impl MemSource {
    ghost use Rattle.keri_outside.specs.Memory.{source_left, source_faults, source_failing};

    /// A source of these bytes, which gives at most `piece` bytes a read. Its reads of the numbers in `failing`,
    /// counted from 0, fail.
    pub fn new(bytes: Items<u8>, piece: usize, failing: Items<u64>) -> MemSource
        requires { 0 < piece }
        ensures left { source_left result ≡ Some bytes }
        ensures faults { source_faults result ≡ 0 }
        ensures failing { source_failing result ≡ failing }
    {
        MemSource {
            bytes,
            place: 0,
            piece,
            failing,
            calls: 0,
            faults: 0,
        }
    }
}

impl Source for MemSource {
    ghost use Rattle.keri_outside.specs.Memory.{source_left, source_faults};

    ghost left = { source_left };

    ghost faults = { source_faults };

    fn read(&mut self, buf: &mut [u8]) -> Result<usize, Failed> {
        let call = self.calls;
        self.calls = self.calls.saturating_add(1);
        if self.failing.as_slice().contains(&call) {
            self.faults = self.faults.saturating_add(1);
            return Err(Failed);
        }
        let count = give(&self.bytes.as_slice()[self.place..], buf, self.piece);
        self.place += count;
        Ok(count)
    }
}

// Copies the first bytes that are left, as many as there is room for, and at most a piece.
fn give(left: &[u8], buf: &mut [u8], piece: usize) -> usize
    requires room { 0 < length buf.old }
    requires some { 0 < piece }
    ensures bound { result ≤ length buf.new }
    ensures front { left.now ≡ take result buf.new ++ drop result left.now }
    ensures end { result ≡ 0 → left.now ≡ [] }
{
    let count = left.len().min(buf.len()).min(piece);
    buf[..count].copy_from_slice(&left[..count]);
    count
}
