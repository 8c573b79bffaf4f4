//! Sources over readers.
ghost use Rattle.std.specs.Prelude.{◌<◌, length};
ghost use Rattle.lists.specs.KeriSpecs.Shown.{Reads};

use crate::SteadyRead;
use keri_outside::{Failed, Source};
use std::io::ErrorKind;

/// A read that a signal interrupted is tried again, up to so many times in all, before it counts as a fault.
const ATTEMPTS: usize = 1_000;

/// A source over a reader. It shows what the reader shows.
#[derive(Drop)]
pub struct SourceOver<R> {
    reader: R,
    faults: u64,
}

impl<R> SourceOver<R> {
    ghost use Rattle.std.specs.Prelude.{◌≡◌};
    ghost use Rattle.edges.specs.Over.{read_by, source_faults};

    /// A source that hasn't failed yet.
    pub fn new(reader: R) -> SourceOver<R>
        ensures reader { read_by result ≡ reader }
        ensures none_yet { source_faults result ≡ 0 }
    {
        SourceOver { reader, faults: 0 }
    }
}

impl<R: SteadyRead> Source for SourceOver<R> {
    ghost use Rattle.edges.specs.Over.{read_by, source_faults};

    ghost left = { λ source. R.remaining (read_by source) };

    ghost faults = { source_faults };

    fn read(&mut self, buf: &mut [u8]) -> Result<usize, Failed> {
        let read = read_from(&mut self.reader, buf);
        if read.is_err() {
            self.faults = self.faults.saturating_add(1);
        }
        read
    }
}

// Reads a piece to the front of the buffer, and says how long it is. A read that is tried again took nothing.
fn read_from<R: SteadyRead>(reader: &mut R, buf: &mut [u8]) -> Result<usize, Failed>
    requires room { 0 < length buf.old }
    ensures bytes { Reads (R.remaining reader.old) (R.remaining reader.new) result buf.new }
{
    for _ in 0..ATTEMPTS {
        match reader.read(buf) {
            Ok(count) => return Ok(count),
            Err(error) if error.kind() == ErrorKind::Interrupted => {}
            Err(_) => break,
        }
    }
    Err(Failed)
}
