//! Sinks over writers.
ghost use Rattle.std.specs.Prelude.{◌≡◌};
ghost use Rattle.lists.specs.KeriSpecs.Shown.{Puts};

use crate::SteadyWrite;
use keri_outside::{Failed, Sink};
use std::io::ErrorKind;

/// A sink over a writer. What is put is handed over at once. It shows what the writer shows.
#[derive(Drop)]
pub struct SinkOver<W> {
    writer: W,
    faults: u64,
}

impl<W> SinkOver<W> {
    ghost use Rattle.edges.specs.Over.{written_by, sink_faults};

    /// A sink that hasn't failed yet.
    pub fn new(writer: W) -> SinkOver<W>
        ensures writer { written_by result ≡ writer }
        ensures none_yet { sink_faults result ≡ 0 }
    {
        SinkOver { writer, faults: 0 }
    }
}

impl<W: SteadyWrite> Sink for SinkOver<W> {
    ghost use Rattle.edges.specs.Over.{written_by, sink_faults};

    ghost written = { λ sink. W.contents (written_by sink) };

    ghost faults = { sink_faults };

    fn put(&mut self, bytes: &[u8]) -> Result<(), Failed> {
        let put = write_out(&mut self.writer, bytes);
        if put.is_err() {
            self.faults = self.faults.saturating_add(1);
        }
        put
    }
}

// Writes all of the bytes, and keeps none back.
fn write_out<W: SteadyWrite>(writer: &mut W, bytes: &[u8]) -> Result<(), Failed>
    ensures { Puts (W.contents writer.old) (W.contents writer.new) result bytes.now }
{
    write_all(writer, bytes)?;
    match writer.flush() {
        Ok(()) => Ok(()),
        Err(_) => Err(Failed),
    }
}

// Writes all of the bytes. A write that a signal interrupted is tried again, and took nothing.
fn write_all<W: SteadyWrite>(writer: &mut W, bytes: &[u8]) -> Result<(), Failed>
    ensures { Puts (W.contents writer.old) (W.contents writer.new) result bytes.now }
{
    let mut done = 0;
    for _ in 0..u64::MAX {
        if done >= bytes.len() {
            return Ok(());
        }
        match writer.write(&bytes[done..]) {
            Ok(0) => break,
            Ok(count) => done += count,
            Err(error) if error.kind() == ErrorKind::Interrupted => {}
            Err(_) => break,
        }
    }
    Err(Failed)
}
