//! How much a stream that was made has.
ghost use Rattle.std.specs.Prelude.{Some};
ghost use Rattle.report_lines.specs.Lines.{stream_counts_text};

use std::fmt;

/// The numbers of logs, of events and of rotations in all logs, of bytes, and of the events that are accepted.
#[derive(Clone, Copy, PartialEq, Eq, Debug)]
pub struct StreamCounts {
    pub logs: u64,
    pub events: u64,
    pub rotations: u64,
    pub bytes: u64,
    pub accepted: u64,
}

impl fmt::Display for StreamCounts {
    ghost output = { λ counts. Some (stream_counts_text counts) };

    fn fmt<W: fmt::Write>(&self, f: &mut fmt::Formatter<W>) -> fmt::Result {
        let StreamCounts {
            logs,
            events,
            rotations,
            bytes,
            accepted,
        } = *self;
        write!(
            f,
            "logs={logs} events={events} rotations={rotations} bytes={bytes} accepted={accepted}"
        )
    }
}
