//! A server that answers a helper's questions by the rehearsal.
ghost use Rattle.std.specs.Prelude.{◌≡◌, length};
ghost use Rattle.verifier_link.specs.Serving.{IsServed, sides_shown};
ghost use Rattle.keri_outside.specs.Shown.{sink_shown, source_shown};

use crate::Served;
use crate::answer::put_answer;
use crate::question_fields::read_question;
use keri_outside::{Failed, Limits, Sink, Source};
use std::alloc::{AllocError, Global};

/// So many bytes a body has at most.
const LONGEST_BODY: usize = 65_535;

/// Answers questions by the rehearsal until the input ends, each before the next one is read. At most so many bytes are
/// read as the limits allow of a stream.
pub fn serve_rehearsal<S: Source, K: Sink>(
    alloc: Global,
    source: &mut S,
    sink: &mut K,
    limits: Limits,
) -> Served
    ensures { IsServed limits.stream_bytes
        (sides_shown (source_shown S.left S.faults source.old) (sink_shown K.written K.faults sink.old))
        (sides_shown (source_shown S.left S.faults source.new) (sink_shown K.written K.faults sink.new)) result }
{
    match vec![in alloc; 0u8; LONGEST_BODY] {
        Ok(mut body) => serve_all(source, sink, limits.stream_bytes, body.as_mut_slice()),
        Err(AllocError) => Served::OutOfMemory,
    }
}

// Answers questions, whose bodies are put into the buffer.
fn serve_all<S: Source, K: Sink>(
    source: &mut S,
    sink: &mut K,
    most: u64,
    buffer: &mut [u8],
) -> Served
    requires { length buffer.old ≡ 65535 }
    ensures { IsServed most (sides_shown (source_shown S.left S.faults source.old)
        (sink_shown K.written K.faults sink.old))
        (sides_shown (source_shown S.left S.faults source.new) (sink_shown K.written K.faults sink.new)) result }
{
    let mut room = most;
    'questions: loop {
        let place = most - room;
        let (wanted, size) = match read_question(source, &mut room, buffer) {
            Ok(found) => found,
            Err(stop) => return stop.served_at(place),
        };
        if let Err(Failed) = put_answer(sink, &wanted, &buffer[..size]) {
            return Served::WriteFault;
        }
    }
}
