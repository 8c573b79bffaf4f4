//! Bodies of events: read, written again and sealed.
ghost use Rattle.std.specs.Prelude.{IfOk};
ghost use Rattle.event_body.specs.EventWriting.Writable.{IsWritable};

use crate::values::code;
use cesr_codes::DigestCode;
use event_body::{Event, ReadBody, read_body, sealed, writable, write_body};
use lists::CopyValue;
use rows::{Row, given};
use std::alloc::{AllocError, Global};

// The event that the text spells, which can be written.
fn writable_event(alloc: Global, text: &[u8]) -> Result<Event, ReadBody>
    ensures { IfOk result IsWritable }
{
    writable();
    read_body(alloc, text)
}

// The event sealed under the code, which can be written.
fn writable_sealed(alloc: Global, event: &Event, code: DigestCode) -> Result<Event, ReadBody>
    requires { IsWritable event.now }
    ensures { IfOk result IsWritable }
{
    writable();
    sealed(alloc, event, code)
}

// The body of a copy of the event. The contract of what it calls is left behind here, since it makes each proof above it longer.
fn body_of(alloc: Global, event: &Event) -> Result<Vec<u8>, ReadBody>
    requires { IsWritable event.now }
{
    let copy = event.copy(alloc)?;
    let body = write_body(alloc, &copy);
    drop(copy);
    body
}

fn refused(alloc: Global, fault: ReadBody) -> Result<String, AllocError> {
    match fault {
        ReadBody::Fault(fault) => format!(in alloc; "{fault:?}"),
        ReadBody::OutOfMemory => Err(AllocError),
    }
}

fn written(alloc: Global, event: Event) -> Result<String, AllocError>
    requires { IsWritable event }
{
    let body = body_of(alloc, &event);
    drop(event);
    match body {
        Ok(text) => String::from_utf8_lossy(alloc, text.as_slice()),
        Err(fault) => refused(alloc, fault),
    }
}

/// `body TEXT`: the body that is written of a copy of the event that the text spells, or the fault.
fn body(alloc: Global, row: &Row) -> Result<String, AllocError> {
    let text = row.bytes(alloc, 1)?;
    match writable_event(alloc, text.as_slice()) {
        Ok(event) => written(alloc, event),
        Err(fault) => refused(alloc, fault),
    }
}

fn written_sealed(alloc: Global, event: Event, code: DigestCode) -> Result<String, AllocError>
    requires { IsWritable event }
{
    let sealed = writable_sealed(alloc, &event, code);
    drop(event);
    match sealed {
        Ok(sealed) => written(alloc, sealed),
        Err(fault) => refused(alloc, fault),
    }
}

/// `seal CODE TEXT`: the body of the event of the text, sealed under the code; or the fault.
fn seal(alloc: Global, row: &Row) -> Result<String, AllocError> {
    let text = row.bytes(alloc, 2)?;
    match writable_event(alloc, text.as_slice()) {
        Ok(event) => written_sealed(alloc, event, code(row.word(1))),
        Err(fault) => refused(alloc, fault),
    }
}

/// The answer of the row, where it is one of these calls.
pub(crate) fn answer(alloc: Global, row: &Row) -> Result<Option<String>, AllocError> {
    match row.word(0) {
        "body" => given(body(alloc, row)),
        "seal" => given(seal(alloc, row)),
        _ => Ok(None),
    }
}
