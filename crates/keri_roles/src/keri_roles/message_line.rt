//! The line of a message.
ghost use Rattle.std.specs.Prelude.{◌≡◌, Some, Ok, Err, IfOk, string_bytes};
ghost use Rattle.event_body.specs.EventBody.Judging.{Judges};
ghost use Rattle.event_body.specs.declared.event_body.body_fault.ReadBody.TheVariants.{Fault};
ghost use Rattle.report_lines.specs.Lines.{refused_text};
ghost use Rattle.keri_roles.specs.KeriRoles.MessageLines.{IsLineOf};

use crate::keri_roles::sizes::sizes_of;
use cesr_stream::Message;
use event_body::{BodyFault, Event, ReadBody, read_body};
use journal::Reason;
use report_lines::{event_line, refused_line};
use std::alloc::{AllocError, Global};

/// The text of a message's line, and why the message is refused where it is.
#[derive(Drop)]
pub(crate) struct MessageLine {
    pub(crate) text: String,
    pub(crate) refusal: Option<Reason>,
}

/// The line of a message.
pub(crate) fn line_of_message(alloc: Global, message: &Message) -> Result<MessageLine, AllocError>
    ensures { IfOk result (λ line. IsLineOf message.now (string_bytes line.text) line.refusal) }
{
    match read_body(alloc, message.body.as_slice()) {
        Ok(event) => line_of_event(alloc, message, &event),
        Err(ReadBody::Fault(fault)) => line_of_fault(alloc, message, fault),
        Err(ReadBody::OutOfMemory) => Err(AllocError),
    }
}

// The line of a message whose body is that of an event.
fn line_of_event(alloc: Global, message: &Message, event: &Event) -> Result<MessageLine, AllocError>
    requires { Judges message.now.body (Ok event.now) }
    ensures { IfOk result (λ line. IsLineOf message.now (string_bytes line.text) line.refusal) }
{
    if message.excess {
        return refuse(alloc, message, Reason::TooManySigs);
    }
    let text = event_line(alloc, event, sizes_of(message))?;
    Ok(MessageLine {
        text,
        refusal: None,
    })
}

// The line of a message whose body is refused.
fn line_of_fault(
    alloc: Global,
    message: &Message,
    fault: BodyFault,
) -> Result<MessageLine, AllocError>
    requires { Judges message.now.body (Err (Fault fault)) }
    ensures { IfOk result (λ line. IsLineOf message.now (string_bytes line.text) line.refusal) }
{
    if message.excess {
        return refuse(alloc, message, Reason::TooManySigs);
    }
    refuse(alloc, message, Reason::Body(fault))
}

// The line of a message that is refused so.
fn refuse(alloc: Global, message: &Message, reason: Reason) -> Result<MessageLine, AllocError>
    ensures { IfOk result (λ line. (string_bytes line.text ≡ refused_text 0 message.now.place reason)
        × (line.refusal ≡ Some reason)) }
{
    Ok(MessageLine {
        text: refused_line(alloc, 0, message.place, reason)?,
        refusal: Some(reason),
    })
}
