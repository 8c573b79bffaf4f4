//! Plans behind a head of the greatest number.
ghost use Rattle.event_body.specs.EventWriting.Writable.{IsWritable};
ghost use Rattle.std.specs.Prelude.{◌≡◌};
ghost use Rattle.controller_core.specs.ControllerCore.LastNumbers as specs;
ghost use Rattle.controller_core.specs.ControllerCore.LastNumbers.{IsLastRefusal};
ghost use Rattle.controller_core.specs.ControllerCore.Messages.{event_text};
ghost use Rattle.controller_core.specs.ControllerCore.Plans.{sealed};

use crate::controller_core::PlanFault;
use cesr_codes::DigestCode;
use event_body::{BodyFault, Event, EventText, ReadBody, read_body, sealed_text};
use std::alloc::Global;

// With one digit more, so many bytes are too many.
const TOO_MANY: usize = 65_535;

/// Why no message is made of an event behind a head of the greatest number, when the event has that number in the place of
/// the next one.
#[tactic(auto, unfolding(crate::specs::ControllerCore::Plans::sealed, crate::specs::ControllerCore::Messages::event_text))]
pub(crate) fn last_fault(alloc: Global, event: &Event, code: DigestCode) -> PlanFault
    requires { IsWritable event.now }
    ensures { IsLastRefusal (event_text (sealed code event.now)) result }
{
    match sealed_text(alloc, event, code) {
        Ok(EventText { event, text }) => {
            drop(event);
            text_fault(alloc, &text)
        }
        Err(ReadBody::Fault(_)) => PlanFault::Body(BodyFault::TooLarge),
        Err(ReadBody::OutOfMemory) => PlanFault::OutOfMemory,
    }
}

// The same, by the event's text.
fn text_fault(alloc: Global, text: &[u8]) -> PlanFault
    ensures { IsLastRefusal text.now result }
{
    if text.len() >= TOO_MANY {
        return PlanFault::Body(BodyFault::TooLarge);
    }
    match read_body(alloc, text) {
        Err(ReadBody::OutOfMemory) => PlanFault::OutOfMemory,
        Err(ReadBody::Fault(fault)) => PlanFault::Body(with_number(fault)),
        Ok(event) => {
            drop(event);
            PlanFault::Body(BodyFault::NumberTooLarge)
        }
    }
}

// The first fault of a text of so few bytes once its number is too large, by the first one that it has before.
fn with_number(fault: BodyFault) -> BodyFault
    ensures { result ≡ specs.with_number fault }
{
    match fault {
        BodyFault::SizeField | BodyFault::Field(_) | BodyFault::TooMany => fault,
        _ => BodyFault::NumberTooLarge,
    }
}
