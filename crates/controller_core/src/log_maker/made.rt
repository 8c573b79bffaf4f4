//! Texts that are made of events.
ghost use Rattle.std.specs.Prelude.{◌≡◌, ◌≤◌, IfOk, length};
ghost use Rattle.event_body.specs.EventBody.Events.{said_of};
ghost use Rattle.event_body.specs.EventWriting.Writable.{IsWritable};
ghost use Rattle.controller_core.specs.LogMaker.Plans.{event_text, sealed};

use cesr_codes::{Digest, DigestCode};
use event_body::{Event, EventText, ReadBody, sealed_text};
use std::alloc::{AllocError, Global};

/// What was made of an event, its body or its whole message, and the event's digest.
#[derive(Drop)]
pub(crate) struct Made {
    pub(crate) said: Digest,
    pub(crate) text: Vec<u8>,
}

/// The body of the event with the digest of its own text.
#[tactic(auto, unfolding(crate::specs::LogMaker::Plans::event_text, crate::specs::LogMaker::Plans::sealed))]
pub(crate) fn sealed_body(alloc: Global, plan: &Event) -> Result<Made, AllocError>
    requires writable { IsWritable plan.now }
    requires short { length (event_text (sealed plan.now)) ≤ 65535 }
    ensures said { IfOk result (λ body. body.said ≡ said_of (sealed plan.now)) }
    ensures text { IfOk result (λ body. body.text.items ≡ event_text (sealed plan.now)) }
{
    match sealed_text(alloc, plan, DigestCode::Blake3) {
        Ok(EventText { event, text }) => {
            let said = event.said();
            drop(event);
            Ok(Made { said, text })
        }
        Err(ReadBody::OutOfMemory) => Err(AllocError),
        Err(ReadBody::Fault(_)) => unreachable!(),
    }
}
