//! Texts of sealed events, whatever rules the events keep.
ghost use Rattle.std.specs.Prelude.{◌≡◌, IfOk, IfErr};
ghost use Rattle.event_body.specs.EventBody.Spelling.{text_of};
ghost use Rattle.event_body.specs.EventWriting.Faults.{IsLengthFault};
ghost use Rattle.event_body.specs.EventWriting.Sealed as specs;
ghost use Rattle.event_body.specs.EventWriting.Writable.{IsWritable};

use crate::event_body::{Event, ReadBody};
use crate::event_writing::body::event_text;
use crate::event_writing::in_range::in_range;
use crate::event_writing::sealed_event::{digested_text, with_digest};
use cesr_codes::{Digest, DigestCode};
use said_digest::digest_of;
use std::alloc::Global;

/// An event, and its text.
#[derive(Drop)]
pub struct EventText {
    pub event: Event,
    pub text: Vec<u8>,
}

/// The event with the digest of its own text under this code, and that text, where it has at most 65,535 bytes. No other
/// rule is looked at: where the event breaks one, no body spells it. This takes less time than `sealed` and `write_body`.
pub fn sealed_text(alloc: Global, event: &Event, code: DigestCode) -> Result<EventText, ReadBody>
    requires { IsWritable event.now }
    ensures event { IfOk result (λ made. made.event ≡ specs.sealed_event code event.now) }
    ensures text { IfOk result (λ made. made.text.items ≡ text_of (specs.sealed_event code event.now)) }
    ensures large { IfErr result (λ fault. IsLengthFault (text_of (specs.sealed_event code event.now)) fault) }
{
    in_range(event);
    match digested_text(alloc, event) {
        Ok(text) => text_with(alloc, event, digest_of(code, &text)),
        Err(fault) => Err(fault),
    }
}

// The event with this digest, and its text.
fn text_with(alloc: Global, event: &Event, said: Digest) -> Result<EventText, ReadBody>
    requires { IsWritable event.now }
    ensures event { IfOk result (λ made. made.event ≡ specs.with_digest said event.now) }
    ensures text { IfOk result (λ made. made.text.items ≡ text_of (specs.with_digest said event.now)) }
    ensures large { IfErr result (λ fault. IsLengthFault (text_of (specs.with_digest said event.now)) fault) }
{
    let sealed = with_digest(alloc, event, said)?;
    in_range(&sealed);
    match event_text(alloc, &sealed) {
        Ok(text) => Ok(EventText {
            event: sealed,
            text,
        }),
        Err(fault) => {
            drop(sealed);
            Err(fault)
        }
    }
}
