//! Event seals that an event holds.
ghost use Rattle.std.specs.Prelude.{◌≡◌, IfOk};
ghost use Rattle.std.specs.List.{list_any};
ghost use Rattle.event_body.specs.EventBody.Events as events;
ghost use Rattle.event_backing.specs.EventSeals.{holds_seal, is_seal as seal_test};
ghost use Rattle.event_backing.specs.Listing.{AreSealsOf, Is};

use crate::EventSeal;
use crate::seal_texts::seal_texts;
use crate::spellings::{is_digest, is_number, is_prefix, number_of};
use cesr_codes::{Digest, Prefix, of_text};
use event_body::Event;
use json_tree::Tree;
use std::alloc::{AllocError, Global};

/// The event seals among the values of an event, in their order.
pub fn seals(alloc: Global, event: &Event) -> Result<Vec<EventSeal>, AllocError>
    ensures { IfOk result (λ seals. AreSealsOf (events.anchors_of event.now) seals.items) }
{
    let mut seals = Vec::new(alloc);
    for value in event.anchors() {
        if let Some(seal) = seal_in(value) {
            seals.push(seal)?;
        }
    }
    Ok(seals)
}

/// Whether the event holds the event seal of an identifier, a number and a digest. It takes no memory.
pub fn holds_seal_of(event: &Event, prefix: &Prefix, sn: u64, said: &Digest) -> bool
    ensures { result ≡ holds_seal event.now prefix.now sn said.now }
{
    holds(event.anchors(), prefix, sn, said)
}

// Whether one of the values is the event seal of these.
fn holds(values: &[Tree], prefix: &Prefix, sn: u64, said: &Digest) -> bool
    ensures { result ≡ list_any (seal_test prefix.now sn said.now) values.now }
{
    values.iter().any(|value| is_seal(value, prefix, sn, said))
}

/// The event seal that the value is.
pub(crate) fn seal_in(value: &Tree) -> Option<EventSeal>
    ensures { Is value.now result }
{
    let texts = seal_texts(value)?;
    let prefix = of_text::<Prefix>(texts.prefix)?;
    let sn = number_of(texts.sn)?;
    let said = of_text::<Digest>(texts.said)?;
    Some(EventSeal { prefix, sn, said })
}

/// Whether the value is the event seal of these.
pub(crate) fn is_seal(value: &Tree, prefix: &Prefix, sn: u64, said: &Digest) -> bool
    ensures { result ≡ seal_test prefix.now sn said.now value.now }
{
    match seal_texts(value) {
        Some(texts) => {
            is_prefix(texts.prefix, prefix)
                && is_number(texts.sn, sn)
                && is_digest(texts.said, said)
        }
        None => false,
    }
}
