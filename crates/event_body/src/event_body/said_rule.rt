//! The rule of digests.
ghost use Rattle.std.specs.Prelude.{◌≡◌, ◌↔◌, IsTrue};
ghost use Rattle.event_body.specs.EventBody.Events.{places_of};
ghost use Rattle.event_body.specs.EventBody.Judging.{HasEvent};
ghost use Rattle.event_body.specs.EventBody.Rules.{HasSaid};

use crate::event_body::Event;
use said_digest::holds;

/// Where the digest stands in a body of any kind.
const DIGEST_PLACE: u32 = 40;

/// Where the prefix stands.
const PREFIX_PLACE: u32 = 91;

// Where placeholders stand when the digest is computed.
fn places(event: &Event) -> &'static [u32]
    ensures { result.now ≡ places_of event.now }
{
    if event.hides_prefix() {
        &[DIGEST_PLACE, PREFIX_PLACE]
    } else {
        &[DIGEST_PLACE]
    }
}

/// Whether the event keeps the rule of digests in its body.
pub(crate) fn has_said(event: &Event, bytes: &[u8]) -> bool
    requires { HasEvent event.now bytes.now }
    ensures { IsTrue result ↔ HasSaid event.now }
{
    if event.is_receipt() {
        return true;
    }
    holds(bytes, places(event), &event.said())
}
