//! Room for one more event.
ghost use Rattle.std.specs.Prelude.{◌≡◌, Some};
ghost use Rattle.std.specs.Option.{ForSome};

use cesr_codes::Digest;

/// What the event for which there is room names: the event before it, and itself.
#[derive(Clone, Copy, PartialEq, Eq, Debug)]
pub struct Room {
    pub prior: Option<Digest>,
    pub said: Digest,
}

impl Room {
    /// The prior for which there is room, if there is one.
    pub(crate) fn prior_of(room: Option<Room>) -> Option<Digest>
        ensures { ForSome room (λ r. result ≡ r.prior) }
    {
        room?.prior
    }

    /// The digest for which there is room, if there is one.
    pub(crate) fn said_of(room: Option<Room>) -> Option<Digest>
        ensures { ForSome room (λ r. result ≡ Some r.said) }
    {
        Some(room?.said)
    }
}
