//! What is noted of messages.
ghost use Rattle.std.specs.Prelude.{◌≡◌, ◌++◌, [], OnOk};
ghost use Rattle.witness_core.specs.WitnessLink.Calls.{refused_as, seen_in};
ghost use Rattle.witness_core.specs.WitnessLink.Noting.{HasPlace};

use crate::witness_receipts::Fate;
use cesr_codes::Digest;
use journal::Refusal;
use std::alloc::{AllocError, Global};

/// The messages that were refused, and the digests of the events that were seen in place of others, in order.
#[derive(Drop)]
pub(crate) struct Notes {
    pub(crate) refused: Vec<Refusal>,
    pub(crate) seen: Vec<Digest>,
}

impl Notes {
    /// None yet. It takes no memory.
    pub(crate) fn new(alloc: Global) -> Notes
        ensures refused { result.refused.items ≡ [] }
        ensures seen { result.seen.items ≡ [] }
    {
        Notes {
            refused: Vec::new(alloc),
            seen: Vec::new(alloc),
        }
    }

    /// Makes place to note what becomes of one message more.
    pub(crate) fn make_place(&mut self) -> Result<(), AllocError>
        ensures place { OnOk result (HasPlace self.new) }
        ensures refused { self.new.refused.items ≡ self.old.refused.items }
        ensures seen { self.new.seen.items ≡ self.old.seen.items }
    {
        self.refused.reserve(1)?;
        self.seen.reserve(1)?;
        Ok(())
    }

    /// Notes what became of the message at a place of the stream. It takes no memory.
    pub(crate) fn note(&mut self, place: u64, fate: Fate)
        requires { HasPlace self.old }
        ensures refused { self.new.refused.items ≡ self.old.refused.items ++ refused_as place fate }
        ensures seen { self.new.seen.items ≡ self.old.seen.items ++ seen_in fate }
    {
        match fate {
            Fate::Refused(reason) => self.refused.push(Refusal { place, reason }).unwrap(),
            Fate::Seen(said) => self.seen.push(said).unwrap(),
            Fate::Stored { .. } => {}
            Fate::Waits(_) => {}
            Fate::NotAnEvent => {}
        }
    }
}
