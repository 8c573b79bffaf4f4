//! A log, as far as it is made.
ghost use Rattle.std.specs.Prelude.{◌≡◌};
ghost use Rattle.controller_core.specs.LogMaker.Behind.{first_before, prior_before};

use crate::log_maker::draw::Draw;
use crate::log_maker::plans::{BLANK, inception, interaction, rotation};
use cesr_codes::Digest;
use event_body::Event;
use std::alloc::{AllocError, Global};

/// A log behind its first events.
#[derive(Clone, Copy)]
pub(crate) struct Log {
    /// The next event.
    pub(crate) next: Draw,
    /// The digest of the first event, once there is one.
    first: Digest,
    /// The digest of the last event.
    prior: Digest,
    ghost first_is: { first ≡ first_before next.seed next.log next.sn },
    ghost prior_is: { prior ≡ prior_before next.seed next.log next.sn },
}

impl Log {
    ghost use Rattle.std.specs.Prelude.{◌+◌, ◌<◌, ◌^◌, IfOk};
    ghost use Rattle.event_body.specs.EventBody.Events.{said_of};
    ghost use Rattle.event_body.specs.EventWriting.Writable.{IsWritable};
    ghost use Rattle.controller_core.specs.LogMaker.Plans.{event_at, sealed};

    /// The log of this number, of which nothing is made.
    #[tactic(auto, unfolding(crate::specs::LogMaker::Behind::first_before, crate::specs::LogMaker::Behind::prior_before))]
    pub(crate) fn new(seed: u64, log: u64) -> Log
        ensures of { (result.next.seed ≡ seed) × (result.next.log ≡ log) }
        ensures none { result.next.sn ≡ 0 }
    {
        Log {
            next: Draw::first(seed, log),
            first: BLANK,
            prior: BLANK,
        }
    }

    /// The next event, before it has its digest.
    pub(crate) fn plan(&self, alloc: Global) -> Result<Event, AllocError>
        requires { self.now.next.sn + 1 < 2 ^ 64 }
        ensures event { IfOk result (λ plan. sealed plan
            ≡ event_at self.now.next.seed self.now.next.log self.now.next.sn) }
        ensures writable { IfOk result IsWritable }
    {
        let next = self.next;
        if next.sn == 0 {
            return inception(alloc, next.seed, next.log);
        }
        if !next.is_rotation() {
            return Ok(interaction(alloc, next.sn, self.first, self.prior));
        }
        let number = next.key_number();
        rotation(
            alloc, next.seed, next.log, number, next.sn, self.first, self.prior,
        )
    }

    /// The log behind the next event, which has this digest.
    pub(crate) fn behind(&self, said: Digest) -> Log
        requires room { self.now.next.sn + 1 < 2 ^ 64 }
        requires said { said ≡ said_of (event_at self.now.next.seed self.now.next.log self.now.next.sn) }
        ensures of { (result.next.seed ≡ self.now.next.seed) × (result.next.log ≡ self.now.next.log) }
        ensures sn { result.next.sn ≡ self.now.next.sn + 1 }
    {
        Log {
            next: self.next.next(),
            first: self.first_with(said),
            prior: said,
        }
    }

    // The digest of the first event, where the next one has this digest.
    fn first_with(&self, said: Digest) -> Digest
        requires { said ≡ said_of (event_at self.now.next.seed self.now.next.log self.now.next.sn) }
        ensures { result ≡ first_before self.now.next.seed self.now.next.log (self.now.next.sn + 1) }
    {
        if self.next.sn == 0 { said } else { self.first }
    }
}
