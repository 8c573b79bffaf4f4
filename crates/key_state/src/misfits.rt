//! Which event may come next.
ghost use Rattle.std.specs.Prelude.{◌≡◌, ◌+◌, ◌-◌, ◌<◌, ◌≤◌, ◌==◌, ◌&&◌, ◌||◌, length, not, nat_le, nat_lt, codes, Some};
ghost use Rattle.event_body.specs.EventBody.Events.{is_interaction};
ghost use Rattle.key_state.specs.Heads.{head_sn};
ghost use Rattle.key_state.specs.KeyStates as states;
ghost use Rattle.key_state.specs.KeyStates.{state_behind};
ghost use Rattle.key_state.specs.Same.{has_text};

use crate::witnesses::is_bad_change;
use crate::{KeyState, Misfit};
use cesr_codes::Digest;
use event_body::Event;

// The trait of identifiers that have no interactions (KERI: configuration traits).
const ESTABLISHMENT_ONLY: &[u8] = b"EO";

impl KeyState {
    /// The first rule by which the event doesn't follow. It takes no memory.
    #[tactic(auto, using(crate::proofs::Behind::state_behind_all))]
    pub fn misfit(&self, event: &Event) -> Option<Misfit>
        ensures { result ≡ states.misfit self.now event.now }
    {
        self.misfit_behind(self.since.len(), event)
    }

    /// The first rule by which the event doesn't follow the state behind an earlier one of the live events: that of number
    /// `place` among them, counted from 1, which is the last establishment event. It takes no memory.
    #[tactic(auto, unfolding(crate::specs::KeyStates::misfit))]
    pub fn misfit_behind(&self, place: usize, event: &Event) -> Option<Misfit>
        requires some { 0 < place }
        requires live { place ≤ length self.now.since }
        ensures { result ≡ states.misfit (state_behind place self.now) event.now }
    {
        if self.is_other_kind(event) {
            return Some(Misfit::Kind);
        }
        if self.has_ended() {
            return Some(Misfit::Ended);
        }
        if self.is_barred(event) {
            return Some(Misfit::EstOnly);
        }
        if self.is_other_sn(place, event) {
            return Some(Misfit::Sn);
        }
        if self.is_other_prior(place, event) {
            return Some(Misfit::Prior);
        }
        if self.is_other_list(event) {
            return Some(Misfit::WitnessChange);
        }
        None
    }

    // Whether it can't follow any event, or is another identifier's, or a rotation that should or shouldn't have a
    // delegator.
    fn is_other_kind(&self, event: &Event) -> bool
        ensures { result ≡ states.is_other_kind self.now event.now }
    {
        event.is_inception()
            || event.is_receipt()
            || event.prefix() != self.prefix
            || self.is_other_rotation(event)
    }

    fn is_other_rotation(&self, event: &Event) -> bool
        ensures { result ≡ states.is_other_rotation self.now event.now }
    {
        match event {
            Event::Rot(_) => self.delegator.is_some(),
            Event::Drt(_) => self.delegator.is_none(),
            Event::Icp(_) | Event::Ixn(_) | Event::Dip(_) | Event::Rct(_) => false,
        }
    }

    // Whether no event may follow.
    fn has_ended(&self) -> bool
        ensures { result ≡ (length self.now.next == 0) }
    {
        self.next.is_empty()
    }

    // Whether it is an interaction, where there may be none.
    fn is_barred(&self, event: &Event) -> bool
        ensures { result ≡ (is_interaction event.now && has_text self.now.traits (codes "EO")) }
    {
        event.is_interaction() && self.is_establishment_only()
    }

    fn is_establishment_only(&self) -> bool
        ensures { result ≡ has_text self.now.traits (codes "EO") }
    {
        self.traits
            .as_slice()
            .iter()
            .any(|text| text.as_slice() == ESTABLISHMENT_ONLY)
    }

    // Whether the number is the head's and one. No number comes after the greatest.
    fn is_next(&self, place: usize, sn: u64) -> bool
        requires some { 0 < place }
        requires live { place ≤ length self.now.since }
        ensures { result ≡ (sn == head_sn (state_behind place self.now) + 1) }
    {
        sn != 0 && sn - 1 == self.sn_at(place)
    }

    // Whether a rotation's number is behind the last establishment event's, and no further than the next.
    fn may_rotate(&self, place: usize, sn: u64) -> bool
        requires some { 0 < place }
        requires live { place ≤ length self.now.since }
        ensures { result ≡ not (nat_le sn self.now.est_sn || nat_lt (head_sn (state_behind place self.now) + 1) sn) }
    {
        sn > self.est_sn && sn - 1 <= self.sn_at(place)
    }

    fn is_other_sn(&self, place: usize, event: &Event) -> bool
        requires some { 0 < place }
        requires live { place ≤ length self.now.since }
        ensures { result ≡ states.is_other_sn (state_behind place self.now) event.now }
    {
        match event {
            Event::Rot(event) => !self.may_rotate(place, event.sn),
            Event::Ixn(event) => !self.is_next(place, event.sn),
            Event::Drt(event) => !self.is_next(place, event.sn),
            Event::Icp(_) | Event::Dip(_) | Event::Rct(_) => false,
        }
    }

    // The digest of the live event of a number, from the last establishment event on.
    fn digest_at(&self, place: usize, sn: u64) -> Option<Digest>
        requires { place ≤ length self.now.since }
        ensures { result ≡ states.digest_at (state_behind place self.now) sn }
    {
        if sn < self.est_sn {
            return None;
        }
        self.since.as_slice()[..place]
            .get((sn - self.est_sn) as usize)
            .copied()
    }

    // Whether it is the digest of the live event before the number.
    fn is_before(&self, place: usize, prior: &Digest, sn: u64) -> bool
        requires { place ≤ length self.now.since }
        ensures { result ≡ states.are_same (Some prior.now) (states.digest_at (state_behind place self.now) (sn - 1)) }
    {
        match self.digest_at(place, sn.saturating_sub(1)) {
            Some(digest) => *prior == digest,
            None => false,
        }
    }

    fn is_other_prior(&self, place: usize, event: &Event) -> bool
        requires { place ≤ length self.now.since }
        ensures { result ≡ states.is_other_prior (state_behind place self.now) event.now }
    {
        match event {
            Event::Rot(event) | Event::Drt(event) => {
                !self.is_before(place, &event.prior, event.sn)
            }
            Event::Ixn(event) => !self.is_before(place, &event.prior, event.sn),
            Event::Icp(_) | Event::Dip(_) | Event::Rct(_) => true,
        }
    }

    fn is_other_list(&self, event: &Event) -> bool
        ensures { result ≡ states.is_other_list self.now event.now }
    {
        match event {
            Event::Rot(event) | Event::Drt(event) => is_bad_change(self.list.as_slice(), event),
            Event::Icp(_) | Event::Ixn(_) | Event::Dip(_) | Event::Rct(_) => false,
        }
    }
}
