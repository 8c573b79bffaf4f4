//! The state after one more event.
ghost use Rattle.std.specs.Prelude.{◌≡◌, ◌+◌, ◌++◌, ◌∷◌, ◌<◌, ◌^◌, [], length, false, None, Ok, IfOk, IfErr};
ghost use Rattle.key_state.specs.Kept.{IsKept, IsKeptRotation};
ghost use Rattle.key_state.specs.KeyStates as states;
ghost use Rattle.key_state.specs.KeyStates.{IsCauseIn};

use crate::witnesses::changed_list;
use crate::{KeyState, StateFault};
use event_body::{Event, Interaction, Rotation};
use lists::{CopyValue, Items, copy_items};
use std::alloc::{AllocError, Global};

impl KeyState {
    /// The state after one more event, or the first rule that the event breaks.
    #[tactic(auto, unfolding(crate::specs::KeyStates::after))]
    pub fn after(&self, alloc: Global, event: &Event) -> Result<KeyState, StateFault>
        requires { IsKept event.now }
        ensures state { IfOk result (λ state. states.after self.now event.now ≡ Ok state) }
        ensures fault { IfErr result (λ fault. IsCauseIn (states.after self.now event.now) fault) }
    {
        match self.misfit(event) {
            Some(misfit) => Err(StateFault::Misfit(misfit)),
            None => match self.moved(alloc, event) {
                Ok(state) => Ok(state),
                Err(_) => Err(StateFault::OutOfMemory),
            },
        }
    }

    // The state after an event that follows.
    #[tactic(auto, using(crate::proofs::NoMisfit::few_since, crate::proofs::NoMisfit::fits, crate::proofs::NoMisfit::fits_delegated))]
    fn moved(&self, alloc: Global, event: &Event) -> Result<KeyState, AllocError>
        requires kept { IsKept event.now }
        requires follows { states.misfit self.now event.now ≡ None }
        ensures { IfOk result (λ state. state ≡ states.moved self.now event.now) }
    {
        match event {
            Event::Rot(event) | Event::Drt(event) => self.rotated(alloc, event),
            Event::Ixn(event) => self.lengthened(alloc, event),
            Event::Icp(_) | Event::Dip(_) | Event::Rct(_) => self.copy(alloc),
        }
    }

    // The state after a rotation, which takes the place of interactions from its number on.
    #[tactic(auto, using(crate::proofs::WitnessLists::few_changed, crate::proofs::WitnessLists::are_changed))]
    fn rotated(&self, alloc: Global, event: &Rotation) -> Result<KeyState, AllocError>
        requires kept { IsKeptRotation event.now }
        requires fits { states.is_bad_change self.now.list event.now ≡ false }
        ensures { IfOk result (λ state. state ≡ states.rotated self.now event.now) }
    {
        let mut since = Items::new(alloc);
        since.push(event.said)?;
        Ok(KeyState {
            prefix: self.prefix,
            est_sn: event.sn,
            since,
            keys: copy_items(&event.keys, alloc)?,
            kt: event.kt.copy(alloc)?,
            next: copy_items(&event.next, alloc)?,
            nt: event.nt.copy(alloc)?,
            list: changed_list(alloc, self.list.as_slice(), event)?,
            toad: event.toad,
            traits: self.traits.copy(alloc)?,
            delegator: self.delegator,
        })
    }

    // The state after an interaction.
    fn lengthened(&self, alloc: Global, event: &Interaction) -> Result<KeyState, AllocError>
        requires { self.now.est_sn + length self.now.since < 2 ^ 64 }
        ensures { IfOk result (λ state. state ≡ record self.now { since = self.now.since ++ event.now.said ∷ [] }) }
    {
        let mut state = self.copy(alloc)?;
        state.since.push(event.said)?;
        Ok(state)
    }
}
