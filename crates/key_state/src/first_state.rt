//! The state after the first event of an identifier.
ghost use Rattle.std.specs.Prelude.{◌≡◌, Ok, IfOk, IfErr};
ghost use Rattle.key_state.specs.Kept.{IsKept, IsKeptInception};
ghost use Rattle.key_state.specs.KeyStates.{begun, IsCauseIn};
ghost use Rattle.key_state.specs.KeyStates as states;

use crate::{KeyState, Misfit, StateFault};
use event_body::{Event, Inception};
use lists::{CopyValue, Items, copy_items};
use std::alloc::{AllocError, Global};

/// The state after an inception.
pub fn first(alloc: Global, event: &Event) -> Result<KeyState, StateFault>
    requires { IsKept event.now }
    ensures state { IfOk result (λ state. states.first event.now ≡ Ok state) }
    ensures fault { IfErr result (λ fault. IsCauseIn (states.first event.now) fault) }
{
    match event {
        Event::Icp(inception) | Event::Dip(inception) => match begin(alloc, inception) {
            Ok(state) => Ok(state),
            Err(_) => Err(StateFault::OutOfMemory),
        },
        Event::Rot(_) | Event::Ixn(_) | Event::Drt(_) | Event::Rct(_) => {
            Err(StateFault::Misfit(Misfit::Kind))
        }
    }
}

// The state that begins with the inception.
fn begin(alloc: Global, event: &Inception) -> Result<KeyState, AllocError>
    requires { IsKeptInception event.now }
    ensures { IfOk result (λ state. state ≡ begun event.now) }
{
    let mut since = Items::new(alloc);
    since.push(event.said)?;
    Ok(KeyState {
        prefix: event.prefix,
        est_sn: 0,
        since,
        keys: copy_items(&event.keys, alloc)?,
        kt: event.kt.copy(alloc)?,
        next: copy_items(&event.next, alloc)?,
        nt: event.nt.copy(alloc)?,
        list: copy_items(&event.list, alloc)?,
        toad: event.toad,
        traits: event.traits.copy(alloc)?,
        delegator: event.delegator,
    })
}
