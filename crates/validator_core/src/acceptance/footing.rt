//! What an event stands on.
ghost use Rattle.std.specs.Prelude.{◌≡◌, ◌≤◌, ◌<◌, ◌-◌, ℕ, List, false, is_none, length, IfNone, IfSome};
ghost use Rattle.event_body.specs.EventBody.Events as events;
ghost use Rattle.key_state.specs.KeyStates.{misfit, state_behind};
ghost use Rattle.journal.specs.Journal.Grown.{IsGrown};
ghost use Rattle.journal.specs.Journal.Logs.{stands};
ghost use Rattle.validator_core.specs.Tables.AcceptedLog.Cuts.{IsLog};
ghost use Rattle.validator_core.specs.Acceptance.Footing.{IsFooting};
ghost use Rattle.validator_core.specs.Tables.View.{body_of, log_of};

use crate::tables::Tables;
use event_body::Event;
use key_state::KeyState;

/// What an event stands on in the log of accepted events.
#[derive(Clone, Copy, PartialEq, Eq, Debug)]
pub enum Footing {
    /// On nothing: it is an inception.
    Inception,
    /// On the key state at this place of the log, behind one of its live events.
    Behind(u32),
}

/// What an event stands on, and none where it doesn't stand: its predecessor isn't accepted, or the event doesn't follow the
/// state just behind that. It takes no memory.
pub fn footing_of(tables: &Tables, event: &Event) -> Option<Footing>
    requires log { IsLog (log_of tables.now) tables.now.log }
    requires grown { IsGrown (log_of tables.now) }
    ensures none { (bytes : List ℕ) → IfNone result (stands (log_of tables.now) (body_of bytes event.now) ≡ false) }
    ensures some { (bytes : List ℕ) → IfSome result
        (λ on. IsFooting (log_of tables.now) tables.now.log (body_of bytes event.now) on) }
{
    if event.is_inception() {
        return Some(Footing::Inception);
    }
    let before = tables.predecessor(event)?;
    let place = tables.log().place(before as usize)?;
    let state = tables.log().state(place.state)?;
    if follows(state, event) {
        Some(Footing::Behind(place.state))
    } else {
        None
    }
}

// Whether the event follows the state behind the live event right before its number.
fn follows(state: &KeyState, event: &Event) -> bool
    requires above { state.now.est_sn ≤ events.sn_of event.now }
    requires some { 0 < events.sn_of event.now - state.now.est_sn }
    requires live { events.sn_of event.now - state.now.est_sn ≤ length state.now.since }
    ensures { result ≡ is_none (misfit (state_behind (events.sn_of event.now - state.now.est_sn) state.now) event.now) }
{
    let live = (event.sn() - state.est_sn) as usize;
    state.misfit_behind(live, event).is_none()
}
