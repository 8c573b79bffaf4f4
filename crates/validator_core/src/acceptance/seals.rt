//! Whether a delegated event is sealed by a delegator that allows it.
ghost use Rattle.std.specs.Prelude.{◌≡◌, ◌||◌, codes};
ghost use Rattle.std.specs.Option.{option_copied};
ghost use Rattle.validator_core.specs.Acceptance.Standing.{AreSoundTables};
ghost use Rattle.validator_core.specs.Tables.View.{log_of};
ghost use Rattle.journal.specs.Journal.Readiness as readiness;
ghost use Rattle.journal.specs.Journal.Seals as seals;
ghost use Rattle.journal.specs.Journal.Waiting as waiting;
ghost use Rattle.key_state.specs.Same.{has_text};

use crate::acceptance::current::current;
use crate::tables::Tables;
use cesr_codes::Prefix;
use event_body::Event;
use journal::{Mode, delegator_of};
use json_tree::Text;
use key_state::KeyState;

// The trait of identifiers that delegate to none (KERI: configuration traits).
const NO_DELEGATION: &[u8] = b"DND";

/// Whether the seal of the event is there, where it is waited for.
pub(crate) fn is_seal_there(
    tables: &Tables,
    mode: Mode,
    state: Option<&KeyState>,
    event: &Event,
) -> bool
    requires { AreSoundTables tables.now }
    ensures { result ≡ (readiness.is_local mode
        || seals.anchored (log_of tables.now) (option_copied state.entry) event.now) }
{
    is_local(mode) || is_anchored(tables, state, event)
}

/// Whether neither receipts nor seals are waited for.
pub(crate) fn is_local(mode: Mode) -> bool
    ensures { result ≡ readiness.is_local mode }
{
    mode == Mode::Local
}

/// Whether the event wants no seal, or its delegator has sealed it and allows it.
pub(crate) fn is_anchored(tables: &Tables, state: Option<&KeyState>, event: &Event) -> bool
    requires { AreSoundTables tables.now }
    ensures { result ≡ seals.anchored (log_of tables.now) (option_copied state.entry) event.now }
{
    if !event.is_delegated() {
        return true;
    }
    match delegator_of(state, event) {
        Some(delegator) => { tables.is_sealed(&delegator, event) && !forbids(tables, &delegator) }
        None => false,
    }
}

/// Whether the delegator of the event forbids delegation, where there is one.
pub(crate) fn is_forbidden(tables: &Tables, state: Option<&KeyState>, event: &Event) -> bool
    requires { AreSoundTables tables.now }
    ensures { result ≡ waiting.is_forbidden (log_of tables.now)
        (seals.delegator_of (option_copied state.entry) event.now) }
{
    match delegator_of(state, event) {
        Some(delegator) => forbids(tables, &delegator),
        None => false,
    }
}

// Whether the inception of the identifier, where it is accepted, forbids delegation. Its traits stay in the state.
fn forbids(tables: &Tables, prefix: &Prefix) -> bool
    requires { AreSoundTables tables.now }
    ensures { result ≡ seals.forbids (log_of tables.now) prefix.now }
{
    match current(tables, prefix) {
        Some(state) => has_no_delegation(state.traits.as_slice()),
        None => false,
    }
}

// Whether the trait is among these.
fn has_no_delegation(traits: &[Text]) -> bool
    ensures { result ≡ has_text traits.now (codes "DND") }
{
    traits.iter().any(|text| text.as_slice() == NO_DELEGATION)
}
