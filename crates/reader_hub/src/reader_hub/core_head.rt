//! What no call of a hub changes.
use journal::Mode;
use keri_outside::Limits;

/// What no call changes of a core.
pub struct CoreHead {
    pub mode: Mode,
    pub limits: Limits,
}
