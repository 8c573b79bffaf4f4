//! Planned events.

use crate::controller_core::Plan;
use cesr_codes::Prefix;

/// What an author plans: an event, and what it is to say.
#[derive(Drop, PartialEq, Debug)]
pub struct EventPlan {
    pub event: PlannedEvent,
    pub plan: Plan,
}

/// An event that is planned. The plan says whether an inception or a rotation is delegated.
#[derive(Clone, Copy, PartialEq, Eq, Debug)]
pub enum PlannedEvent {
    /// `icp` and `dip`.
    Inception,
    /// `rot` and `drt` of this identifier.
    Rotation(Prefix),
    /// `ixn` of this identifier.
    Interaction(Prefix),
}
