//! Why no message is made of a plan.

use event_body::BodyFault;
use key_state::Misfit;

/// Why no message is made of a plan.
#[derive(Clone, Copy, PartialEq, Eq, Debug)]
pub enum PlanRefusal {
    /// The line of this number, counted from 1, is not of the form.
    Line(u64),
    /// The log is refused, or has no state of the identifier.
    Log,
    /// No body would spell the event.
    Body(BodyFault),
    /// The event doesn't follow the log's state.
    Misfit(Misfit),
    /// The signatures that the plan wants can't be made, or aren't enough.
    Unsigned,
}
