//! Why a text is no plan.

#[derive(Clone, Copy, PartialEq, Eq, Debug)]
pub enum PlanTextFault {
    /// The number of the first line that isn't of the form of a plan's lines, or that names for the second time what has
    /// one value. Lines are counted from 1. A text of good lines is refused at line 1 where a rotation or an interaction has
    /// no prefix, a delegated inception no delegator, or another event has one. Else it is the first line that promises a
    /// key which the plan has already, before one that allows it.
    Line(u64),
    /// There was no memory for it.
    OutOfMemory,
}
