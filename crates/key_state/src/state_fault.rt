//! Why an event makes no state.

/// The first rule by which an event doesn't follow a state.
#[derive(Clone, Copy, PartialEq, Eq, Debug)]
pub enum Misfit {
    /// Its number isn't one that may come next.
    Sn,
    /// The digest that it names as the prior event's isn't that of the event before its number.
    Prior,
    /// The state commits to no further keys.
    Ended,
    /// It is an interaction, and the identifier has establishment events alone.
    EstOnly,
    /// It is another identifier's, or of a kind that can't come here.
    Kind,
    /// It changes the witnesses in a way that the list doesn't allow.
    WitnessChange,
}

/// Why there is no state after an event.
#[derive(Clone, Copy, PartialEq, Eq, Debug)]
pub enum StateFault {
    /// The event doesn't follow.
    Misfit(Misfit),
    /// There was no memory. The event may be good.
    OutOfMemory,
}
