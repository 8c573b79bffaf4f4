//! Why no primitive is read.

/// The first rule that the characters at the front fail, in the order of the variants but for `Short`: it comes
/// first where they are none or end within a code, and behind `CodeNotHeld` where they end within the primitive.
#[derive(Clone, Copy, PartialEq, Eq, Debug)]
pub enum CodeFault {
    /// There are fewer characters than the primitive has.
    Short,
    /// The characters begin with no code of the type.
    CodeNotHeld,
    /// The character at this place, counted from the code, isn't one of the 64, or breaks the shape of a date-time.
    BadCharacter(u16),
    /// A bit before the raw bytes isn't zero.
    PadBits,
    /// The other index of a signature without one isn't `AA`.
    OtherIndex,
}
