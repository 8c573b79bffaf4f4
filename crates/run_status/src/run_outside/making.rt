//! What was made of the outside.

use lists::Items;

/// What a call of the outside makes.
#[derive(Clone, Copy, PartialEq, Eq, Debug)]
pub enum MakingKind {
    Source,
    Verifier,
    Signer,
    /// The disk of a shelf, whose file may be made and written.
    Disk,
    /// The disk of an old shelf, whose file is there and is only read.
    OldDisk,
    Door,
}

/// A making: what, under which name, and whether it failed.
#[derive(Drop, PartialEq, Eq, Debug)]
pub struct Making {
    pub kind: MakingKind,
    pub name: Items<u8>,
    pub failed: bool,
}
