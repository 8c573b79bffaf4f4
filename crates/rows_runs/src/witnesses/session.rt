//! The witness that rows speak of.

use cesr_codes::{Key, KeyCode};
use keri_outside::{Limits, MemSigner, MemVerifier, VerdictRule};
use lists::Items;
use shelf_log::MemDisk;
use std::alloc::Global;
use std::mem;
use witness_core::Witness;

/// What is at hand. It is no `Drop`: a witness is let go by `into_shelf` alone, and never where a function ends, since each such
/// end takes long to prove.
pub(crate) enum Held {
    Nothing,
    Disk(MemDisk),
    Witness(Witness<MemDisk>),
}

impl Held {
    /// The disk, where there is one.
    fn into_disk(self) -> Option<MemDisk> {
        match self {
            Held::Nothing => None,
            Held::Disk(disk) => Some(disk),
            Held::Witness(witness) => Some(witness.into_shelf().into_disk()),
        }
    }
}

/// A witness, or the disk that it left, with what it is given.
pub(crate) struct Session {
    pub(crate) alloc: Global,
    pub(crate) limits: Limits,
    pub(crate) key: Key,
    pub(crate) verifier: MemVerifier,
    pub(crate) signer: MemSigner,
    pub(crate) held: Held,
}

impl Session {
    /// No witness, the limits of the program, the key of bytes 1, and the rehearsal.
    pub(crate) fn new(alloc: Global) -> Session {
        Session {
            alloc,
            limits: Limits::standard(),
            key: Key {
                code: KeyCode::Fixed,
                raw: [1; 32],
            },
            verifier: MemVerifier::new(alloc, VerdictRule::Rehearsal, Items::new(alloc)),
            signer: MemSigner::new(alloc, Items::new(alloc)),
            held: Held::Nothing,
        }
    }

    /// This is at hand from here on, and what was is let go.
    pub(crate) fn hold(&mut self, held: Held) {
        mem::replace(&mut self.held, held).into_disk();
    }

    /// The disk, which is at hand no more.
    pub(crate) fn take_disk(&mut self) -> Option<MemDisk> {
        mem::replace(&mut self.held, Held::Nothing).into_disk()
    }

    /// Lets all go.
    pub(crate) fn end(self) {
        let Session {
            alloc: _alloc,
            limits: _limits,
            key: _key,
            verifier: _verifier,
            signer: _signer,
            held,
        } = self;
        held.into_disk();
    }
}
