//! One reader alone at a new core.
ghost use Rattle.std.specs.Prelude.{IfOk};
ghost use Rattle.keri_roles.specs.CoreRoles.OneSeats.{IsOneSeat, IsReady, ReadsAlone};

use crate::core_roles::ReaderEnd;
use journal::Mode;
use keri_outside::{Gate, Limits, Source, Verifier};
use reader_hub::{LastRound, Providers, Ran, ReaderSeats};
use std::alloc::{AllocError, Global};
use std::sync::Wait;
use std::thread::Threads;
use validator_core::Core;

/// A seat for the one reader of a core, and room for what it is given.
#[derive(Drop)]
pub struct OneSeat<S: Source, V: Verifier> {
    seats: ReaderSeats<S, V>,
    room: Vec<Providers<S, V>>,
}

/// The core that the reader told, how it ended, and what became of the last round.
#[derive(Drop)]
pub struct ReadAlone<S, V> {
    pub core: Core,
    pub reader: ReaderEnd<S, V>,
    pub rest: LastRound,
}

impl<S: Source + Drop + Send, V: Verifier + Drop + Send> OneSeat<S, V> {
    /// A seat at a core of this mode that is told nothing yet.
    pub fn new(alloc: Global, mode: Mode, limits: Limits) -> Result<OneSeat<S, V>, AllocError>
        ensures { IfOk result (IsOneSeat mode limits) }
    {
        let core = Core::new(alloc, mode, limits);
        let seats = ReaderSeats::new(alloc, core, limits, 1)?;
        let room = Vec::with_capacity(alloc, 1)?;
        Ok(OneSeat { seats, room })
    }

    /// Reads what the reader is given.
    pub fn read<G: Gate + Sync, R: Threads + Wait + Sync>(
        self,
        rt: &R,
        alloc: Global,
        gate: &G,
        providers: Providers<S, V>,
    ) -> ReadAlone<S, V>
        requires seat { IsReady self }
        ensures { ReadsAlone S.left S.faults V.says V.inquiries V.faults self providers result }
    {
        let OneSeat { seats, mut room } = self;
        room.push(providers).unwrap();
        let Ran {
            core,
            mut readers,
            rest,
        } = seats.read(rt, alloc, gate, room);
        let reader = readers.remove(0);
        ReadAlone { core, reader, rest }
    }
}
