//! Seats for the readers of one core, of which there may be none.
ghost use Rattle.std.specs.Prelude.{◌≡◌, [], ℕ, length, vec_len, IfOk};
ghost use Rattle.validator_core.specs.ValidatorCore.View.{told_of};
ghost use Rattle.reader_hub.specs.ReaderThreads.AnySeats.{AreAnyReady, HaveSeats};
ghost use Rattle.reader_hub.specs.ReaderThreads.Told.{AllTold, HaveRun};
ghost use Rattle.journal.specs.declared.journal.mode.Mode.{Mode as ModeValue};
ghost use Rattle.keri_outside.specs.declared.limits.Limits.{Limits as LimitsValue};

use crate::reader_threads::{LastRound, Providers, Ran, ReaderSeats};
use keri_outside::{Gate, Limits, Source, Verifier};
use std::alloc::{AllocError, Global};
use std::sync::Wait;
use std::thread::Threads;
use validator_core::Core;

/// Seats at a new core, or the core alone, where it has no reader.
#[derive(Drop)]
pub enum AnySeats<S: Source, V: Verifier> {
    Nobody(Core),
    Readers(ReaderSeats<S, V>),
}

impl<S: Source + Drop + Send, V: Verifier + Drop + Send> AnySeats<S, V> {
    /// Seats for so many readers. It makes nothing of the outside.
    pub fn new(
        alloc: Global,
        core: Core,
        limits: Limits,
        count: u16,
    ) -> Result<AnySeats<S, V>, AllocError>
        requires untold { told_of core ≡ [] }
        requires no_base { core.base ≡ 0 }
        requires limits { core.limits ≡ limits }
        ensures { IfOk result (HaveSeats core.mode limits count) }
    {
        if count == 0 {
            return Ok(AnySeats::Nobody(core));
        }
        let seats = ReaderSeats::new(alloc, core, limits, count)?;
        Ok(AnySeats::Readers(seats))
    }

    /// Each reader reads as of seats that are some. A core without readers is told nothing, and no question is open.
    pub fn read<G: Gate + Sync, R: Threads + Wait + Sync>(
        self,
        rt: &R,
        alloc: Global,
        gate: &G,
        providers: Vec<Providers<S, V>>,
    ) -> Ran<S, V>
        requires seats { AreAnyReady (vec_len providers) self }
        ensures count { length result.readers.items ≡ length providers.items }
        ensures told { (mode : ModeValue) (limits : LimitsValue) → HaveSeats mode limits (length providers.items) self
            → HaveRun S.left S.faults V.says V.inquiries V.faults mode limits providers.items result }
    {
        match self {
            AnySeats::Nobody(core) => read_none(alloc, core),
            AnySeats::Readers(seats) => seats.read(rt, alloc, gate, providers),
        }
    }
}

// What a new core comes to where there is no reader.
fn read_none<S, V>(alloc: Global, core: Core) -> Ran<S, V>
    requires untold { told_of core ≡ [] }
    requires no_base { core.base ≡ 0 }
    ensures none { result.readers.items ≡ [] }
    ensures told { AllTold core.mode core.limits [] [] result.rest result.core }
{
    let _journal = core.journal();
    Ran {
        core,
        readers: Vec::new(alloc),
        rest: LastRound::NoneFailed,
    }
}
