//! Seats for the readers of one core.
ghost use Rattle.std.specs.Prelude.{◌≡◌, ◌<◌, [], ◌∷◌, length, map, vec_len, IfOk};
ghost use Rattle.std.specs.List.{AllByRecursion};
ghost use Rattle.run_status.specs.RunStatus.Readers.{reader_seen};
ghost use Rattle.turn_lock.specs.Locks.{IsPassOf, known};
ghost use Rattle.validator_core.specs.ValidatorCore.View.{IsSoundCore, told_of};
ghost use Rattle.reader_hub.specs.ReaderHub.Closing.{AreAll, ClosesAll};
ghost use Rattle.reader_hub.specs.ReaderHub.Hubs.{head_of};
ghost use Rattle.reader_hub.specs.ReaderThreads.Asked.{EachAsksOnly};
ghost use Rattle.reader_hub.specs.ReaderThreads.Fed.{AllRead};
ghost use Rattle.reader_hub.specs.ReaderThreads.Given.{given_by};
ghost use Rattle.reader_hub.specs.ReaderThreads.Seats.{AreReady, HasSeats, mode_of};
ghost use Rattle.reader_hub.specs.ReaderThreads.Told.{HaveRun};
ghost use Rattle.journal.specs.Journal.Feeds.{reader_of};
ghost use Rattle.journal.specs.Journal.Questions.{IsInStep};

use crate::reader_hub::{Extent, Hub, Pass};
use crate::reader_threads::job::{Job, jobs_for};
use crate::reader_threads::last_round::ask_rest;
use crate::reader_threads::passes::split_off;
use crate::reader_threads::ran::{AllEnds, AllJobs, Ran, Room, reserve, run_all};
use crate::reader_threads::started::Ends;
use crate::reader_threads::{LastRound, Providers};
use keri_outside::{Gate, Limits, Source, Verifier};
use run_status::ReaderEnd;
use std::alloc::{AllocError, Global};
use std::snapshot::Snapshot;
use std::sync::Wait;
use std::thread::Threads;
use validator_core::Core;

/// Readers' seats at a new core: a hub with a pass for each, and room for what they hand back. All memory that readers
/// in threads need before they begin is here, so that it can be had before anything is made of the outside.
#[derive(Drop)]
pub struct ReaderSeats<S: Source, V: Verifier> {
    /// The core as it was given, for contracts alone.
    given: Snapshot<Core>,
    limits: Limits,
    hub: Hub,
    /// The pass of reader 0.
    first: Pass,
    /// Those of the others, in order.
    others: Vec<Pass>,
    jobs: Vec<Job<S, V>>,
    room: Room<S, V>,
}

impl<S: Source + Drop + Send, V: Verifier + Drop + Send> ReaderSeats<S, V> {
    /// Seats for so many readers. It makes nothing of the outside.
    pub fn new(
        alloc: Global,
        core: Core,
        limits: Limits,
        count: u16,
    ) -> Result<ReaderSeats<S, V>, AllocError>
        requires untold { told_of core ≡ [] }
        requires no_base { core.base ≡ 0 }
        requires limits { core.limits ≡ limits }
        requires some { 0 < count }
        ensures { IfOk result (HasSeats core.mode limits count) }
    {
        let further = count - 1;
        let jobs = Vec::with_capacity(alloc, usize::from(further))?;
        let room = reserve(alloc, further)?;
        let given = Snapshot::of(&core);
        let (hub, mut first) = Hub::new(alloc, core, limits.turns)?;
        let others = split_off(alloc, &hub, &mut first, further)?;
        Ok(ReaderSeats {
            given,
            limits,
            hub,
            first,
            others,
            jobs,
            room,
        })
    }

    /// Each reader reads its source and asks its verifier, reader 0 on the main thread once the others were started, each
    /// of these in a thread of its own, or on the main thread where none can be made. Then what is still open is asked of
    /// the verifiers that haven't failed, in the readers' order. It takes no memory but what the readers take. One reader
    /// alone asks each time the first open question, and takes a message once none is open.
    pub fn read<G: Gate + Sync, R: Threads + Wait + Sync>(
        self,
        rt: &R,
        alloc: Global,
        gate: &G,
        providers: Vec<Providers<S, V>>,
    ) -> Ran<S, V>
        requires seats { AreReady (vec_len providers) self }
        ensures count { length result.readers.items ≡ length providers.items }
        // What all of them told, why each ended, and what is open.
        ensures told { HaveRun S.left S.faults V.says V.inquiries V.faults (mode_of self) self.limits providers.items
            result }
    {
        let (mut core, mut readers) = self.run(rt, alloc, gate, providers);
        let rest = ask_rest(&mut core, readers.as_mut_slice());
        core.sound();
        Ran {
            core,
            readers,
            rest,
        }
    }

    // All readers read, and the hub is closed.
    fn run<G: Gate + Sync, R: Threads + Wait + Sync>(
        self,
        rt: &R,
        alloc: Global,
        gate: &G,
        providers: Vec<Providers<S, V>>,
    ) -> (Core, Vec<ReaderEnd<S, V>>)
        requires seats { AreReady (vec_len providers) self }
        ensures mode { result.0.mode ≡ mode_of self }
        ensures limits { result.0.limits ≡ self.limits }
        ensures no_base { result.0.base ≡ 0 }
        ensures sound { IsSoundCore result.0 }
        ensures read { AllRead self.limits (told_of result.0)
            (map (given_by S.left S.faults V.says V.inquiries V.faults) providers.items)
            (map (reader_seen S.left S.faults V.says V.inquiries V.faults) result.1.items) LastRound.NoneFailed }
        ensures only { EachAsksOnly (mode_of self) (told_of result.0)
            (map (given_by S.left S.faults V.says V.inquiries V.faults) providers.items)
            (map (reader_seen S.left S.faults V.says V.inquiries V.faults) result.1.items) }
        ensures alone { vec_len providers ≡ 1 → IsInStep (mode_of self) (told_of result.0) }
    {
        let ReaderSeats {
            given: _,
            limits,
            hub,
            first,
            others,
            jobs,
            room,
        } = self;
        let mut providers = providers;
        let own = Job {
            pass: first,
            extent: extent_beside(others.len()),
            providers: providers.remove(0),
        };
        let others = jobs_for(others, providers, jobs);
        let jobs = AllJobs { own, others };
        let all = run_all(rt, alloc, &hub, gate, limits, jobs, room);
        close(hub, all)
    }
}

// Closes the hub by all its passes: its core, and how the readers ended.
fn close<S, V>(hub: Hub, all: AllEnds<S, V>) -> (Core, Vec<ReaderEnd<S, V>>)
    requires pass { IsPassOf hub.turn all.pass }
    requires others { AllByRecursion (λ p. IsPassOf hub.turn p) all.ends.passes.items }
    requires all { AreAll (known all.pass ∷ map (λ p. known p) all.ends.passes.items) }
    ensures no_base { result.0.base ≡ 0 }
    ensures sound { IsSoundCore result.0 }
    ensures closed { ClosesAll told_of head_of reader_of (known all.pass) (map (λ p. known p) all.ends.passes.items)
        result.0 }
    ensures readers { result.1 ≡ all.ends.readers }
{
    let AllEnds { pass, ends } = all;
    let Ends { passes, readers } = ends;
    let core = hub.close(pass, passes);
    core.sound();
    (core, readers)
}

// Which open questions reader 0 asks between messages, beside so many others.
fn extent_beside(others: usize) -> Extent
    ensures alone { others ≡ 0 → result ≡ Extent.First }
{
    if others == 0 {
        Extent::First
    } else {
        Extent::Free
    }
}
