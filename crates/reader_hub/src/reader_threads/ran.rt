//! All readers over one core.
ghost use Rattle.std.specs.Prelude.{◌+◌, vec_len, IfOk};
ghost use Rattle.std.specs.List.{AllByRecursion};
ghost use Rattle.turn_lock.specs.Locks.{limit_of};
ghost use Rattle.reader_hub.specs.ReaderThreads.Jobs.{IsFit};
ghost use Rattle.reader_hub.specs.ReaderThreads.Rooms.{IsFree};
ghost use Rattle.reader_hub.specs.ReaderThreads.Starts.{RunsAll};

use crate::reader_hub::{Hub, Pass};
use crate::reader_threads::LastRound;
use crate::reader_threads::job::{Job, JobEnd, run_job};
use crate::reader_threads::started::{Ends, Started, Starting, end_all, start};
use keri_outside::{Gate, Limits, Source, Verifier};
use run_status::ReaderEnd;
use std::alloc::{AllocError, Global};
use std::sync::Wait;
use std::thread;
use std::thread::Threads;
use validator_core::Core;

/// The core that was told what the readers read, how these ended, in order, and what became of the last round.
#[derive(Drop)]
pub struct Ran<S, V> {
    pub core: Core,
    pub readers: Vec<ReaderEnd<S, V>>,
    pub rest: LastRound,
}

/// The job of reader 0, and those of the others, in order.
#[derive(Drop)]
pub(crate) struct AllJobs<S, V> {
    pub(crate) own: Job<S, V>,
    pub(crate) others: Vec<Job<S, V>>,
}

/// What is reserved before the first reader is started.
#[derive(Drop)]
pub(crate) struct Room<S: Source, V: Verifier> {
    pub(crate) started: Vec<Started<S, V>>,
    pub(crate) ended: Ends<S, V>,
}

/// The pass of reader 0 once all have ended, and what the others leave.
#[derive(Drop)]
pub(crate) struct AllEnds<S, V> {
    pub(crate) pass: Pass,
    pub(crate) ends: Ends<S, V>,
}

/// Room for so many readers besides reader 0.
pub(crate) fn reserve<S: Source + Drop, V: Verifier + Drop>(
    alloc: Global,
    others: u16,
) -> Result<Room<S, V>, AllocError>
    ensures started { IfOk result (λ room. IsFree others room.started) }
    ensures passes { IfOk result (λ room. IsFree others room.ended.passes) }
    ensures readers { IfOk result (λ room. IsFree (others + 1) room.ended.readers) }
{
    let others = usize::from(others);
    let started = Vec::with_capacity(alloc, others)?;
    let passes = Vec::with_capacity(alloc, others)?;
    let readers = Vec::with_capacity(alloc, others + 1)?;
    let ended = Ends { passes, readers };
    Ok(Room { started, ended })
}

/// Runs all readers: reader 0 here, once the others were started.
pub(crate) fn run_all<
    S: Source + Drop + Send,
    V: Verifier + Drop + Send,
    G: Gate + Sync,
    R: Threads + Wait + Sync,
>(
    rt: &R,
    alloc: Global,
    hub: &Hub,
    gate: &G,
    limits: Limits,
    jobs: AllJobs<S, V>,
    room: Room<S, V>,
) -> AllEnds<S, V>
    requires own { IsFit hub.now jobs.own }
    requires jobs { AllByRecursion (IsFit hub.now) jobs.others.items }
    requires started { IsFree (vec_len jobs.others) room.started }
    requires passes { IsFree (vec_len jobs.others) room.ended.passes }
    requires readers { IsFree (vec_len jobs.others + 1) room.ended.readers }
    ensures { RunsAll S.left S.faults V.says V.inquiries V.faults limits (limit_of hub.now.turn) jobs.own
        jobs.others.items result }
{
    let AllJobs { own, others } = jobs;
    thread::scope(
        thread::scope_env(),
        rt,
        |scope| -> AllEnds<S, V>
            requires { IsFit hub.now own × AllByRecursion (IsFit hub.now) others.items
                × IsFree (vec_len others) room.started × IsFree (vec_len others) room.ended.passes
                × IsFree (vec_len others + 1) room.ended.readers }
            ensures { RunsAll S.left S.faults V.says V.inquiries V.faults limits (limit_of hub.entry.now.turn) own
                others.items result }
        {
            let Room { started, ended } = room;
            let starting = Starting {
                jobs: others,
                started,
            };
            let started = start(rt, alloc, scope, hub, gate, limits, starting);
            let JobEnd { pass, reader } = run_job(rt, alloc, hub, gate, limits, own);
            let ends = end_all(rt, hub, limits, reader, started, ended);
            AllEnds { pass, ends }
        },
    )
}
