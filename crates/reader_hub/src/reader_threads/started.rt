//! Readers that were started in threads of one scope.
ghost use Rattle.std.specs.Prelude.{◌≡◌, [], ◌∷◌, ◌++◌, ◌+◌, ◌≤◌, ◌<◌, IfSome, IfNone, vec_len, vec_capacity};
ghost use Rattle.std.specs.List.{AllByRecursion};
ghost use Rattle.turn_lock.specs.Locks.{limit_of};
ghost use Rattle.reader_hub.specs.ReaderThreads.Jobs.{IsFit};
ghost use Rattle.reader_hub.specs.ReaderThreads.Rooms.{IsFree};
ghost use Rattle.reader_hub.specs.ReaderThreads.Starts.{EndsAll, EndsOne, StartsAll};

use crate::reader_hub::{Hub, Pass};
use crate::reader_threads::job::{Job, JobEnd, run_job};
use keri_outside::{Gate, Limits, Source, Verifier};
use run_status::ReaderEnd;
use std::alloc::Global;
use std::snapshot::Snapshot;
use std::sync::Wait;
use std::thread::{Promise, PromisedHandle, Scope, Threads};

/// What the thread of a reader promises: what one reader does, for its job.
#[derive(Drop)]
pub(crate) struct Promised<S, V> {
    pub(crate) hub: Snapshot<Hub>,
    pub(crate) job: Snapshot<Job<S, V>>,
    pub(crate) limits: Limits,
}

impl<S: Source, V: Verifier> Promise<JobEnd<S, V>> for Promised<S, V> {
    ghost use Rattle.turn_lock.specs.Locks.{limit_of};
    ghost use Rattle.reader_hub.specs.ReaderThreads.Jobs.{HasRun};

    ghost kept_by = { λ p r. HasRun S.left S.faults V.says V.inquiries V.faults p.limits
        (limit_of p.hub.value.turn) p.job.value r };
}

/// A reader that was started: it runs in a thread, or it found none and has run on the main thread.
#[derive(Drop)]
pub(crate) enum Started<S: Source, V: Verifier> {
    Running(PromisedHandle<JobEnd<S, V>, Promised<S, V>>),
    Ended(JobEnd<S, V>),
}

// The last job.
fn take_last<S, V>(hub: &Hub, jobs: &mut Vec<Job<S, V>>) -> Option<Job<S, V>>
    requires { AllByRecursion (IsFit hub.now) jobs.old.items }
    ensures rest { AllByRecursion (IsFit hub.now) jobs.new.items }
    ensures fit { IfSome result (IsFit hub.now) }
    ensures some { IfSome result (λ job. jobs.old.items ≡ jobs.new.items ++ job ∷ []) }
    ensures fewer { IfSome result (λ job. vec_len jobs.old ≡ vec_len jobs.new + 1) }
    ensures none { IfNone result (jobs.old.items ≡ []) }
{
    let _hub = hub;
    jobs.pop()
}

// Puts one more behind those that were started.
fn put<S: Source + Drop, V: Verifier + Drop>(
    all: Vec<Started<S, V>>,
    one: Started<S, V>,
) -> Vec<Started<S, V>>
    requires room { vec_len all < vec_capacity all }
    ensures behind { result.items ≡ all.items ++ one ∷ [] }
    ensures count { vec_len result ≡ vec_len all + 1 }
    ensures room { vec_capacity result ≡ vec_capacity all }
{
    let mut all = all;
    all.push_reserved(one);
    all
}

/// Jobs that are to be started, and the readers that were started so far, with room for these too.
#[derive(Drop)]
pub(crate) struct Starting<S: Source, V: Verifier> {
    pub(crate) jobs: Vec<Job<S, V>>,
    pub(crate) started: Vec<Started<S, V>>,
}

/// Starts the jobs, the last one first, and once all the others were started runs each that found no thread.
pub(crate) fn start<
    's,
    E,
    S: Source + Drop + Send + 's,
    V: Verifier + Drop + Send + 's,
    G: Gate + Sync,
    R: Threads + Wait + Sync,
>(
    rt: &'s R,
    alloc: Global,
    scope: &'s Scope<'s, E>,
    hub: &'s Hub,
    gate: &'s G,
    limits: Limits,
    mut starting: Starting<S, V>,
) -> Vec<Started<S, V>>
    requires jobs { AllByRecursion (IsFit hub.now) starting.jobs.items }
    requires room { vec_len starting.started + vec_len starting.jobs ≤ vec_capacity starting.started }
    ensures count { vec_len result ≡ vec_len starting.started + vec_len starting.jobs }
    ensures room { vec_capacity result ≡ vec_capacity starting.started }
    ensures started { StartsAll S.left S.faults V.says V.inquiries V.faults limits (limit_of hub.now.turn)
        starting.jobs.items starting.started.items result.items }
{
    let Some(job) = take_last(hub, &mut starting.jobs) else {
        return starting.started;
    };
    let promise = Promised {
        hub: Snapshot::of(hub),
        job: Snapshot::of(&job),
        limits,
    };
    match scope.spawn_with(promise, move || run_job(rt, alloc, hub, gate, limits, job)) {
        Ok(child) => {
            let all = start(rt, alloc, scope, hub, gate, limits, starting);
            put(all, Started::Running(child))
        }
        Err(refused) => {
            let all = start(rt, alloc, scope, hub, gate, limits, starting);
            put(all, Started::Ended((refused.value)()))
        }
    }
}

// Waits for the end of one reader.
fn end<S: Source + Drop, V: Verifier + Drop, R: Threads + Wait + Sync>(
    rt: &R,
    hub: &Hub,
    limits: Limits,
    started: Started<S, V>,
) -> JobEnd<S, V>
    ensures { EndsOne S.left S.faults V.says V.inquiries V.faults limits (limit_of hub.now.turn) started result }
{
    let _hub = hub;
    let _limits = limits;
    match started {
        Started::Running(child) => child.join(rt),
        Started::Ended(end) => end,
    }
}

/// The passes of the readers but reader 0, and how all readers ended, in order.
#[derive(Drop)]
pub(crate) struct Ends<S, V> {
    pub(crate) passes: Vec<Pass>,
    pub(crate) readers: Vec<ReaderEnd<S, V>>,
}

/// Puts the end of reader 0 where there is room for all, then waits for the end of each other one and puts it behind. It
/// takes no memory.
pub(crate) fn end_all<S: Source + Drop, V: Verifier + Drop, R: Threads + Wait + Sync>(
    rt: &R,
    hub: &Hub,
    limits: Limits,
    first: ReaderEnd<S, V>,
    started: Vec<Started<S, V>>,
    room: Ends<S, V>,
) -> Ends<S, V>
    requires passes { IsFree (vec_len started) room.passes }
    requires readers { IsFree (vec_len started + 1) room.readers }
    ensures { EndsAll S.left S.faults V.says V.inquiries V.faults limits (limit_of hub.now.turn) first started.items
        result }
{
    let Ends {
        mut passes,
        mut readers,
    } = room;
    readers.push_reserved(first);
    for one in started {
        let JobEnd { pass, reader } = end(rt, hub, limits, one);
        passes.push_reserved(pass);
        readers.push_reserved(reader);
    }
    Ends { passes, readers }
}
