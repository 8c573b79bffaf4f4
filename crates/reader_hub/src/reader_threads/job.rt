//! What a reader is started with, and what it hands back.
ghost use Rattle.std.specs.Prelude.{◌≡◌, [], map, vec_len};
ghost use Rattle.turn_lock.specs.Known.{OwnsAlone};
ghost use Rattle.turn_lock.specs.Locks.{limit_of, known, IsPassOf};
ghost use Rattle.reader_hub.specs.ReaderThreads.Jobs.{HasReadStream, HasRun};
ghost use Rattle.reader_hub.specs.ReaderThreads.Rooms.{IsFree};

use crate::reader_hub::{Extent, Hub, Pass};
use crate::reader_threads::Providers;
use crate::shared_reader::{ReadOne, Reader, read_one};
use keri_outside::{Gate, Limits, Source, Verifier};
use lists::Items;
use run_status::{Close, ReaderEnd};
use std::alloc::Global;
use std::sync::Wait;

/// A pass for a reader, which open questions it asks between messages, and what it is given.
#[derive(Drop)]
pub(crate) struct Job<S, V> {
    pub(crate) pass: Pass,
    pub(crate) extent: Extent,
    pub(crate) providers: Providers<S, V>,
}

/// The jobs of these passes, in order, with what their readers are given, who ask what no other reader is asking. It takes
/// no memory.
pub(crate) fn jobs_for<S: Drop, V: Drop>(
    passes: Vec<Pass>,
    providers: Vec<Providers<S, V>>,
    room: Vec<Job<S, V>>,
) -> Vec<Job<S, V>>
    requires same { vec_len passes ≡ vec_len providers }
    requires room { IsFree (vec_len passes) room }
    ensures passes { map (λ job. job.pass) result.items ≡ passes.items }
    ensures providers { map (λ job. job.providers) result.items ≡ providers.items }
{
    let mut jobs = room;
    for (pass, given) in passes.into_iter().zip(providers) {
        jobs.push_reserved(Job {
            pass,
            extent: Extent::Free,
            providers: given,
        });
    }
    jobs
}

/// The pass once its reader has ended, and how that was.
#[derive(Drop)]
pub(crate) struct JobEnd<S, V> {
    pub(crate) pass: Pass,
    pub(crate) reader: ReaderEnd<S, V>,
}

/// Reads the stream where there are both a source and a verifier, and else nothing.
pub(crate) fn run_job<S: Source + Drop, V: Verifier + Drop, G: Gate, W: Wait>(
    rt: &W,
    alloc: Global,
    hub: &Hub,
    gate: &G,
    limits: Limits,
    job: Job<S, V>,
) -> JobEnd<S, V>
    requires pass { IsPassOf hub.now.turn job.pass }
    requires own { OwnsAlone (known job.pass) [] }
    ensures { HasRun S.left S.faults V.says V.inquiries V.faults limits (limit_of hub.now.turn) job result }
{
    let Job {
        pass,
        extent,
        providers,
    } = job;
    let Providers { source, verifier } = providers;
    let Some(source) = source else {
        return unread(alloc, pass, None, verifier, Close::ReadFault);
    };
    let Some(verifier) = verifier else {
        return unread(alloc, pass, Some(source), None, Close::VerifierFault);
    };
    let reader = Reader {
        pass,
        extent,
        source,
        verifier,
    };
    read(rt, alloc, hub, gate, limits, reader)
}

// The end of a reader that reads nothing.
fn unread<S, V>(
    alloc: Global,
    pass: Pass,
    source: Option<S>,
    verifier: Option<V>,
    ending: Close,
) -> JobEnd<S, V>
    ensures pass { result.pass ≡ pass }
    ensures source { result.reader.source ≡ source }
    ensures verifier { result.reader.verifier ≡ verifier }
    ensures refused { result.reader.refused.items ≡ [] }
    ensures seen { result.reader.seen ≡ [] }
    ensures ending { result.reader.close ≡ ending }
{
    let reader = ReaderEnd {
        source,
        verifier,
        refused: Vec::new(alloc),
        seen: Items::new(alloc),
        close: ending,
    };
    JobEnd { pass, reader }
}

// Reads the stream.
fn read<S: Source + Drop, V: Verifier + Drop, G: Gate, W: Wait>(
    rt: &W,
    alloc: Global,
    hub: &Hub,
    gate: &G,
    limits: Limits,
    reader: Reader<S, V>,
) -> JobEnd<S, V>
    requires pass { IsPassOf hub.now.turn reader.pass }
    requires own { OwnsAlone (known reader.pass) [] }
    ensures { HasReadStream S.left S.faults V.says V.inquiries V.faults limits (limit_of hub.now.turn) reader result }
{
    let ReadOne {
        pass,
        source,
        verifier,
        refused,
        ending,
    } = read_one(rt, alloc, hub, gate, limits, reader);
    let reader = ReaderEnd {
        source: Some(source),
        verifier: Some(verifier),
        refused,
        seen: Items::new(alloc),
        close: ending,
    };
    JobEnd { pass, reader }
}
