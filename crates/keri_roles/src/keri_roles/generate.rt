//! `gen --seed SEED --logs LOGS --events EVENTS`: makes a stream of logs, and says how much of it is accepted.
ghost use Rattle.std.specs.Prelude.{◌≡◌, ◌<◌, [], ◌∷◌, None, IfOk, IfSome};
ghost use Rattle.std.specs.Vec.{vec_capacity};
ghost use Rattle.keri_outside.specs.Rehearsal.{rehearsal_says};
ghost use Rattle.controller_core.specs.LogMaker.Making.{maker_faults, maker_left};
ghost use Rattle.run_status.specs.RunStatus.Readers.{reader_seen};
ghost use Rattle.validator_core.specs.ValidatorCore.View.{accepted_by};
ghost use Rattle.keri_roles.specs.KeriRoles.Commands.{IsGenerated};
ghost use Rattle.keri_roles.specs.KeriRoles.Generated as specs;
ghost use Rattle.keri_roles.specs.KeriRoles.Planned.{HasCounts, TellsMade, made_close};

use crate::core_roles::{OneSeat, Outcome, ReadAlone, Works};
use crate::keri_roles::{Close, ReaderEnd};
use controller_core::{LogMaker, totals_of};
use journal::Mode;
use keri_outside::{Gate, Limits, Rehearsal};
use reader_hub::{LastRound, Providers};
use report_lines::{StreamCounts, stream_line};
use run_status::{Besides, Outside};
use std::alloc::{AllocError, Global};
use std::sync::Wait;
use std::thread::Threads;
use validator_core::Core;

/// The seed of a stream, how many logs it has, and how many events each of them has.
#[derive(Clone, Copy)]
pub(crate) struct StreamPlan {
    pub(crate) seed: u64,
    pub(crate) logs: u16,
    pub(crate) events: u16,
}

/// Reads the stream to a core that wants receipts and seals, with the verdicts of the rehearsal. The readers have room for
/// the one that there is. At `Err` there was no memory to begin with.
pub(crate) fn generate<R: Threads + Wait + Sync, O: Outside>(
    rt: &R,
    alloc: Global,
    plan: StreamPlan,
    readers: Vec<ReaderEnd<O::Source, O::Verifier>>,
    outside: &mut O,
) -> Result<Outcome<O::Source, O::Verifier>, AllocError>
    requires none_yet { readers.items ≡ [] }
    requires room { 0 < vec_capacity readers }
    ensures generated { IfOk result (λ outcome. IsGenerated plan.seed plan.logs plan.events
        (⟦<O as Works>⟧.work outside.old outside.new outcome)) }
    ensures same { outside.new ≡ outside.old }
{
    let mut readers = readers;
    let limits = outside.limits();
    let ReadAlone { core, reader, rest } = read_made(rt, alloc, plan, limits, outside.gate())?;
    let owed = line_of(alloc, plan, &core, reader.close, rest);
    let end = ReaderEnd {
        source: None,
        verifier: None,
        refused: reader.refused,
        seen: reader.seen,
        close: close_of(reader.close),
    };
    readers.push(end).unwrap();
    Ok(Outcome {
        readers,
        journal: core.into_journal(),
        owed,
        besides: Besides::nothing(),
    })
}

// Makes the stream and reads it.
fn read_made<R: Threads + Wait + Sync, G: Gate + Sync>(
    rt: &R,
    alloc: Global,
    plan: StreamPlan,
    limits: Limits,
    gate: &G,
) -> Result<ReadAlone<LogMaker, Rehearsal>, AllocError>
    ensures { IfOk result (λ made. TellsMade plan limits
        (reader_seen maker_left maker_faults (λ v. rehearsal_says) (λ v. None) (λ v. 0) made.reader) made.rest made.core) }
{
    let seat = OneSeat::new(alloc, Mode::Full, limits)?;
    let stream = LogMaker::new(
        alloc,
        plan.seed,
        u64::from(plan.logs),
        u64::from(plan.events),
    );
    let providers = Providers {
        source: Some(stream),
        verifier: Some(Rehearsal),
    };
    Ok(seat.read(rt, alloc, gate, providers))
}

// The line, where there was memory for the stream and for the line. A stream fails to be made for want of memory alone.
fn line_of(
    alloc: Global,
    plan: StreamPlan,
    core: &Core,
    close: Close,
    rest: LastRound,
) -> Option<Vec<u8>>
    ensures { IfSome result (HasCounts plan (accepted_by core.now) close rest) }
{
    if close == Close::OutOfMemory || close == Close::ReadFault || rest == LastRound::OutOfMemory {
        return None;
    }
    match stream_line(alloc, counts_of(plan, core)) {
        Ok(line) => Some(line.into_bytes()),
        Err(AllocError) => None,
    }
}

// How the reader of a stream that is made closes: where the stream failed, there was no memory for it.
fn close_of(close: Close) -> Close
    ensures { result ≡ made_close close }
{
    match close {
        Close::ReadFault => Close::OutOfMemory,
        other => other,
    }
}

// How much the stream has, and how many of its events are accepted.
fn counts_of(plan: StreamPlan, core: &Core) -> StreamCounts
    ensures { result ≡ specs.counts_of plan.seed plan.logs plan.events (accepted_by core.now) }
{
    let logs = u64::from(plan.logs);
    let events = u64::from(plan.events);
    let Some(totals) = totals_of(plan.seed, logs, events) else {
        unreachable!()
    };
    StreamCounts {
        logs,
        events: logs * events,
        rotations: totals.rotations,
        bytes: totals.bytes,
        accepted: core.accepted().len() as u64,
    }
}
