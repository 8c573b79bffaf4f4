//! `make --helper HELPER --plan PLAN --log LOG`: writes the message of the event that a plan asks for.
ghost use Rattle.std.specs.Prelude.{◌≡◌, ◌<◌, [], IfOk, OnErr};
ghost use Rattle.std.specs.Vec.{vec_capacity};
ghost use Rattle.keri_roles.specs.KeriRoles.Made.{IsMadeAlone, IsMadeBehind, IsMadeBy};

use crate::core_roles::{
    OneSeat, Outcome, ReadAlone, SignedOutcome, Works, last_close_of, verifier_failed_last,
};
use crate::keri_roles::ReaderEnd;
use crate::keri_roles::make_parts::{MakeBehindParts, MakeParts, make_alone, make_behind};
use crate::keri_roles::message_due::{MessageDue, message_due};
use crate::keri_roles::text_reader::{TextReader, read_whole};
use crate::plan_answer::ReadLog;
use journal::Mode;
use run_status::{Besides, Outside, nothing_told};
use std::alloc::{AllocError, Global};
use std::sync::Wait;
use std::thread::Threads;

/// The words of `make`.
#[derive(Clone, Copy)]
pub(crate) struct MakeWords<'a> {
    pub(crate) helper: &'a str,
    pub(crate) plan: &'a str,
    pub(crate) log: Option<&'a str>,
}

/// Reads the plan and the log, where there is one, and makes the message. The readers have room for two. At `Err` there was no
/// memory to begin with, and nothing was made.
pub(crate) fn make<R: Threads + Wait + Sync, O: Outside>(
    rt: &R,
    alloc: Global,
    words: MakeWords<'_>,
    readers: Vec<ReaderEnd<O::Source, O::Verifier>>,
    outside: &mut O,
) -> Result<SignedOutcome<O::Source, O::Verifier, O::Signer>, AllocError>
    requires none_yet { readers.items ≡ [] }
    requires room { 1 < vec_capacity readers }
    ensures made { IfOk result (λ outcome. IsMadeBy words.entry (⟦<O as Works>⟧.signed outside.old outside.new outcome)) }
    ensures none_made { OnErr result (O.shown outside.new ≡ O.shown outside.old) }
    ensures sink { O.sink outside.new ≡ O.sink outside.old }
{
    match words.log {
        None => Ok(made_alone(alloc, words.helper, words.plan, readers, outside)),
        Some(log) => made_behind(rt, alloc, words.helper, words.plan, log, readers, outside),
    }
}

// Makes the message of a plan without a log.
fn made_alone<O: Outside>(
    alloc: Global,
    helper: &str,
    plan: &str,
    readers: Vec<ReaderEnd<O::Source, O::Verifier>>,
    outside: &mut O,
) -> SignedOutcome<O::Source, O::Verifier, O::Signer>
    requires none_yet { readers.items ≡ [] }
    requires room { 0 < vec_capacity readers }
    ensures made { IsMadeAlone helper.now plan.now (⟦<O as Works>⟧.signed outside.old outside.new result) }
    ensures sink { O.sink outside.new ≡ O.sink outside.old }
{
    let mut readers = readers;
    let limits = outside.limits();
    let MakeParts { plan, signer } = make_alone(plan, helper, outside);
    let mut signer = signer;
    let TextReader { reader, text } = read_whole(alloc, limits.stream_bytes, plan);
    let MessageDue { owed, besides } = message_due(
        alloc,
        &text,
        None,
        &[reader.close],
        &mut signer,
    );
    readers.push(reader).unwrap();
    let outcome = Outcome {
        readers,
        journal: nothing_told(alloc),
        owed,
        besides,
    };
    SignedOutcome { outcome, signer }
}

// Makes the message of a plan behind a log, which is read to a core that wants neither receipts nor seals.
fn made_behind<R: Threads + Wait + Sync, O: Outside>(
    rt: &R,
    alloc: Global,
    helper: &str,
    plan: &str,
    log: &str,
    readers: Vec<ReaderEnd<O::Source, O::Verifier>>,
    outside: &mut O,
) -> Result<SignedOutcome<O::Source, O::Verifier, O::Signer>, AllocError>
    requires none_yet { readers.items ≡ [] }
    requires room { 1 < vec_capacity readers }
    ensures made { IfOk result (λ outcome. IsMadeBehind helper.now plan.now log.now
        (⟦<O as Works>⟧.signed outside.old outside.new outcome)) }
    ensures none_made { OnErr result (O.shown outside.new ≡ O.shown outside.old) }
    ensures sink { O.sink outside.new ≡ O.sink outside.old }
{
    let mut readers = readers;
    let limits = outside.limits();
    let seat = OneSeat::new(alloc, Mode::Local, limits)?;
    let MakeBehindParts { plan, log, signer } = make_behind(plan, log, helper, outside);
    let mut signer = signer;
    let TextReader {
        reader: first,
        text,
    } = read_whole(alloc, limits.stream_bytes, plan);
    let ReadAlone {
        core,
        reader: second,
        rest,
    } = seat.read(rt, alloc, outside.gate(), log);
    let log = ReadLog {
        core: &core,
        is_refused: second.is_refused(),
    };
    let closes = [first.close, second.close, last_close_of(rest)];
    let MessageDue { owed, besides } = message_due(alloc, &text, Some(log), &closes, &mut signer);
    readers.push(first).unwrap();
    readers.push(second).unwrap();
    let outcome = Outcome {
        readers,
        journal: core.into_journal(),
        owed,
        besides: Besides {
            verifier_failed: verifier_failed_last(rest),
            ..besides
        },
    };
    Ok(SignedOutcome { outcome, signer })
}
