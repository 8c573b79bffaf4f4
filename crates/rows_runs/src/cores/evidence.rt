//! The evidence of a watcher.
ghost use Rattle.std.specs.Prelude.{◌≡◌};
ghost use Rattle.journal.specs.declared.journal.mode.Mode.TheVariants.{Local};

use crate::cores::calls::{MOST_QUESTIONS, verdict};
use cesr_stream::Message;
use journal::Mode;
use keri_outside::{Limits, MemSink, Steps};
use lists::Items;
use rows::{Row, message_of};
use std::alloc::{AllocError, Global};
use validator_core::Core;
use watcher_core::Watcher;

// Takes the message.
fn take_message(core: &mut Core, steps: &mut Steps, message: Message) -> Result<(), AllocError>
    ensures { core.new.mode ≡ core.old.mode }
{
    let taken = core.take(0, &message, steps);
    drop(message);
    taken?;
    Ok(())
}

// Takes the message that the text writes, where it writes one.
fn take_text(
    alloc: Global,
    core: &mut Core,
    steps: &mut Steps,
    text: &[u8],
) -> Result<(), AllocError>
    ensures { core.new.mode ≡ core.old.mode }
{
    match message_of(alloc, text)? {
        Some(message) => take_message(core, steps, message),
        None => Ok(()),
    }
}

// Takes the message that the argument writes, where it writes one.
fn take_one(
    alloc: Global,
    core: &mut Core,
    steps: &mut Steps,
    row: &Row,
    place: usize,
) -> Result<(), AllocError>
    ensures { core.new.mode ≡ core.old.mode }
{
    let text = row.bytes(alloc, place)?;
    let taken = take_text(alloc, core, steps, text.as_slice());
    drop(text);
    taken
}

// Takes the messages that the arguments behind the second write.
fn take_all(alloc: Global, core: &mut Core, steps: &mut Steps, row: &Row) -> Result<(), AllocError>
    ensures { core.new.mode ≡ core.old.mode }
{
    for place in 2..row.len() {
        take_one(alloc, core, steps, row, place)?;
    }
    Ok(())
}

// Answers the open question by the rehearsal, where one is open, and says whether one was.
fn ask_one(core: &mut Core, steps: &mut Steps) -> Result<bool, AllocError>
    ensures { core.new.mode ≡ core.old.mode }
{
    let Some(question) = core.next_question(0) else {
        return Ok(false);
    };
    let yes = verdict(core, &question);
    core.answer(0, &question, yes, steps)?;
    Ok(true)
}

// Answers the open questions by the rehearsal.
fn ask_all(core: &mut Core, steps: &mut Steps) -> Result<(), AllocError>
    ensures { core.new.mode ≡ core.old.mode }
{
    for _ in 0..MOST_QUESTIONS {
        if !ask_one(core, steps)? {
            return Ok(());
        }
    }
    Ok(())
}

// Tells a core the messages of the row, and answers its questions by the rehearsal.
fn tell(alloc: Global, core: &mut Core, row: &Row) -> Result<(), AllocError>
    ensures { core.new.mode ≡ core.old.mode }
{
    let mut steps = Steps::new();
    take_all(alloc, core, &mut steps, row)?;
    ask_all(core, &mut steps)
}

// A sink, whose first write fails where it is to.
fn sink(alloc: Global, fails: bool) -> Result<MemSink, AllocError> {
    let mut failing = Items::new(alloc);
    if fails {
        failing.push(0)?;
    }
    Ok(MemSink::new(alloc, failing))
}

// What the watcher writes to a sink, or its fault where the sink fails.
fn written_by(alloc: Global, watcher: &Watcher, fails: bool) -> Result<String, AllocError> {
    let mut sink = sink(alloc, fails)?;
    let text = match watcher.write_evidence(&mut sink) {
        Ok(()) => String::from_utf8_lossy(alloc, sink.bytes()),
        Err(fault) => format!(in alloc; "{fault:?}"),
    };
    drop(sink);
    text
}

// What a watcher of this core writes.
fn watched(alloc: Global, core: Core, fails: bool) -> Result<String, AllocError>
    requires { core.mode ≡ Local }
{
    let watcher = Watcher::of(alloc, core);
    let text = written_by(alloc, &watcher, fails);
    drop(watcher);
    text
}

/// `evidence written TEXT..` or `evidence fails TEXT..`: what a watcher writes that was told these messages, or its fault where
/// the sink fails.
pub(crate) fn evidence(alloc: Global, row: &Row) -> Result<String, AllocError> {
    let mut core = Core::new(alloc, Mode::Local, Limits::standard());
    if let Err(error) = tell(alloc, &mut core, row) {
        drop(core);
        return Err(error);
    }
    watched(alloc, core, row.word(1) == "fails")
}
