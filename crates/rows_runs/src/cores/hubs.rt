//! Hubs of one pass and of two.
ghost use Rattle.std.specs.Prelude.{◌≡◌, []};
ghost use Rattle.turn_lock.specs.Locks.{IsPassOf};
ghost use Rattle.validator_core.specs.ValidatorCore.View.{told_of};

use crate::cores::views::{prefix_of, state_words};
use cesr_codes::Prefix;
use cesr_stream::Message;
use journal::Mode;
use keri_outside::{Limits, Rehearsal, Verifier};
use reader_hub::{Asked, Extent, Hub, Pass};
use rows::{Row, message_of};
use std::alloc::{AllocError, Global};
use std::sync::Wait;
use validator_core::Core;

// So many turns no row takes, and a hub has no more.
const TURNS: u64 = 1_000;

// A validator's core, that was told nothing.
fn untold(alloc: Global) -> Core
    ensures untold { told_of result ≡ [] }
    ensures no_base { result.base ≡ 0 }
{
    Core::new(alloc, Mode::Full, Limits::standard())
}

// The body's number and the key of an open question, and what becomes of the rehearsal's verdict on it.
fn asked<W: Wait>(rt: &W, alloc: Global, hub: &Hub, pass: &mut Pass) -> Result<String, AllocError>
    requires pass { IsPassOf hub.now.turn pass.old }
    ensures pass { IsPassOf hub.now.turn pass.new }
{
    let Asked { question, bytes } = match hub.next_question(rt, alloc, pass, Extent::All) {
        Ok(Some(asked)) => asked,
        Ok(None) => return String::from_str(alloc, "no-question"),
        Err(fault) => return format!(in alloc; "{fault:?}"),
    };
    let yes = Rehearsal
        .ask(&question.key, bytes.as_slice(), &question.sig)
        .unwrap_or(false);
    let (body, key) = (question.body, question.key);
    match hub.answer(rt, pass, &question, yes) {
        Ok(noted) => format!(in alloc; "{body} {key} {noted:?}"),
        Err(fault) => format!(in alloc; "{body} {key} {fault:?}"),
    }
}

// The state that the pass reads.
fn state<W: Wait>(
    rt: &W,
    alloc: Global,
    hub: &Hub,
    pass: &mut Pass,
    prefix: &Prefix,
) -> Result<String, AllocError>
    requires pass { IsPassOf hub.now.turn pass.old }
    ensures pass { IsPassOf hub.now.turn pass.new }
{
    match hub.state(rt, alloc, pass, prefix) {
        Ok(Some(state)) => state_words(alloc, &state),
        Ok(None) => String::from_str(alloc, "none"),
        Err(fault) => format!(in alloc; "{fault:?}"),
    }
}

// What a hub of so many turns answers to the message, of the state, to a verdict, and of the state behind that.
fn answers<W: Wait>(
    rt: &W,
    alloc: Global,
    turns: u64,
    message: &Message,
    prefix: &Prefix,
) -> Result<String, AllocError> {
    let (hub, first) = Hub::new(alloc, untold(alloc), turns.min(TURNS))?;
    let mut pass = first;
    let reply = match hub.take(rt, alloc, &mut pass, message) {
        Ok(reply) => format!(in alloc; "{reply:?}")?,
        Err(fault) => format!(in alloc; "{fault:?}")?,
    };
    let before = state(rt, alloc, &hub, &mut pass, prefix)?;
    let noted = asked(rt, alloc, &hub, &mut pass)?;
    let behind = state(rt, alloc, &hub, &mut pass, prefix)?;
    format!(in alloc; "{reply} {before} {noted} {behind}")
}

/// `hub TURNS PREFIX TEXT`: what becomes of the message, the state of the identifier, the number of the body and the key
/// of the question that the pass is given, what becomes of the rehearsal's verdict on it, and the state that the pass then
/// reads back. Where all turns were taken, that.
pub(crate) fn read_back<W: Wait>(rt: &W, alloc: Global, row: &Row) -> Result<String, AllocError> {
    let text = row.bytes(alloc, 3)?;
    let message = message_of(alloc, text.as_slice())?;
    match (message, prefix_of(alloc, row, 2)?) {
        (Some(message), Some(prefix)) => answers(rt, alloc, row.number(1), &message, &prefix),
        _ => String::from_str(alloc, "no-message"),
    }
}

// The key of the question that the pass is given.
fn key_given<W: Wait>(
    rt: &W,
    alloc: Global,
    hub: &Hub,
    pass: &mut Pass,
    extent: Extent,
) -> Result<String, AllocError>
    requires pass { IsPassOf hub.now.turn pass.old }
    ensures pass { IsPassOf hub.now.turn pass.new }
{
    match hub.next_question(rt, alloc, pass, extent) {
        Ok(Some(Asked { question, .. })) => {
            let key = question.key;
            format!(in alloc; "{key}")
        }
        Ok(None) => String::from_str(alloc, "none"),
        Err(fault) => format!(in alloc; "{fault:?}"),
    }
}

// What two passes of a hub that was told the message are given.
fn given_to_both<W: Wait>(rt: &W, alloc: Global, message: &Message) -> Result<String, AllocError> {
    let (hub, first) = Hub::new(alloc, untold(alloc), TURNS)?;
    let mut first = first;
    let mut second = hub.split(&mut first)?;
    let Ok(reply) = hub.take(rt, alloc, &mut first, message) else {
        return String::from_str(alloc, "no-turn");
    };
    let one = key_given(rt, alloc, &hub, &mut first, Extent::Free)?;
    let other = key_given(rt, alloc, &hub, &mut second, Extent::Free)?;
    let again = key_given(rt, alloc, &hub, &mut second, Extent::Free)?;
    let noted = asked(rt, alloc, &hub, &mut first)?;
    let free = key_given(rt, alloc, &hub, &mut first, Extent::Free)?;
    let all = key_given(rt, alloc, &hub, &mut first, Extent::All)?;
    let next = key_given(rt, alloc, &hub, &mut first, Extent::First)?;
    format!(in alloc; "{reply:?} {one} {other} {again} {noted} {free} {all} {next}")
}

/// `passes TEXT`: what becomes of the message by the first of two passes; the keys of the questions that this pass, and
/// twice the other one, is given, which no other has; what becomes of the first's verdict; and the keys of what it is
/// given then, of what no other has, of all, and of the first question.
pub(crate) fn passes<W: Wait>(rt: &W, alloc: Global, row: &Row) -> Result<String, AllocError> {
    let text = row.bytes(alloc, 1)?;
    match message_of(alloc, text.as_slice())? {
        Some(message) => given_to_both(rt, alloc, &message),
        None => String::from_str(alloc, "no-message"),
    }
}
