//! What a core shows of what it was told.

use crate::cores::calls::number_of;
use crate::cores::session::Session;
use cesr_codes::Prefix;
use journal::Conflict;
use keri_outside::Steps;
use key_state::KeyState;
use rows::{Row, given};
use std::alloc::{AllocError, Global};
use std::fmt::Write;

/// `why NUMBER`: why the event of a number waits, or `none`.
fn why(alloc: Global, session: &Session, row: &Row) -> Result<String, AllocError> {
    match session.core.why_waits(number_of(row)) {
        Some(why) => format!(in alloc; "{why:?}"),
        None => String::from_str(alloc, "none"),
    }
}

fn number_word(text: &mut String, number: u32) -> Result<(), AllocError> {
    write!(text, "{number} ")
}

fn number_words(text: &mut String, numbers: &[u32]) -> Result<(), AllocError> {
    for number in numbers {
        number_word(text, *number)?;
    }
    Ok(())
}

fn number_text(alloc: Global, numbers: &[u32]) -> Result<String, AllocError> {
    let mut text = String::new(alloc);
    number_words(&mut text, numbers)?;
    Ok(text)
}

/// `accepted`: the numbers of the accepted bodies.
fn accepted(alloc: Global, session: &Session) -> Result<String, AllocError> {
    number_text(alloc, session.core.accepted())
}

// Whether the event of a number waits.
fn waits(session: &Session, number: u32) -> bool {
    let mut steps = Steps::new();
    session.core.waiting().look(number, &mut steps).is_some()
}

/// `waiting`: the numbers of the events that wait.
fn waiting(alloc: Global, session: &Session) -> Result<String, AllocError> {
    let mut text = String::new(alloc);
    for number in 0..u32::MAX {
        if session.core.body(number).is_none() {
            break;
        }
        if waits(session, number) {
            number_word(&mut text, number)?;
        }
    }
    Ok(text)
}

/// The identifier that the argument of that place spells, where it spells one.
pub(crate) fn prefix_of(
    alloc: Global,
    row: &Row,
    place: usize,
) -> Result<Option<Prefix>, AllocError> {
    let word = row.bytes(alloc, place)?;
    match Prefix::read(word.as_slice()) {
        Ok((prefix, _)) => Ok(Some(prefix)),
        Err(_) => Ok(None),
    }
}

/// The number of the last live event, and how many keys and witnesses there are.
pub(crate) fn state_words(alloc: Global, state: &KeyState) -> Result<String, AllocError> {
    let (sn, keys, witnesses) = (state.sn(), state.keys.len(), state.list.len());
    format!(in alloc; "{sn} {keys} {witnesses}")
}

/// `state PREFIX`: the number of the last live event and how many keys and witnesses there are, or `none`.
fn state(alloc: Global, session: &Session, row: &Row) -> Result<String, AllocError> {
    match prefix_of(alloc, row, 1)? {
        Some(prefix) => match session.core.state(&prefix) {
            Some(state) => state_words(alloc, state),
            None => String::from_str(alloc, "none"),
        },
        None => String::from_str(alloc, "no-prefix"),
    }
}

// The numbers of the live events of an identifier.
fn live(alloc: Global, session: &Session, prefix: &Prefix) -> Result<String, AllocError> {
    let numbers = session.core.log(prefix)?;
    let text = number_text(alloc, numbers.as_slice());
    drop(numbers);
    text
}

/// `log PREFIX`: the numbers of the live events.
fn log(alloc: Global, session: &Session, row: &Row) -> Result<String, AllocError> {
    match prefix_of(alloc, row, 1)? {
        Some(prefix) => live(alloc, session, &prefix),
        None => String::from_str(alloc, "no-prefix"),
    }
}

fn conflict_words(text: &mut String, conflict: &Conflict) -> Result<(), AllocError> {
    let (prefix, sn) = (conflict.prefix, conflict.sn);
    write!(text, "{prefix} {sn}(")?;
    number_words(text, conflict.bodies.as_slice())?;
    write!(text, ") ")
}

fn conflict_text(alloc: Global, conflicts: &[Conflict]) -> Result<String, AllocError> {
    let mut text = String::new(alloc);
    for conflict in conflicts {
        conflict_words(&mut text, conflict)?;
    }
    Ok(text)
}

/// `conflicts`: the identifier and the number of each conflict, and the numbers of its bodies.
fn conflicts(alloc: Global, session: &Session) -> Result<String, AllocError> {
    let conflicts = session.core.conflicts()?;
    let text = conflict_text(alloc, conflicts.as_slice());
    drop(conflicts);
    text
}

/// The answer of the row, where it is one of these calls.
pub(crate) fn answer(
    alloc: Global,
    session: &Session,
    row: &Row,
) -> Result<Option<String>, AllocError> {
    match row.word(0) {
        "why" => given(why(alloc, session, row)),
        "accepted" => given(accepted(alloc, session)),
        "waiting" => given(waiting(alloc, session)),
        "state" => given(state(alloc, session, row)),
        "log" => given(log(alloc, session, row)),
        "conflicts" => given(conflicts(alloc, session)),
        _ => Ok(None),
    }
}
