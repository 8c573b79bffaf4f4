//! Key states after events.
ghost use Rattle.key_state.specs.Kept.{IsKept};

use crate::events::event::kept_event;
use cesr_codes::{IndexedSig, Key};
use event_body::Event;
use key_state::{KeyState, Misfit, StateFault, first};
use lists::CopyValue;
use rows::{Row, given};
use std::alloc::{AllocError, Global};
use std::fmt::Write;
use std::mem;

// The state after one more event than behind a copy of the state.
fn copy_moved(alloc: Global, state: &KeyState, event: &Event) -> Result<KeyState, StateFault>
    requires { IsKept event.now }
{
    let Ok(copy) = state.copy(alloc) else {
        return Err(StateFault::OutOfMemory);
    };
    let after = copy.after(alloc, event);
    drop(copy);
    after
}

// The state after one more event.
fn moved(alloc: Global, state: &Option<KeyState>, event: &Event) -> Result<KeyState, StateFault>
    requires { IsKept event.now }
{
    match state {
        Some(state) => copy_moved(alloc, state, event),
        None => first(alloc, event),
    }
}

// The numbers of the last establishment event and of the last event, and how many digests are kept.
fn state_word(text: &mut String, state: &KeyState) -> Result<(), AllocError> {
    let (est_sn, sn, since) = (state.est_sn, state.sn(), state.since.len());
    write!(text, "{est_sn}..{sn}({since}) ")
}

// The state, or the rule that the event breaks, which is said.
fn told(
    text: &mut String,
    after: Result<KeyState, StateFault>,
) -> Result<Option<KeyState>, AllocError> {
    match after {
        Ok(state) => Ok(Some(state)),
        Err(StateFault::Misfit(misfit)) => {
            write!(text, "{misfit:?} ")?;
            Ok(None)
        }
        Err(StateFault::OutOfMemory) => Err(AllocError),
    }
}

// The state after the event that the bytes spell, where there is one; else why there is none is said.
fn next(
    alloc: Global,
    state: &Option<KeyState>,
    bytes: &[u8],
    text: &mut String,
) -> Result<Option<KeyState>, AllocError> {
    match kept_event(alloc, bytes) {
        Ok(event) => {
            let after = moved(alloc, state, &event);
            drop(event);
            told(text, after)
        }
        Err(_) => {
            text.push_str("no-event ")?;
            Ok(None)
        }
    }
}

// Says the state, and whether there is one.
fn standing(text: &mut String, state: &Option<KeyState>) -> Result<bool, AllocError> {
    match state {
        Some(state) => {
            state_word(text, state)?;
            Ok(true)
        }
        None => Ok(false),
    }
}

// Moves the state on by the event of the word of this number, says what is said of it, and whether there is a state then.
fn step(
    alloc: Global,
    row: &Row,
    number: usize,
    state: &mut Option<KeyState>,
    text: &mut String,
) -> Result<bool, AllocError> {
    let bytes = row.bytes(alloc, number)?;
    let after = next(alloc, state, bytes.as_slice(), text)?;
    drop(mem::replace(state, after));
    standing(text, state)
}

/// Moves the state on by the events of the words from one number to another, and says what is said of each; there is none
/// where an event isn't taken.
pub(crate) fn fold(
    alloc: Global,
    row: &Row,
    from: usize,
    to: usize,
    state: &mut Option<KeyState>,
    text: &mut String,
) -> Result<(), AllocError> {
    for number in from..to {
        if !step(alloc, row, number, state, text)? {
            break;
        }
    }
    Ok(())
}

/// `state TEXT..`: after each event the numbers of the last establishment event and of the last event, and how many
/// digests are kept; or the rule that the event breaks, with which the row ends.
fn state(alloc: Global, row: &Row) -> Result<String, AllocError> {
    let mut text = String::new(alloc);
    let mut state = None;
    let folded = fold(alloc, row, 1, row.len(), &mut state, &mut text);
    drop(state);
    folded?;
    Ok(text)
}

// What is asked of the state behind all events of a row but the last, and of the last event.
#[derive(Drop)]
enum Asked {
    // The own list of the event.
    Witnesses,
    // The places that the indexed signature exposes at the event.
    Exposed(IndexedSig),
    // The rule by which the event doesn't follow the state behind the live event of this place, counted from 1.
    Behind(usize),
}

fn key_word(alloc: Global, text: &mut String, key: &Key) -> Result<(), AllocError> {
    let mut spelled = [0; 44];
    key.write(&mut spelled);
    text.push_str(String::from_utf8_lossy(alloc, &spelled)?.as_str())?;
    text.push_str(" ")
}

fn keys_words(alloc: Global, text: &mut String, keys: &[Key]) -> Result<(), AllocError> {
    for key in keys {
        key_word(alloc, text, key)?;
    }
    Ok(())
}

fn list_words(
    alloc: Global,
    text: &mut String,
    state: &KeyState,
    event: &Event,
) -> Result<(), AllocError> {
    let list = state.list_of(alloc, event)?;
    keys_words(alloc, text, list.as_slice())
}

fn number_word(text: &mut String, number: u16) -> Result<(), AllocError> {
    write!(text, "{number} ")
}

fn numbers_words(text: &mut String, numbers: &[u16]) -> Result<(), AllocError> {
    for number in numbers {
        number_word(text, *number)?;
    }
    Ok(())
}

fn exposed_words(
    alloc: Global,
    text: &mut String,
    state: &KeyState,
    event: &Event,
    sig: &IndexedSig,
) -> Result<(), AllocError> {
    let places = state.exposed(alloc, event, &[*sig])?;
    numbers_words(text, places.as_slice())
}

fn follow_word(text: &mut String, misfit: Option<Misfit>) -> Result<(), AllocError> {
    match misfit {
        Some(misfit) => write!(text, "{misfit:?}"),
        None => text.push_str("follows"),
    }
}

fn misfit_word(
    text: &mut String,
    state: &KeyState,
    place: usize,
    event: &Event,
) -> Result<(), AllocError> {
    if place == 0 || place > state.since.len() {
        text.push_str("no-place")
    } else {
        follow_word(text, state.misfit_behind(place, event))
    }
}

fn asked_words(
    alloc: Global,
    text: &mut String,
    asked: &Asked,
    state: &KeyState,
    event: &Event,
) -> Result<(), AllocError> {
    match asked {
        Asked::Witnesses => list_words(alloc, text, state, event),
        Asked::Exposed(sig) => exposed_words(alloc, text, state, event, sig),
        Asked::Behind(place) => misfit_word(text, state, *place, event),
    }
}

// Says what is asked, where the bytes spell an event.
fn event_words(
    alloc: Global,
    text: &mut String,
    asked: &Asked,
    state: &KeyState,
    bytes: &[u8],
) -> Result<(), AllocError> {
    match kept_event(alloc, bytes) {
        Ok(event) => {
            let said = asked_words(alloc, text, asked, state, &event);
            drop(event);
            said
        }
        Err(_) => Ok(()),
    }
}

// Moves the state on by the events of the words from a number to the last but one, and says what is asked of the last.
fn fold_and_ask(
    alloc: Global,
    row: &Row,
    from: usize,
    asked: &Asked,
    state: &mut Option<KeyState>,
    text: &mut String,
) -> Result<(), AllocError> {
    let last = row.len().saturating_sub(1);
    let bytes = row.bytes(alloc, last)?;
    fold(alloc, row, from, last, state, text)?;
    match state {
        Some(state) => event_words(alloc, text, asked, state, bytes.as_slice()),
        None => Ok(()),
    }
}

/// `witnesses TEXT..`: the own list of the last event, after the others. `exposed SIGNATURE TEXT..`: the places that the
/// indexed signature exposes at the last event. `behind PLACE TEXT..`: the rule by which the last event doesn't follow the
/// state behind the live event of this place, counted from 1; or `follows`.
fn answer_asked(
    alloc: Global,
    row: &Row,
    from: usize,
    asked: &Asked,
) -> Result<String, AllocError> {
    let mut text = String::new(alloc);
    let mut state = None;
    let said = fold_and_ask(alloc, row, from, asked, &mut state, &mut text);
    drop(state);
    said?;
    Ok(text)
}

fn exposed(alloc: Global, row: &Row) -> Result<String, AllocError> {
    let bytes = row.bytes(alloc, 1)?;
    match IndexedSig::read(bytes.as_slice()) {
        Ok((sig, _)) => answer_asked(alloc, row, 2, &Asked::Exposed(sig)),
        Err(_) => String::from_str(alloc, "no-signature"),
    }
}

/// The answer of the row, where it is one of these calls.
pub(crate) fn answer(alloc: Global, row: &Row) -> Result<Option<String>, AllocError> {
    match row.word(0) {
        "state" => given(state(alloc, row)),
        "witnesses" => given(answer_asked(alloc, row, 1, &Asked::Witnesses)),
        "exposed" => given(exposed(alloc, row)),
        "behind" => {
            let place = row.number(1) as usize;
            given(answer_asked(alloc, row, 2, &Asked::Behind(place)))
        }
        _ => Ok(None),
    }
}
