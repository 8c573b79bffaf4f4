//! Witnesses that back an event, seals, and numbers of receipts that bind.

use crate::events::event::kept_event;
use crate::values::spelled;
use cesr_codes::{Digest, Key, KeyCode, Prefix};
use event_backing::{Backers, EventSeal, holds_seal_of, seals};
use event_body::Event;
use quorum_laws::{binds, union_size};
use rows::{Row, given};
use std::alloc::{AllocError, Global};
use std::fmt::Write;

/// The keys of the word, with a comma between two of them.
pub(crate) fn keys(alloc: Global, row: &Row, place: usize) -> Result<Vec<Key>, AllocError> {
    let mut keys = Vec::new(alloc);
    for word in row.word(place).split(',') {
        if let Ok((key, _)) = Key::read(word.as_bytes()) {
            keys.push(key)?;
        }
    }
    Ok(keys)
}

fn added_word(text: &mut String, is_new: bool) -> Result<(), AllocError> {
    write!(text, "{is_new} ")
}

fn count_word(text: &mut String, count: u16) -> Result<(), AllocError> {
    write!(text, "{count}")
}

// Whether each key is a member that wasn't added before, and how many were.
fn added_words(text: &mut String, backers: &mut Backers, keys: &[Key]) -> Result<(), AllocError> {
    for key in keys {
        added_word(text, backers.add(key))?;
    }
    count_word(text, backers.count())
}

// What is said of each key of a list of witnesses; or `none`, where no witnesses are listed so.
fn backed(alloc: Global, list: &[Key], added: &[Key]) -> Result<String, AllocError> {
    if list.len() > 65_535 {
        return String::from_str(alloc, "too-many");
    }
    let mut text = String::new(alloc);
    match Backers::of(alloc, list)? {
        Some(mut backers) => added_words(&mut text, &mut backers, added)?,
        None => text.push_str("none")?,
    }
    Ok(text)
}

/// `backers KEY,KEY KEY,KEY`: whether each further key is a member that wasn't added before, and how many were; or
/// `none`, where no witnesses are listed so.
fn backers(alloc: Global, row: &Row) -> Result<String, AllocError> {
    let (list, added) = (keys(alloc, row, 1)?, keys(alloc, row, 2)?);
    backed(alloc, list.as_slice(), added.as_slice())
}

fn seal_word(
    alloc: Global,
    text: &mut String,
    seal: &EventSeal,
    own: bool,
) -> Result<(), AllocError> {
    let said = spelled(alloc, &seal.said)?;
    let sn = seal.sn;
    write!(text, "{sn} {said} {own} ")
}

fn own_seal_word(
    alloc: Global,
    text: &mut String,
    seal: &EventSeal,
    event: &Event,
) -> Result<(), AllocError> {
    let own = seal.prefix == event.prefix();
    seal_word(alloc, text, seal, own)
}

fn seals_words(alloc: Global, event: &Event) -> Result<String, AllocError> {
    let held = seals(alloc, event)?;
    let mut text = String::new(alloc);
    for seal in held.as_slice() {
        own_seal_word(alloc, &mut text, seal, event)?;
    }
    Ok(text)
}

/// `seals TEXT`: the number and the digest of each event seal of the event, and whether it names the event's own
/// identifier.
fn seals_of(alloc: Global, row: &Row) -> Result<String, AllocError> {
    let bytes = row.bytes(alloc, 1)?;
    match kept_event(alloc, bytes.as_slice()) {
        Ok(event) => {
            let words = seals_words(alloc, &event);
            drop(event);
            words
        }
        Err(_) => String::from_str(alloc, "no-event"),
    }
}

fn bool_word(alloc: Global, value: bool) -> Result<String, AllocError> {
    format!(in alloc; "{value}")
}

fn held_word(
    alloc: Global,
    row: &Row,
    prefix: &Prefix,
    said: &Digest,
) -> Result<String, AllocError> {
    let bytes = row.bytes(alloc, 4)?;
    match kept_event(alloc, bytes.as_slice()) {
        Ok(event) => {
            let anchored = holds_seal_of(&event, prefix, row.number(2), said);
            drop(event);
            bool_word(alloc, anchored)
        }
        Err(_) => String::from_str(alloc, "no-event"),
    }
}

/// `anchors PREFIX NUMBER DIGEST TEXT`: whether the event holds this seal.
fn anchored(alloc: Global, row: &Row) -> Result<String, AllocError> {
    let (prefix, said) = (row.bytes(alloc, 1)?, row.bytes(alloc, 3)?);
    match Prefix::read(prefix.as_slice()) {
        Ok((prefix, _)) => anchored_by(alloc, row, &prefix, said.as_slice()),
        Err(_) => String::from_str(alloc, "no-prefix"),
    }
}

fn anchored_by(
    alloc: Global,
    row: &Row,
    prefix: &Prefix,
    said: &[u8],
) -> Result<String, AllocError> {
    match Digest::read(said) {
        Ok((said, _)) => held_word(alloc, row, prefix, &said),
        Err(_) => String::from_str(alloc, "no-digest"),
    }
}

// The witnesses of the numbers of the word.
fn listed(alloc: Global, row: &Row, place: usize) -> Result<Vec<Key>, AllocError> {
    let numbers = row.numbers(alloc, place)?;
    let mut keys = Vec::new(alloc);
    for number in &numbers {
        keys.push(Key {
            code: KeyCode::Fixed,
            raw: [(*number).min(255) as u8; 32],
        })?;
    }
    Ok(keys)
}

// How many different witnesses there are, and whether so many receipts bind both to one event.
fn bound(alloc: Global, row: &Row, first: &[Key], second: &[Key]) -> Result<String, AllocError> {
    if first.len() > 64 || second.len() > 64 {
        return String::from_str(alloc, "too-many");
    }
    let (one, other, faulty) = (
        row.number(2).min(64),
        row.number(4).min(64),
        row.number(5).min(64),
    );
    let union = union_size(first, second);
    let bound = binds(first, one, second, other, faulty);
    format!(in alloc; "{union} {bound}")
}

/// `binds WITNESSES RECEIPTS WITNESSES RECEIPTS FAULTY`: how many different witnesses there are, and whether so many
/// receipts bind both to one event.
fn binds_of(alloc: Global, row: &Row) -> Result<String, AllocError> {
    let (first, second) = (listed(alloc, row, 1)?, listed(alloc, row, 3)?);
    bound(alloc, row, first.as_slice(), second.as_slice())
}

/// The answer of the row, where it is one of these calls.
pub(crate) fn answer(alloc: Global, row: &Row) -> Result<Option<String>, AllocError> {
    match row.word(0) {
        "backers" => given(backers(alloc, row)),
        "seals" => given(seals_of(alloc, row)),
        "anchors" => given(anchored(alloc, row)),
        "binds" => given(binds_of(alloc, row)),
        _ => Ok(None),
    }
}
