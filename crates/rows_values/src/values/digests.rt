//! Digests.

ghost use Rattle.std.specs.Prelude.{◌<◌, ◌↔◌, IsTrue};
ghost use Rattle.said_digest.specs.Replaced.{LieIn};

use crate::values::codes::hex;
use blake3_hash::{Hasher, digest};
use cesr_codes::{Digest, DigestCode};
use rows::{Row, given};
use said_digest::{digest_of, holds, said_of};
use std::alloc::{AllocError, Global};

/// The code that the word names.
pub(crate) fn code(word: &str) -> DigestCode {
    match word {
        "E" => DigestCode::Blake3,
        _ => DigestCode::Sha256,
    }
}

/// The digest as it is written.
pub(crate) fn spelled(alloc: Global, digest: &Digest) -> Result<String, AllocError> {
    let mut text = [0; 44];
    digest.write(&mut text);
    String::from_utf8_lossy(alloc, &text)
}

fn in_pieces(bytes: &[u8], size: usize) -> [u8; 32]
    requires { 0 < size }
{
    let mut hasher = Hasher::new();
    let mut rest = bytes;
    'pieces: while rest.len() > size {
        let (piece, more) = rest.split_at(size);
        hasher.update(piece);
        rest = more;
    }
    hasher.update(rest);
    hasher.finish()
}

// The bytes 0 to 250 and so on again, so many.
fn counted(alloc: Global, length: u64) -> Result<Vec<u8>, AllocError> {
    let mut bytes = Vec::new(alloc);
    for place in 0..length {
        bytes.push((place % 251) as u8)?;
    }
    Ok(bytes)
}

/// `blake3 LENGTH PIECE`: the digest of the bytes 0 to 250 and so on again, so many, fed in pieces of so many; in one
/// call where PIECE is 0.
fn blake3(alloc: Global, row: &Row) -> Result<String, AllocError> {
    let bytes = counted(alloc, row.number(1))?;
    let found = match row.number(2) {
        0 => digest(bytes.as_slice()),
        piece => in_pieces(bytes.as_slice(), piece as usize),
    };
    hex(alloc, &found)
}

fn lie_in(bytes: &[u8], places: &[u32]) -> bool
    ensures { IsTrue result ↔ LieIn bytes.now places.now }
{
    places
        .iter()
        .all(|place| *place as usize + 44 <= bytes.len())
}

// The places of the word.
fn places(alloc: Global, row: &Row) -> Result<Vec<u32>, AllocError> {
    let numbers = row.numbers(alloc, 2)?;
    let mut places = Vec::new(alloc);
    for place in &numbers {
        places.push(u32::from(*place))?;
    }
    Ok(places)
}

fn said_words(
    alloc: Global,
    code: DigestCode,
    text: &[u8],
    places: &[u32],
) -> Result<String, AllocError> {
    if !lie_in(text, places) {
        return String::from_str(alloc, "no-place");
    }
    let said = said_of(code, text, places);
    let held = holds(text, places, &said);
    let plain = digest_of(code, text) == said;
    let said = spelled(alloc, &said)?;
    format!(in alloc; "{said} {held} {plain}")
}

/// `said CODE PLACE,PLACE TEXT`: the digest of the text with `#` at the places, whether it holds there, and whether it
/// does with nothing replaced.
fn said(alloc: Global, row: &Row) -> Result<String, AllocError> {
    let text = row.bytes(alloc, 3)?;
    let places = places(alloc, row)?;
    said_words(alloc, code(row.word(1)), text.as_slice(), places.as_slice())
}

/// The answer of the row, where it is one of these calls.
pub(crate) fn answer(alloc: Global, row: &Row) -> Result<Option<String>, AllocError> {
    match row.word(0) {
        "blake3" => given(blake3(alloc, row)),
        "said" => given(said(alloc, row)),
        _ => Ok(None),
    }
}
