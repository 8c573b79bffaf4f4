//! Primitives: what is read of a text, and how it is written again.

use cesr_codes::{CodeFault, Digest, IndexedSig, Key, Moment, Number, Prefix, Sig};
use rows::{Row, given};
use std::alloc::{AllocError, Global};
use std::fmt::{Debug, Write};

fn refused(alloc: Global, fault: CodeFault) -> Result<String, AllocError> {
    format!(in alloc; "{fault:?}")
}

// What was read, in a word, how many bytes it had, and how it is written.
fn found(alloc: Global, value: &str, length: usize, text: &[u8]) -> Result<String, AllocError> {
    let text = String::from_utf8_lossy(alloc, text)?;
    let text = text.as_str();
    format!(in alloc; "{value} {length} {text}")
}

fn byte_word(text: &mut String, byte: u8) -> Result<(), AllocError> {
    write!(text, "{byte:02x}")
}

/// The bytes in hexadecimal digits.
pub(crate) fn hex(alloc: Global, bytes: &[u8]) -> Result<String, AllocError> {
    let mut text = String::new(alloc);
    for byte in bytes {
        byte_word(&mut text, *byte)?;
    }
    Ok(text)
}

// The code and the raw bytes that were read, how many bytes they had, and how they are written.
fn coded<C: Debug>(
    alloc: Global,
    code: &C,
    raw: &[u8],
    length: usize,
    text: &[u8],
) -> Result<String, AllocError> {
    let raw = hex(alloc, raw)?;
    let raw = raw.as_str();
    let value = format!(in alloc; "{code:?} {raw}")?;
    found(alloc, value.as_str(), length, text)
}

fn key_words(alloc: Global, key: &Key, length: usize) -> Result<String, AllocError> {
    let mut text = [0; 44];
    key.write(&mut text);
    coded(alloc, &key.code, &key.raw, length, &text)
}

/// `key TEXT`
fn key(alloc: Global, row: &Row) -> Result<String, AllocError> {
    let text = row.bytes(alloc, 1)?;
    match Key::read(text.as_slice()) {
        Ok((key, length)) => key_words(alloc, &key, length),
        Err(fault) => refused(alloc, fault),
    }
}

fn digest_words(alloc: Global, digest: &Digest, length: usize) -> Result<String, AllocError> {
    let mut text = [0; 44];
    digest.write(&mut text);
    coded(alloc, &digest.code, &digest.raw, length, &text)
}

/// `digest TEXT`
fn digest(alloc: Global, row: &Row) -> Result<String, AllocError> {
    let text = row.bytes(alloc, 1)?;
    match Digest::read(text.as_slice()) {
        Ok((digest, length)) => digest_words(alloc, &digest, length),
        Err(fault) => refused(alloc, fault),
    }
}

fn prefix_words(alloc: Global, prefix: &Prefix, length: usize) -> Result<String, AllocError> {
    let mut text = [0; 44];
    prefix.write(&mut text);
    match prefix {
        Prefix::Basic(key) => coded(alloc, &key.code, &key.raw, length, &text),
        Prefix::Said(digest) => coded(alloc, &digest.code, &digest.raw, length, &text),
    }
}

/// `prefix TEXT`
fn prefix(alloc: Global, row: &Row) -> Result<String, AllocError> {
    let text = row.bytes(alloc, 1)?;
    match Prefix::read(text.as_slice()) {
        Ok((prefix, length)) => prefix_words(alloc, &prefix, length),
        Err(fault) => refused(alloc, fault),
    }
}

fn sig_words(alloc: Global, sig: &Sig, length: usize) -> Result<String, AllocError> {
    let mut text = [0; 88];
    sig.write(&mut text);
    let raw = hex(alloc, &sig.raw)?;
    found(alloc, raw.as_str(), length, &text)
}

/// `sig TEXT`
fn sig(alloc: Global, row: &Row) -> Result<String, AllocError> {
    let text = row.bytes(alloc, 1)?;
    match Sig::read(text.as_slice()) {
        Ok((sig, length)) => sig_words(alloc, &sig, length),
        Err(fault) => refused(alloc, fault),
    }
}

fn number_words(alloc: Global, number: &Number, length: usize) -> Result<String, AllocError> {
    let mut text = [0; 24];
    number.write(&mut text);
    let value = number.value;
    let value = format!(in alloc; "{value}")?;
    found(alloc, value.as_str(), length, &text)
}

/// `number TEXT`
fn number(alloc: Global, row: &Row) -> Result<String, AllocError> {
    let text = row.bytes(alloc, 1)?;
    match Number::read(text.as_slice()) {
        Ok((number, length)) => number_words(alloc, &number, length),
        Err(fault) => refused(alloc, fault),
    }
}

fn moment_words(alloc: Global, moment: &Moment, length: usize) -> Result<String, AllocError> {
    let mut text = [0; 36];
    moment.write(&mut text);
    let value = String::from_utf8_lossy(alloc, &moment.text)?;
    found(alloc, value.as_str(), length, &text)
}

/// `moment TEXT`
fn moment(alloc: Global, row: &Row) -> Result<String, AllocError> {
    let text = row.bytes(alloc, 1)?;
    match Moment::read(text.as_slice()) {
        Ok((moment, length)) => moment_words(alloc, &moment, length),
        Err(fault) => refused(alloc, fault),
    }
}

/// `new-moment TEXT`: how the date-time is written, or `none`.
fn new_moment(alloc: Global, row: &Row) -> Result<String, AllocError> {
    let bytes = row.bytes(alloc, 1)?;
    let made = match bytes.first_chunk::<32>() {
        Some(text) => Moment::new(*text),
        None => None,
    };
    match made {
        Some(moment) => {
            let mut text = [0; 36];
            moment.write(&mut text);
            String::from_utf8_lossy(alloc, &text)
        }
        None => String::from_str(alloc, "none"),
    }
}

fn form(alloc: Global, sig: &IndexedSig) -> Result<String, AllocError> {
    let size = if sig.big { "big" } else { "small" };
    let index = sig.index;
    match sig.ondex {
        Some(ondex) => format!(in alloc; "{size} {index} {ondex}"),
        None => format!(in alloc; "{size} {index} none"),
    }
}

fn indexed_words(alloc: Global, sig: &IndexedSig, length: usize) -> Result<String, AllocError> {
    let mut text = [0; 92];
    let count = sig.write(&mut text);
    let value = form(alloc, sig)?;
    found(
        alloc,
        value.as_str(),
        length,
        text.get(..count).unwrap_or(&[]),
    )
}

/// `indexed TEXT`
fn indexed(alloc: Global, row: &Row) -> Result<String, AllocError> {
    let text = row.bytes(alloc, 1)?;
    match IndexedSig::read(text.as_slice()) {
        Ok((sig, length)) => indexed_words(alloc, &sig, length),
        Err(fault) => refused(alloc, fault),
    }
}

/// `new-indexed SIZE INDEX ONDEX`, with `none` in the place of a number that isn't there: its form, or `none`.
fn new_indexed(alloc: Global, row: &Row) -> Result<String, AllocError> {
    let index = row.number(2).min(65_535) as u16;
    let ondex = match row.word(3) {
        "none" => None,
        _ => Some(row.number(3).min(65_535) as u16),
    };
    match IndexedSig::new(row.word(1) == "big", index, ondex, Sig { raw: [0; 64] }) {
        Some(sig) => form(alloc, &sig),
        None => String::from_str(alloc, "none"),
    }
}

/// The answer of the row, where it is one of these calls.
pub(crate) fn answer(alloc: Global, row: &Row) -> Result<Option<String>, AllocError> {
    match row.word(0) {
        "key" => given(key(alloc, row)),
        "digest" => given(digest(alloc, row)),
        "prefix" => given(prefix(alloc, row)),
        "sig" => given(sig(alloc, row)),
        "number" => given(number(alloc, row)),
        "moment" => given(moment(alloc, row)),
        "new-moment" => given(new_moment(alloc, row)),
        "indexed" => given(indexed(alloc, row)),
        "new-indexed" => given(new_indexed(alloc, row)),
        _ => Ok(None),
    }
}
