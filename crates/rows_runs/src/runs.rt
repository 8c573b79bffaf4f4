//! Runs: the one call that does all that the program `keri` does, over an outside in memory.
mod outside_text;

use crate::disks::LIMIT;
use keri_outside::{MemSink, MemSource, MemVerifier};
use keri_roles::{Close, Done, ReaderEnd, run};
use outside_text::{awaited, outside_of};
use rows::{Row, given};
use run_status::{Making, MemOutside, Outside};
use std::alloc::{AllocError, Global};
use std::fmt::Write;
use std::sync::Wait;
use std::thread::Threads;

// The words of the command line, with a comma between two of them.
fn words_of(alloc: Global, row: &Row) -> Result<Vec<String>, AllocError> {
    let mut words = Vec::new(alloc);
    for word in row.word(1).split(',') {
        words.push(String::from_str(alloc, word)?)?;
    }
    Ok(words)
}

// Runs the words. The contract of what it calls is left behind here, since it makes each proof above it longer.
fn run_words<R: Threads + Wait + Sync, O: Outside>(
    rt: &R,
    alloc: Global,
    words: &Vec<String>,
    outside: &mut O,
) -> Done<O> {
    run(rt, alloc, words, outside)
}

fn close_word(text: &mut String, close: Close) -> Result<(), AllocError> {
    match close {
        Close::LimitReached => write!(text, " {LIMIT}"),
        _ => write!(text, " {close:?}"),
    }
}

fn close_words(
    text: &mut String,
    readers: &[ReaderEnd<MemSource, MemVerifier>],
) -> Result<(), AllocError> {
    for reader in readers {
        close_word(text, reader.close)?;
    }
    Ok(())
}

fn making_word(text: &mut String, making: &Making) -> Result<(), AllocError> {
    let kind = making.kind;
    let mark = if making.failed { "!" } else { "" };
    write!(text, " {kind:?}{mark}")
}

fn making_words(text: &mut String, makings: &[Making]) -> Result<(), AllocError> {
    for making in makings {
        making_word(text, making)?;
    }
    Ok(())
}

// The status, and how many messages and verdicts were told.
fn status_words(text: &mut String, done: &Done<MemOutside>) -> Result<(), AllocError> {
    let (status, told) = (done.status, done.journal.entries.len());
    write!(text, "= {status} told={told}")
}

// How many bytes each link was sent.
fn link_words(text: &mut String, sinks: &[MemSink]) -> Result<(), AllocError> {
    for sink in sinks {
        let length = sink.bytes().len();
        write!(text, " link={length}")?;
    }
    Ok(())
}

// Whether the readers met, where the row says that some should.
fn meeting_word(text: &mut String, row: &Row, outside: &MemOutside) -> Result<(), AllocError> {
    if awaited(row) == 0 {
        return Ok(());
    }
    let met = if outside.gate().all_met() {
        "yes"
    } else {
        "no"
    };
    write!(text, " met={met}")
}

// What is written, and right behind it `=`, the status, how many messages and verdicts were told, how each reader closed, each
// making, with a `!` where it failed, how many bytes each link was sent, and whether the readers met.
fn told(
    alloc: Global,
    row: &Row,
    outside: &MemOutside,
    done: &Done<MemOutside>,
) -> Result<String, AllocError> {
    let mut text = String::from_utf8_lossy(alloc, outside.sink().bytes())?;
    status_words(&mut text, done)?;
    close_words(&mut text, done.readers.as_slice())?;
    making_words(&mut text, outside.makings())?;
    link_words(&mut text, done.sinks.as_slice())?;
    meeting_word(&mut text, row, outside)?;
    Ok(text)
}

/// `run WORD,WORD.. NAME VALUE..`: what the words come to over the outside of the row. That and what the run hands back are let go
/// by `drop`, which takes less to prove than at each way out.
fn ran<R: Threads + Wait + Sync>(rt: &R, alloc: Global, row: &Row) -> Result<String, AllocError> {
    let words = words_of(alloc, row)?;
    let mut outside = outside_of(alloc, row)?;
    let done = run_words(rt, alloc, &words, &mut outside);
    let text = told(alloc, row, &outside, &done);
    drop(done);
    drop(outside);
    text
}

/// The answer of the row, where it is a run.
pub(crate) fn answer<R: Threads + Wait + Sync>(
    rt: &R,
    alloc: Global,
    row: &Row,
) -> Result<Option<String>, AllocError> {
    match row.word(0) {
        "run" => given(ran(rt, alloc, row)),
        _ => Ok(None),
    }
}
