//! The program of rows of runs: the calls of one core after another, of one shelf, and of one witness, and the one call that does
//! all that the program `keri` does. Each line of standard input names a call with its arguments, and is answered by what it
//! gives, in a line; of a run by all that it writes, and how it ended. Some names stand for a call of a shelf and another one of a witness: a line
//! `in core`, `in shelf`, `in witness` or `in runs` says of which the rows behind it are, up to the next such line. Lines that name no call are
//! written as they are. The lines that must come out are made by tests/rows, never by this program.
#![tactic(auto)]

mod cores;
mod disks;
mod runs;
mod sessions;
mod shelves;
mod witnesses;

use anyhow::Result;
use rows::Row;
use sessions::Sessions;
use std::alloc::{AllocError, Global};
use std::io::{self, Print};
use std::sync::Wait;
use std::thread::Threads;

// What the line is answered by.
fn answer<R: Threads + Wait + Sync>(
    rt: &R,
    alloc: Global,
    sessions: &mut Sessions,
    line: &str,
) -> Result<String, AllocError> {
    let row = Row::of(alloc, line)?;
    let called = sessions.answer(rt, alloc, &row);
    drop(row);
    match called? {
        Some(answer) => Ok(answer),
        None => String::from_str(alloc, line),
    }
}

// Answers each line of the text.
fn answer_lines<R: Threads + Wait + Sync + Print>(
    rt: &R,
    alloc: Global,
    sessions: &mut Sessions,
    text: &str,
) -> Result<()> {
    for line in text.lines() {
        rt.println(answer(rt, alloc, sessions, line)?)?;
    }
    Ok(())
}

fn main(rt: HostRuntime) -> Result<()> {
    let alloc = rt.alloc();
    let text = io::read_to_string(alloc, &mut rt.reader())?;
    let mut sessions = Sessions::new(alloc);
    let answered = answer_lines(&rt, alloc, &mut sessions, text.as_str());
    sessions.end();
    answered
}
