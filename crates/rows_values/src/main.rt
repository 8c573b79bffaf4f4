//! The program of rows of values: each line of standard input names a library call with its arguments, and is answered by a
//! line of what the call gives. The calls are those of values, of streams and of events; no two have one name, and none knows of
//! another. Lines that name no call are written as they are. The lines that must come out are made by tests/rows, never by this
//! program.
#![tactic(auto)]

mod events;
mod streams;
mod values;

use anyhow::Result;
use rows::Row;
use std::alloc::{AllocError, Global};
use std::io;

// The answer of the first part of the library that has the call.
fn called(alloc: Global, row: &Row) -> Result<Option<String>, AllocError> {
    if let Some(answer) = values::answer(alloc, row)? {
        return Ok(Some(answer));
    }
    if let Some(answer) = streams::answer(alloc, row)? {
        return Ok(Some(answer));
    }
    events::answer(alloc, row)
}

// What the line is answered by.
fn answer(alloc: Global, line: &str) -> Result<String, AllocError> {
    let row = Row::of(alloc, line)?;
    let called = called(alloc, &row);
    drop(row);
    match called? {
        Some(answer) => Ok(answer),
        None => String::from_str(alloc, line),
    }
}

fn main(rt: HostRuntime) -> Result<()> {
    let alloc = rt.alloc();
    let text = io::read_to_string(alloc, &mut rt.reader())?;
    for line in text.as_str().lines() {
        rt.println(answer(alloc, line)?)?;
    }
    Ok(())
}
