//! Listing and counting.

use crate::opening::open_existing;
use crate::stop::Stop;
use lists::Items;
use std::io;
use std::io::{BufWriter, Write};

/// Writes each payload of the shelf in the file, with a line feed behind it. Writes nothing to the file.
pub(crate) fn list(rt: &HostRuntime, path: &str) -> Result<(), Stop> {
    let shelf = open_existing(rt, path)?;
    let Ok(mut output) = BufWriter::new(rt.alloc(), io::writer(rt)) else {
        return Err(Stop::NoMemory);
    };
    match write_lines(&mut output, shelf.list()) {
        Ok(()) => Ok(()),
        Err(_) => Err(Stop::Output),
    }
}

fn write_lines<W: Write>(output: &mut W, list: &[Items<u8>]) -> io::Result<()> {
    for payload in list {
        output.write_all(payload.as_slice())?;
        output.write_all(b"\n")?;
    }
    output.flush()
}

/// Writes how many payloads the shelf in the file has. Writes nothing to the file.
pub(crate) fn count(rt: &HostRuntime, path: &str) -> Result<(), Stop> {
    let shelf = open_existing(rt, path)?;
    match rt.println(shelf.list().len()) {
        Ok(()) => Ok(()),
        Err(_) => Err(Stop::Output),
    }
}
