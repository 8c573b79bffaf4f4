//! Appending the lines of standard input.
ghost use Rattle.shelf_log.specs.ShelfLog.Format.{IsSized};
ghost use Rattle.shelf_log.specs.declared.shelf_log.version.Version.TheVariants.{Two};

use crate::opening::open_or_create;
use crate::stop::Stop;
use disk_file::FileDisk;
use shelf_log::Shelf;
use std::io::{BufRead, BufReader, ErrorKind};

/// The greatest length of a payload, in bytes.
const MOST: usize = 524_288;

/// Appends each line of standard input to the shelf in the file, and says `stored N` once it is there, where the whole list
/// has N payloads. A line that is no payload is named and left out.
pub(crate) fn append(rt: &HostRuntime, path: &str) -> Result<(), Stop> {
    let mut shelf = open_or_create(rt, path)?;
    let Ok(mut input) = BufReader::new(rt.alloc(), rt.stdin()) else {
        return Err(Stop::NoMemory);
    };
    let mut line = Vec::new(rt.alloc());
    let mut left_out = false;
    for number in 1..u64::MAX {
        if !next_line(&mut input, &mut line)? {
            break;
        }
        match line.len() {
            0 => {
                left_out = true;
                let _ = eprintln!(rt; "line {number} is empty");
            }
            1..=MOST => store(rt, &mut shelf, line.as_slice())?,
            _ => {
                left_out = true;
                let _ = eprintln!(rt; "line {number} has over {MOST} bytes");
            }
        }
    }
    if left_out {
        return Err(Stop::Lines);
    }
    Ok(())
}

// Reads the next line, without its line feed; false at the end of input.
fn next_line<R: BufRead>(input: &mut R, line: &mut Vec<u8>) -> Result<bool, Stop> {
    line.clear();
    match input.read_until(b'\n', line) {
        Ok(0) => Ok(false),
        Ok(_) => {
            if line.last() == Some(&b'\n') {
                let _ = line.pop();
            }
            Ok(true)
        }
        Err(error) if error.kind() == ErrorKind::OutOfMemory => Err(Stop::NoMemory),
        Err(_) => Err(Stop::Input),
    }
}

// Appends a payload, and says so.
fn store(rt: &HostRuntime, shelf: &mut Shelf<FileDisk>, payload: &[u8]) -> Result<(), Stop>
    requires { IsSized Two payload.now }
{
    shelf.append(payload)?;
    say_stored(rt, shelf)
}

/// Says how many payloads the shelf has.
pub(crate) fn say_stored(rt: &HostRuntime, shelf: &Shelf<FileDisk>) -> Result<(), Stop> {
    let count = shelf.list().len();
    match println!(rt; "stored {count}") {
        Ok(()) => Ok(()),
        Err(_) => Err(Stop::Output),
    }
}
