//! Whole reads and writes at a place of a file.
ghost use Rattle.std.specs.Prelude.{◌≡◌, ◌+◌, ◌^◌, ◌<◌, ◌≤◌, [], length, take, IfOk, OnErr};
ghost use Rattle.disk_file.specs.Calls.{Passes, PassesAll};
ghost use Rattle.disk_file.specs.declared.file_call.FileCall.TheVariants.{Read, Wrote};

use crate::RawFile;
use crate::size_limit::file_size_limit;
use keri_outside::Failed;
use std::io::ErrorKind;

/// A call that a signal interrupted is tried again, up to so many times in all, before it counts as a fault.
const ATTEMPTS: usize = 1_000;

/// Fills the buffer with the bytes from a place on. A file that ends before is a fault, and so is a place from 2^63 on.
pub(crate) fn read_all<F: RawFile>(file: &mut F, place: u64, buf: &mut [u8]) -> Result<(), Failed>
    ensures { PassesAll Read place buf.new (F.calls file.old) (F.calls file.new) result }
{
    if place.checked_add(buf.len() as u64).is_none() {
        return Err(Failed);
    }
    let mut done = 0;
    while done < buf.len() {
        done += read_some(file, place + done as u64, &mut buf[done..])?;
    }
    Ok(())
}

/// Writes the bytes from a place on. Where they would reach behind the greatest size that a file may have, nothing is
/// written, and that is a fault: a write there would end the program.
pub(crate) fn write_all<F: RawFile>(file: &mut F, place: u64, bytes: &[u8]) -> Result<(), Failed>
    ensures { PassesAll Wrote place bytes.now (F.calls file.old) (F.calls file.new) result }
{
    match place.checked_add(bytes.len() as u64) {
        Some(end) if end <= file_size_limit() => {}
        _ => return Err(Failed),
    }
    let mut done = 0;
    while done < bytes.len() {
        done += write_some(file, place + done as u64, &bytes[done..])?;
    }
    Ok(())
}

// Reads one byte or more to the front of the buffer, and says how many.
fn read_some<F: RawFile>(file: &mut F, place: u64, buf: &mut [u8]) -> Result<usize, Failed>
    ensures some { IfOk result (λ count. 0 < count) }
    ensures most { IfOk result (λ count. count ≤ length buf.new) }
    ensures passes { IfOk result (λ count. Passes Read place (take count buf.new) (F.calls file.old) (F.calls file.new)) }
    ensures none { OnErr result (Passes Read place [] (F.calls file.old) (F.calls file.new)) }
{
    for _ in 0..ATTEMPTS {
        match file.read_at(place, buf) {
            Ok(0) => break,
            Ok(count) => return Ok(count),
            Err(error) if error.kind() == ErrorKind::Interrupted => {}
            Err(_) => break,
        }
    }
    Err(Failed)
}

// Writes one byte or more from the front, and says how many.
fn write_some<F: RawFile>(file: &mut F, place: u64, bytes: &[u8]) -> Result<usize, Failed>
    ensures some { IfOk result (λ count. 0 < count) }
    ensures most { IfOk result (λ count. count ≤ length bytes.now) }
    ensures passes { IfOk result (λ count. Passes Wrote place (take count bytes.now) (F.calls file.old) (F.calls file.new)) }
    ensures none { OnErr result (Passes Wrote place [] (F.calls file.old) (F.calls file.new)) }
{
    for _ in 0..ATTEMPTS {
        match file.write_at(place, bytes) {
            Ok(0) => break,
            Ok(count) => return Ok(count),
            Err(error) if error.kind() == ErrorKind::Interrupted => {}
            Err(_) => break,
        }
    }
    Err(Failed)
}
