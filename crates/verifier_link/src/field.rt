//! Fields of a question or an answer, read from a source.
ghost use Rattle.std.specs.Prelude.{◌<◌, ℕ, length, OnOk, IfErr};
ghost use Rattle.verifier_link.specs.Sides.{Gave};
ghost use Rattle.keri_outside.specs.Shown.{source_shown};
ghost use Rattle.verifier_link.specs.Fields.{IsCut, IsShort, IsTaken, SeesMore};

use crate::stop::Stop;
use keri_outside::{Failed, Source};

/// Reads as many bytes as the field has, and none that follow them.
pub(crate) fn read_field<S: Source>(source: &mut S, field: &mut [u8]) -> Result<(), Stop>
    ensures ok { OnOk result (Gave (source_shown S.left S.faults source.old)
        (source_shown S.left S.faults source.new) field.new) }
    ensures err { IfErr result (λ stop. IsShort (length field.old) (source_shown S.left S.faults source.old)
        (source_shown S.left S.faults source.new) stop) }
{
    let mut count = 0;
    while count < field.len() {
        match source.read(&mut field[count..]) {
            Ok(0) => return Err(Stop::Ended),
            Ok(more) => count += more,
            Err(Failed) => return Err(Stop::ReadFault),
        }
    }
    Ok(())
}

/// Reads as many bytes as the field has, where so many may be read yet.
pub(crate) fn take_field<S: Source>(
    source: &mut S,
    room: &mut u64,
    field: &mut [u8],
) -> Result<(), Stop>
    ensures ok { OnOk result (IsTaken room.old room.new (source_shown S.left S.faults source.old)
        (source_shown S.left S.faults source.new) field.new) }
    ensures err { IfErr result (λ stop. IsCut (length field.old) room.old (source_shown S.left S.faults source.old)
        (source_shown S.left S.faults source.new) stop) }
{
    let size = field.len() as u64;
    if *room < size {
        return Err(take_last(source, &mut field[..*room as usize]));
    }
    read_field(source, field)?;
    *room -= size;
    Ok(())
}

// Reads the last bytes that may be read, which are fewer than a field has.
fn take_last<S: Source>(source: &mut S, last: &mut [u8]) -> Stop
    ensures { (size : ℕ) → length last.old < size
        → IsCut size (length last.old) (source_shown S.left S.faults source.old)
        (source_shown S.left S.faults source.new) result }
{
    match read_field(source, last) {
        Ok(()) => see_more(source),
        Err(stop) => stop,
    }
}

// Says whether the source gives more than may be read.
fn see_more<S: Source>(source: &mut S) -> Stop
    ensures { SeesMore (source_shown S.left S.faults source.old) (source_shown S.left S.faults source.new) result }
{
    let mut next = [0u8; 1];
    match source.read(&mut next) {
        Ok(0) => Stop::Ended,
        Ok(_) => Stop::LimitReached,
        Err(Failed) => Stop::ReadFault,
    }
}
