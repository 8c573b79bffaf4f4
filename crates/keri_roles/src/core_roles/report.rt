//! The report of `validate`.
ghost use Rattle.std.specs.Prelude.{◌≡◌, ◌≢◌, ◌+◌, ◌++◌, ◌≤◌, IfOk, OnOk, length, map, string_bytes};
ghost use Rattle.std.specs.List.{All};
ghost use Rattle.run_status.specs.RunStatus.Readers.{reader_seen};
ghost use Rattle.keri_roles.specs.CoreRoles.CommandTexts.{HasText};
ghost use Rattle.keri_roles.specs.CoreRoles.Reports.{Reports, malformed_line, refusal_lines, refused_lines, stopped_line, stopped_lines};

use crate::core_roles::core_text::CommandText;
use crate::core_roles::{Close, ReaderEnd};
use journal::Refusal;
use keri_outside::{Source, Verifier};
use reader_hub::LastRound;
use report_lines::{
    CoreStanding, full_line, malformed_line, read_fault_line, refused_line, standing_of,
    verifier_fault_line,
};
use std::alloc::{AllocError, Global};
use validator_core::Core;

/// The report: what the readers refused, how the core stands, and what ended the readers. There is none where one ended for want
/// of memory.
pub(crate) fn report_of<S: Source, V: Verifier>(
    alloc: Global,
    core: &Core,
    readers: &[ReaderEnd<S, V>],
    rest: LastRound,
) -> Result<CommandText, AllocError>
    requires few { length readers.now ≤ 65535 }
    ensures { IfOk result (HasText Reports core.now
        (map (reader_seen S.left S.faults V.says V.inquiries V.faults) readers.now) rest) }
{
    if rest == LastRound::OutOfMemory {
        return Err(AllocError);
    }
    let mut text = String::new(alloc);
    push_refusals(alloc, 0, readers, &mut text)?;
    let CoreStanding {
        text: standing,
        has_conflicts: is_found,
    } = standing_of(alloc, core)?;
    text.push_str(standing.as_str())?;
    push_stops(alloc, 0, readers, &mut text)?;
    Ok(CommandText {
        bytes: text.into_bytes(),
        is_found,
    })
}

// Adds, of each of these readers, the lines of what it refused, and of its stream where that is refused. The first of them has
// this number.
fn push_refusals<S: Source, V: Verifier>(
    alloc: Global,
    number: u16,
    readers: &[ReaderEnd<S, V>],
    text: &mut String,
) -> Result<(), AllocError>
    requires few { number + length readers.now ≤ 65535 }
    ensures { OnOk result (string_bytes text.new ≡ string_bytes text.old
        ++ refusal_lines number (map (reader_seen S.left S.faults V.says V.inquiries V.faults) readers.now)) }
{
    let Some((first, others)) = readers.split_first() else {
        return Ok(());
    };
    let refused = refused_text(alloc, number, first.refused.as_slice())?;
    let malformed = malformed_text(alloc, number, first.close)?;
    text.push_str(refused.as_str())?;
    text.push_str(malformed.as_str())?;
    push_refusals(alloc, number + 1, others, text)
}

// Adds, of each of these readers that a fault or a limit ended, the line of that. There is none where one found no memory.
fn push_stops<S: Source, V: Verifier>(
    alloc: Global,
    number: u16,
    readers: &[ReaderEnd<S, V>],
    text: &mut String,
) -> Result<(), AllocError>
    requires few { number + length readers.now ≤ 65535 }
    ensures lines { OnOk result (string_bytes text.new ≡ string_bytes text.old
        ++ stopped_lines number (map (reader_seen S.left S.faults V.says V.inquiries V.faults) readers.now)) }
    ensures had_memory { OnOk result (All (λ reader. reader.close ≢ Close.OutOfMemory)
        (map (reader_seen S.left S.faults V.says V.inquiries V.faults) readers.now)) }
{
    let Some((first, others)) = readers.split_first() else {
        return Ok(());
    };
    let stopped = stopped_text(alloc, number, first.close)?;
    text.push_str(stopped.as_str())?;
    push_stops(alloc, number + 1, others, text)
}

// The lines of the refused messages.
fn refused_text(alloc: Global, number: u16, refused: &[Refusal]) -> Result<String, AllocError>
    ensures { IfOk result (λ text. string_bytes text ≡ refused_lines number refused.now) }
{
    let mut text = String::new(alloc);
    for refusal in refused {
        let line = refused_line(alloc, number, refusal.place, refusal.reason)?;
        text.push_str(line.as_str())?;
    }
    Ok(text)
}

// The line of a stream that is refused, where it is.
fn malformed_text(alloc: Global, number: u16, close: Close) -> Result<String, AllocError>
    ensures { IfOk result (λ text. string_bytes text ≡ malformed_line number close) }
{
    match close {
        Close::Bad(bad) => malformed_line(alloc, number, bad),
        _ => Ok(String::new(alloc)),
    }
}

// The line of what ended the reader, where it wasn't its stream. There is none where there was no memory.
fn stopped_text(alloc: Global, number: u16, close: Close) -> Result<String, AllocError>
    ensures { IfOk result (λ text. (close ≢ Close.OutOfMemory) × (string_bytes text ≡ stopped_line number close)) }
{
    match close {
        Close::ReadFault => read_fault_line(alloc, number),
        Close::VerifierFault => verifier_fault_line(alloc, number),
        Close::LimitReached => full_line(alloc, number),
        Close::OutOfMemory => Err(AllocError),
        Close::End
        | Close::Bad(_)
        | Close::SignerFault
        | Close::DiskFault
        | Close::WriteFault
        | Close::Malformed(_) => Ok(String::new(alloc)),
    }
}
