//! Lines of a reader, each with its line feed. Readers are counted from 0.
ghost use Rattle.std.specs.Prelude.{◌≡◌, IfOk, string_bytes};
ghost use Rattle.report_lines.specs.Lines.{full_text, malformed_text, read_fault_text, refused_text, verifier_fault_text};

use crate::bad_word::BadWord;
use crate::reason_word::ReasonWord;
use cesr_stream::Bad;
use journal::Reason;
use std::alloc::{AllocError, Global};

/// The line of a message that a reader refuses: its number, the message's place in the stream, and why.
pub fn refused_line(
    alloc: Global,
    reader: u16,
    place: u64,
    reason: Reason,
) -> Result<String, AllocError>
    ensures { IfOk result (λ line. string_bytes line ≡ refused_text reader place reason) }
{
    let word = ReasonWord(reason);
    format!(in alloc; "refused {reader} {place} {word}\n")
}

/// The line of a reader whose stream breaks a rule of the framing.
pub fn malformed_line(alloc: Global, reader: u16, bad: Bad) -> Result<String, AllocError>
    ensures { IfOk result (λ line. string_bytes line ≡ malformed_text reader bad) }
{
    let place = bad.place;
    let word = BadWord(bad.reason);
    format!(in alloc; "malformed {reader} {place} {word}\n")
}

/// The line of a reader whose source failed.
pub fn read_fault_line(alloc: Global, reader: u16) -> Result<String, AllocError>
    ensures { IfOk result (λ line. string_bytes line ≡ read_fault_text reader) }
{
    format!(in alloc; "fault {reader} read\n")
}

/// The line of a reader whose verifier failed.
pub fn verifier_fault_line(alloc: Global, reader: u16) -> Result<String, AllocError>
    ensures { IfOk result (λ line. string_bytes line ≡ verifier_fault_text reader) }
{
    format!(in alloc; "fault {reader} verifier\n")
}

/// The line of a reader that a limit ended.
pub fn full_line(alloc: Global, reader: u16) -> Result<String, AllocError>
    ensures { IfOk result (λ line. string_bytes line ≡ full_text reader) }
{
    format!(in alloc; "full {reader}\n")
}
