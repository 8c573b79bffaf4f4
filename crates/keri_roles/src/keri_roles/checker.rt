//! The messages that `check` reads.
ghost use Rattle.std.specs.Prelude.{◌≡◌, ◌++◌, [], IfOk, OnOk, string_bytes};
ghost use Rattle.journal.specs.Journal.Feeds.{noted_at};
ghost use Rattle.keri_roles.specs.KeriRoles.Closes.{ending_text};

use crate::keri_roles::Close;
use crate::keri_roles::message_line::line_of_message;
use cesr_stream::Message;
use journal::{Reason, Refusal};
use report_lines::{full_line, malformed_line, read_fault_line};
use run_status::{FeedClose, Taker};
use std::alloc::{AllocError, Global};

/// The lines of the messages so far, and the refusals among them.
#[derive(Drop)]
pub(crate) struct Checker {
    pub(crate) alloc: Global,
    pub(crate) lines: String,
    pub(crate) refused: Vec<Refusal>,
}

impl Taker for Checker {
    ghost use Rattle.keri_roles.specs.KeriRoles.Checker.{HasLinesOf};

    type Stop = AllocError;

    ghost has_taken = { λ first checker messages. HasLinesOf checker messages };

    ghost has_stopped = { λ first checker stop messages. Unit {0} };

    fn take(&mut self, message: Message) -> Result<(), AllocError> {
        self.add_line(message)
    }
}

impl Checker {
    ghost use Rattle.keri_roles.specs.KeriRoles.Checker.{AddsLine, Finishes, IsClose};

    /// No line yet.
    pub(crate) fn new(alloc: Global) -> Checker
        ensures lines { string_bytes result.lines ≡ [] }
        ensures refused { result.refused.items ≡ [] }
    {
        Checker {
            alloc,
            lines: String::new(alloc),
            refused: Vec::new(alloc),
        }
    }

    // Adds the line of a message, and notes it where it is refused.
    fn add_line(&mut self, message: Message) -> Result<(), AllocError>
        ensures { OnOk result (AddsLine self.old self.new message) }
    {
        let line = line_of_message(self.alloc, &message)?;
        note(&mut self.refused, &message, line.refusal)?;
        self.lines.push_str(line.text.as_str())?;
        Ok(())
    }

    /// Adds the line of the last message, where there is one, and that of how reading closed.
    pub(crate) fn finish(
        &mut self,
        close: FeedClose<AllocError>,
        last: Option<Message>,
    ) -> Result<Close, AllocError>
        ensures { IfOk result (λ now. IsClose close now × Finishes now last self.old self.new) }
    {
        let close = match close {
            FeedClose::End => Close::End,
            FeedClose::Bad(bad) => Close::Bad(bad),
            FeedClose::ReadFault => Close::ReadFault,
            FeedClose::LimitReached => Close::LimitReached,
            FeedClose::OutOfMemory | FeedClose::Stopped(AllocError) => return Err(AllocError),
        };
        if let Some(message) = last {
            self.add_line(message)?;
        }
        let ending = end_line(self.alloc, close)?;
        self.lines.push_str(ending.as_str())?;
        Ok(close)
    }
}

// Notes that a message was refused, where it was.
fn note(
    refused: &mut Vec<Refusal>,
    message: &Message,
    refusal: Option<Reason>,
) -> Result<(), AllocError>
    ensures { OnOk result (refused.new.items ≡ refused.old.items ++ noted_at message.now.place refusal) }
{
    if let Some(reason) = refusal {
        let place = message.place;
        refused.push(Refusal { place, reason })?;
    }
    Ok(())
}

// The line of how reading closed, where there is one.
fn end_line(alloc: Global, close: Close) -> Result<String, AllocError>
    ensures { IfOk result (λ line. string_bytes line ≡ ending_text 0 close) }
{
    match close {
        Close::Bad(bad) => malformed_line(alloc, 0, bad),
        Close::ReadFault => read_fault_line(alloc, 0),
        Close::LimitReached => full_line(alloc, 0),
        Close::End
        | Close::VerifierFault
        | Close::SignerFault
        | Close::DiskFault
        | Close::WriteFault
        | Close::Malformed(_)
        | Close::OutOfMemory => Ok(String::new(alloc)),
    }
}
