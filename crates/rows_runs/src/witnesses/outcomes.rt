//! What becomes of messages.

use crate::disks::LIMIT;
use crate::witnesses::session::{Held, Session};
use cesr_stream::Message;
use keri_outside::{MemSigner, MemVerifier};
use rows::{Row, bytes_words, message_of};
use shelf_log::MemDisk;
use std::alloc::{AllocError, Global};
use std::fmt::Write;
use witness_core::{Fate, Outcome, Receipt, Witness, WitnessFault};

// Takes the message. The contract of what it calls is left behind here, since it makes each proof above it longer.
fn take_message(
    witness: &mut Witness<MemDisk>,
    message: &Message,
    verifier: &mut MemVerifier,
    signer: &mut MemSigner,
) -> Result<Outcome, WitnessFault> {
    witness.take(message, verifier, signer)
}

fn fate_word(alloc: Global, fate: Fate) -> Result<String, AllocError> {
    match fate {
        Fate::Stored { listed: true } => String::from_str(alloc, "Stored listed"),
        Fate::Stored { listed: false } => String::from_str(alloc, "Stored"),
        Fate::Waits(why) => format!(in alloc; "Waits {why:?}"),
        Fate::Seen(said) => format!(in alloc; "Seen {said}"),
        Fate::NotAnEvent => String::from_str(alloc, "NotAnEvent"),
        Fate::Refused(reason) => format!(in alloc; "Refused {reason:?}"),
    }
}

fn receipt_words(text: &mut String, receipt: &Receipt) -> Result<(), AllocError> {
    let event = receipt.event;
    write!(text, " {event}")?;
    bytes_words(text, receipt.bytes.as_slice())
}

// The fate, and of each receipt the digest of its event, its size and its bytes.
fn outcome_text(alloc: Global, outcome: &Outcome) -> Result<String, AllocError> {
    let mut text = fate_word(alloc, outcome.fate)?;
    for receipt in outcome.receipts.as_slice() {
        receipt_words(&mut text, receipt)?;
    }
    Ok(text)
}

// What was answered, but for want of memory.
fn answer_text(
    alloc: Global,
    answered: Result<Outcome, WitnessFault>,
) -> Result<String, AllocError> {
    match answered {
        Ok(outcome) => outcome_text(alloc, &outcome),
        Err(WitnessFault::OutOfMemory) => Err(AllocError),
        Err(WitnessFault::LimitReached) => String::from_str(alloc, LIMIT),
        Err(fault) => format!(in alloc; "{fault:?}"),
    }
}

// What becomes of the message.
fn told(session: &mut Session, message: &Message) -> Result<String, AllocError> {
    match &mut session.held {
        Held::Witness(witness) => answer_text(
            session.alloc,
            take_message(witness, message, &mut session.verifier, &mut session.signer),
        ),
        _ => String::from_str(session.alloc, "no-witness"),
    }
}

/// `take TEXT`: what becomes of the message.
pub(crate) fn take(session: &mut Session, row: &Row) -> Result<String, AllocError> {
    let text = row.bytes(session.alloc, 1)?;
    match message_of(session.alloc, text.as_slice())? {
        Some(message) => told(session, &message),
        None => String::from_str(session.alloc, "no-message"),
    }
}
