//! What the calls of a witness are given.
ghost use Rattle.std.specs.Prelude.{◌≤◌};

use crate::disks::failing_of;
use crate::witnesses::session::Session;
use cesr_codes::Key;
use keri_outside::{Limits, MemSigner, MemVerifier, VerdictRule};
use lists::Items;
use rows::Row;
use std::alloc::{AllocError, Global};

// The number behind the name, or this one where there is none or a greater one.
fn lowered(row: &Row, name: &str, most: u32) -> u32
    ensures { result ≤ most }
{
    for place in 2..row.len() {
        if row.word(place - 1) == name {
            return row.number(place).min(u64::from(most)) as u32;
        }
    }
    most
}

/// `limits NAME NUMBER..`: those of the program, each lowered to its number.
pub(crate) fn limits(session: &mut Session, row: &Row) -> Result<String, AllocError> {
    let mut limits = Limits::standard();
    limits.messages = lowered(row, "messages", limits.messages);
    limits.body_bytes = lowered(row, "body_bytes", limits.body_bytes);
    limits.signatures = lowered(row, "signatures", limits.signatures);
    limits.records = lowered(row, "records", limits.records);
    limits.shelf_bytes = lowered(row, "shelf_bytes", limits.shelf_bytes);
    session.limits = limits;
    String::from_str(session.alloc, "Ok")
}

/// `key KEY`: the key of the witnesses that are started from here on.
pub(crate) fn key(session: &mut Session, row: &Row) -> Result<String, AllocError> {
    let text = row.bytes(session.alloc, 1)?;
    match Key::read(text.as_slice()) {
        Ok((key, _)) => {
            session.key = key;
            String::from_str(session.alloc, "Ok")
        }
        Err(_) => String::from_str(session.alloc, "no-key"),
    }
}

/// `verifier RULE FAILING`: a verifier that says yes or no to everything, or else to what the rehearsal says it to.
pub(crate) fn verifier(session: &mut Session, row: &Row) -> Result<String, AllocError> {
    let rule = match row.word(1) {
        "yes" => VerdictRule::Always(true),
        "no" => VerdictRule::Always(false),
        _ => VerdictRule::Rehearsal,
    };
    let failing = failing_of(session.alloc, row, 2)?;
    session.verifier = MemVerifier::new(session.alloc, rule, failing);
    String::from_str(session.alloc, "Ok")
}

/// `signer FAILING`: a signer that gives the rehearsal's signatures.
pub(crate) fn signer(session: &mut Session, row: &Row) -> Result<String, AllocError> {
    let failing = failing_of(session.alloc, row, 1)?;
    session.signer = MemSigner::new(session.alloc, failing);
    String::from_str(session.alloc, "Ok")
}
