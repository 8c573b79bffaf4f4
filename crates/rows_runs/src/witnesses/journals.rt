//! How rows write a journal.

use crate::disks::list_text;
use cesr_codes::{Key, Sig};
use journal::{Claim, Entry, Journal};
use std::alloc::{AllocError, Global};
use std::fmt::Write;

fn claim_word(text: &mut String, claim: &Claim) -> Result<(), AllocError> {
    match claim {
        Claim::Controller(sig) => write!(text, " A={sig}"),
        Claim::Witness(sig) => write!(text, " B={sig}"),
        Claim::Couple(key, sig) => write!(text, " C={key}{sig}"),
    }
}

fn took_words(
    text: &mut String,
    reader: u16,
    body: u32,
    claims: &[Claim],
) -> Result<(), AllocError> {
    write!(text, ", took {reader} {body}")?;
    for claim in claims {
        claim_word(text, claim)?;
    }
    Ok(())
}

fn heard_words(
    text: &mut String,
    reader: u16,
    body: u32,
    key: Key,
    sig: Sig,
    yes: bool,
) -> Result<(), AllocError> {
    write!(text, ", heard {reader} {body} {key} {sig} {yes}")
}

fn entry_words(text: &mut String, entry: &Entry) -> Result<(), AllocError> {
    match entry {
        Entry::Took {
            reader,
            body,
            claims,
        } => took_words(text, *reader, *body, claims.as_slice()),
        Entry::Heard {
            reader,
            body,
            key,
            sig,
            yes,
        } => heard_words(text, *reader, *body, *key, *sig, *yes),
    }
}

/// The bodies, and the entries.
pub(crate) fn journal_text(alloc: Global, journal: &Journal) -> Result<String, AllocError> {
    let mut text = list_text(alloc, "bodies", journal.bodies.as_slice())?;
    for entry in journal.entries.as_slice() {
        entry_words(&mut text, entry)?;
    }
    Ok(text)
}
