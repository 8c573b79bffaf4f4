//! Entries of a journal.

use crate::journal::Claim;
use cesr_codes::{Key, Sig};
use lists::{CopyValue, Items, copy_items};
use std::alloc::{AllocError, Global};

/// A body that was taken with its claims, or a verdict that was heard. A body is named by its number in the journal.
#[derive(Drop, PartialEq, Debug)]
pub enum Entry {
    Took {
        reader: u16,
        body: u32,
        claims: Items<Claim>,
    },
    Heard {
        reader: u16,
        body: u32,
        key: Key,
        sig: Sig,
        /// Whether the verifier said that the signature is the key's on the body.
        yes: bool,
    },
}

impl CopyValue for Entry {
    fn copy(&self, alloc: Global) -> Result<Entry, AllocError> {
        match self {
            Entry::Took {
                reader,
                body,
                claims,
            } => Ok(Entry::Took {
                reader: *reader,
                body: *body,
                claims: copy_items(claims, alloc)?,
            }),
            Entry::Heard {
                reader,
                body,
                key,
                sig,
                yes,
            } => Ok(Entry::Heard {
                reader: *reader,
                body: *body,
                key: *key,
                sig: *sig,
                yes: *yes,
            }),
        }
    }
}
