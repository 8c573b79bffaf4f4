//! Calls of values: primitives, JSON values, thresholds and digests.
mod codes;
mod digests;
mod trees;

pub(crate) use digests::{code, spelled};
use rows::Row;
use std::alloc::{AllocError, Global};

/// The answer of the row, where it is one of these calls.
pub(crate) fn answer(alloc: Global, row: &Row) -> Result<Option<String>, AllocError> {
    if let Some(answer) = codes::answer(alloc, row)? {
        return Ok(Some(answer));
    }
    if let Some(answer) = trees::answer(alloc, row)? {
        return Ok(Some(answer));
    }
    digests::answer(alloc, row)
}
