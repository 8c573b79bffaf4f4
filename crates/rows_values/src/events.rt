//! Calls of events: bodies, key states, what backs an event, and messages of plans.
mod backers;
mod bodies;
mod event;
mod plans;
mod states;

use rows::Row;
use std::alloc::{AllocError, Global};

/// The answer of the row, where it is one of these calls.
pub(crate) fn answer(alloc: Global, row: &Row) -> Result<Option<String>, AllocError> {
    if let Some(answer) = bodies::answer(alloc, row)? {
        return Ok(Some(answer));
    }
    if let Some(answer) = states::answer(alloc, row)? {
        return Ok(Some(answer));
    }
    if let Some(answer) = backers::answer(alloc, row)? {
        return Ok(Some(answer));
    }
    plans::answer(alloc, row)
}
