//! Calls of a core, one after another.
mod base;
mod calls;
mod evidence;
mod hubs;
mod session;
mod views;

use rows::{Row, given};
pub(crate) use session::Session;
use std::alloc::{AllocError, Global};
use std::sync::Wait;

/// The answer of the row, where it is one of these calls.
pub(crate) fn answer<W: Wait>(
    rt: &W,
    alloc: Global,
    session: &mut Session,
    row: &Row,
) -> Result<Option<String>, AllocError> {
    match row.word(0) {
        "hub" => given(hubs::read_back(rt, alloc, row)),
        "passes" => given(hubs::passes(rt, alloc, row)),
        _ => calls::answer(alloc, session, row),
    }
}
