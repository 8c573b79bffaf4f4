//! Calls of a shelf, one after another, on disks in memory of which calls fail.
mod calls;
mod images;
mod opening;
mod session;

use rows::{Row, given};
pub(crate) use session::Session;
use std::alloc::AllocError;

/// The answer of the row, where it is one of these calls.
pub(crate) fn answer(session: &mut Session, row: &Row) -> Result<Option<String>, AllocError> {
    given(match row.word(0) {
        "disk" => opening::put_in(session, row),
        "create" => opening::create(session, row),
        "read_back" => opening::read_back(session, row),
        "read_old" => opening::read_old(session, row),
        "migrate" => opening::migrate(session, row),
        "append" => calls::append(session, row),
        "list" => calls::list(session),
        "bytes" => calls::bytes(session),
        "file" => calls::file(session),
        "images" => images::images(session),
        _ => return Ok(None),
    })
}
