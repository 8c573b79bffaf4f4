//! Calls of a witness, one after another, over disks, verifiers and signers in memory of which calls fail.
mod images;
mod journals;
mod opening;
mod outcomes;
mod outside_files;
mod session;
mod views;

use rows::{Row, given};
pub(crate) use session::Session;
use std::alloc::AllocError;

/// The answer of the row, where it is one of these calls.
pub(crate) fn answer(session: &mut Session, row: &Row) -> Result<Option<String>, AllocError> {
    given(match row.word(0) {
        "limits" => outside_files::limits(session, row),
        "key" => outside_files::key(session, row),
        "verifier" => outside_files::verifier(session, row),
        "signer" => outside_files::signer(session, row),
        "disk" => opening::put_in(session, row),
        "create" => opening::create(session, row),
        "start" => opening::start(session),
        "take" => outcomes::take(session, row),
        "stored" => views::stored(session),
        "journal" => views::journal(session),
        "file" => views::file(session),
        "images" => images::images(session),
        _ => return Ok(None),
    })
}
