//! Cores that begin with a list of texts.
ghost use Rattle.std.specs.Prelude.{◌≤◌, length};

use crate::cores::session::{Session, mode_of};
use journal::{Mode, ResumeFault};
use json_tree::Text;
use keri_outside::Limits;
use lists::Items;
use rows::Row;
use std::alloc::{AllocError, Global};
use validator_core::Core;

// How many texts a core begins with at most.
const MOST_TEXTS: usize = 1_048_576;

// Adds the text that the argument writes.
fn add_text(
    alloc: Global,
    texts: &mut Vec<Text>,
    row: &Row,
    place: usize,
) -> Result<(), AllocError> {
    let text = row.bytes(alloc, place)?;
    texts.push(Items::from_vec(text))?;
    Ok(())
}

// The texts that the arguments behind the mode write.
fn texts_of(alloc: Global, row: &Row) -> Result<Vec<Text>, AllocError> {
    let mut texts = Vec::new(alloc);
    for place in 2..row.len() {
        add_text(alloc, &mut texts, row, place)?;
    }
    Ok(texts)
}

// What becomes of the texts.
fn resumed_with(
    alloc: Global,
    session: &mut Session,
    mode: Mode,
    texts: Vec<Text>,
) -> Result<String, AllocError>
    requires { length texts.items ≤ 1048576 }
{
    match Core::resume(alloc, mode, Limits::standard(), texts) {
        Ok(core) => {
            session.begin(core);
            String::from_str(alloc, "resumed")
        }
        Err(ResumeFault::OutOfMemory) => Err(AllocError),
        Err(fault) => format!(in alloc; "{fault:?}"),
    }
}

/// `resume MODE TEXT..`: the calls behind it are those of a core that begins with these texts. Where they are no log they are
/// those of the core before it.
pub(crate) fn resumed(
    alloc: Global,
    session: &mut Session,
    row: &Row,
) -> Result<String, AllocError> {
    let texts = texts_of(alloc, row)?;
    if texts.len() > MOST_TEXTS {
        drop(texts);
        return String::from_str(alloc, "too-many");
    }
    resumed_with(alloc, session, mode_of(row.word(1)), texts)
}
