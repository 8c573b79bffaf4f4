//! Questions with what they are about.
use journal::Question;

/// An open question, with a copy of the body that it names.
#[derive(Drop)]
pub struct Asked {
    pub question: Question,
    pub bytes: Vec<u8>,
}
