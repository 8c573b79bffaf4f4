//! The questions that readers were handed.
use journal::Question;
use std::alloc::{AllocError, Global};

/// A question that a reader was handed.
#[derive(Clone, Copy, Debug)]
struct Handed {
    reader: u16,
    question: Question,
}

/// The questions that readers were handed and haven't answered, one of each reader at most. They spare a verifier what
/// another one is asked already, and no clause rests on them.
#[derive(Drop)]
pub(crate) struct HandedOut {
    handed: Vec<Handed>,
}

impl HandedOut {
    /// No question was handed out.
    pub(crate) fn new(alloc: Global) -> HandedOut {
        HandedOut {
            handed: Vec::new(alloc),
        }
    }

    /// Notes that a reader was handed a question.
    pub(crate) fn hand(&mut self, reader: u16, question: Question) -> Result<(), AllocError> {
        self.handed.push(Handed { reader, question })?;
        Ok(())
    }

    /// The reader has its question no more.
    pub(crate) fn take_back(&mut self, reader: u16) {
        self.handed.retain(|handed| handed.reader != reader);
    }

    /// Whether a reader has the question.
    pub(crate) fn has(&self, question: &Question) -> bool {
        self.handed
            .iter()
            .any(|handed| handed.question == *question)
    }

    /// How many readers have a question.
    pub(crate) fn count(&self) -> u32 {
        u32::try_from(self.handed.len()).unwrap_or(u32::MAX)
    }
}
