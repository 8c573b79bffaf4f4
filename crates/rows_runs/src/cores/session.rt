//! The core that rows speak of.
ghost use Rattle.std.specs.Prelude.{◌≤◌};

use journal::{Mode, Question};
use keri_outside::{Limits, Steps};
use rows::Row;
use std::alloc::Global;
use std::mem;
use validator_core::Core;

/// The core, the steps that its calls counted, and the last question that it gave.
#[derive(Drop)]
pub(crate) struct Session {
    pub(crate) core: Core,
    pub(crate) steps: Steps,
    pub(crate) question: Option<Question>,
}

impl Session {
    /// A validator's core.
    pub(crate) fn new(alloc: Global) -> Session {
        Session::with(Core::new(alloc, Mode::Full, Limits::standard()))
    }

    // This core.
    fn with(core: Core) -> Session {
        Session {
            core,
            steps: Steps::new(),
            question: None,
        }
    }

    /// The calls behind it are those of this core.
    pub(crate) fn begin(&mut self, core: Core) {
        drop(mem::replace(self, Session::with(core)));
    }
}

// The word as a number, but the limit where the word is 0 or a greater number than the limit.
fn limited(row: &Row, place: usize, limit: u32) -> u32
    ensures { result ≤ limit }
{
    match u32::try_from(row.number(place)) {
        Ok(0) => limit,
        Ok(number) => number.min(limit),
        Err(_) => limit,
    }
}

/// The mode that the word names.
pub(crate) fn mode_of(word: &str) -> Mode {
    if word == "local" {
        Mode::Local
    } else {
        Mode::Full
    }
}

/// The limits of the words for messages, bytes of bodies, and signatures; 0 stands for the standard one.
pub(crate) fn limits_of(row: &Row) -> Limits {
    let mut limits = Limits::standard();
    limits.messages = limited(row, 2, limits.messages);
    limits.body_bytes = limited(row, 3, limits.body_bytes);
    limits.signatures = limited(row, 4, limits.signatures);
    limits
}
