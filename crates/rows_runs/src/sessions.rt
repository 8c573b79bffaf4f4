//! The sessions that rows speak of.

use crate::{cores, runs, shelves, witnesses};
use rows::Row;
use std::alloc::{AllocError, Global};
use std::sync::Wait;
use std::thread::Threads;

// Which session the rows are of.
#[derive(Clone, Copy)]
enum Session {
    Nothing,
    Core,
    Shelf,
    Witness,
    Runs,
}

impl Session {
    // The one of this name.
    fn named(name: &str) -> Session {
        match name {
            "core" => Session::Core,
            "shelf" => Session::Shelf,
            "witness" => Session::Witness,
            "runs" => Session::Runs,
            _ => Session::Nothing,
        }
    }
}

/// Each session, and which of them the rows are of. It is no `Drop`, but is let go by `end` alone, since each other end takes
/// long to prove.
pub(crate) struct Sessions {
    now: Session,
    core: cores::Session,
    shelf: shelves::Session,
    witness: witnesses::Session,
}

impl Sessions {
    /// Sessions in which nothing was called, none of which the rows are of.
    pub(crate) fn new(alloc: Global) -> Sessions {
        Sessions {
            now: Session::Nothing,
            core: cores::Session::new(alloc),
            shelf: shelves::Session::new(alloc),
            witness: witnesses::Session::new(alloc),
        }
    }

    // What the session that the rows are of answers, where the row is one of its calls.
    fn called<R: Threads + Wait + Sync>(
        &mut self,
        rt: &R,
        alloc: Global,
        row: &Row,
    ) -> Result<Option<String>, AllocError> {
        match self.now {
            Session::Nothing => Ok(None),
            Session::Core => cores::answer(rt, alloc, &mut self.core, row),
            Session::Shelf => shelves::answer(&mut self.shelf, row),
            Session::Witness => witnesses::answer(&mut self.witness, row),
            Session::Runs => runs::answer(rt, alloc, row),
        }
    }

    /// The answer of the row, where it is a call. Behind `in NAME` the rows are of the session of that name.
    pub(crate) fn answer<R: Threads + Wait + Sync>(
        &mut self,
        rt: &R,
        alloc: Global,
        row: &Row,
    ) -> Result<Option<String>, AllocError> {
        if row.word(0) == "in" {
            self.now = Session::named(row.word(1));
            return Ok(None);
        }
        self.called(rt, alloc, row)
    }

    /// Lets all go.
    pub(crate) fn end(self) {
        let Sessions {
            now: _now,
            core,
            shelf,
            witness,
        } = self;
        drop(core);
        drop(shelf);
        witness.end();
    }
}
