//! A list of notes, each by one pass.
ghost use Rattle.std.specs.Prelude.{◌≡◌, [], ◌∷◌, ◌++◌, OnOk, OnErr};

use crate::Replayed;
use std::alloc::{AllocError, Global};

#[derive(Clone, Copy, PartialEq, Eq, Debug)]
pub struct Note {
    pub by: u16,
    pub text: u64,
}

#[derive(Drop)]
pub struct Notes {
    pub list: Vec<Note>,
    pub title: u64,
}

impl Replayed for Notes {
    type Entry = Note;

    type Head = u64;

    ghost entries = { λ n. n.list.items };

    ghost head = { λ n. n.title };

    ghost names = { λ n. n.by };

    fn count(&self) -> u64 {
        self.list.len() as u64
    }
}

impl Notes {
    pub fn new(alloc: Global, title: u64) -> Self
        ensures { (result.list.items ≡ []) × (result.title ≡ title) }
    {
        Notes {
            list: Vec::new(alloc),
            title,
        }
    }

    pub fn add(&mut self, note: Note) -> Result<(), AllocError>
        ensures ok { OnOk result (self.new.list.items ≡ self.old.list.items ++ note ∷ []) }
        ensures err { OnErr result (self.new.list.items ≡ self.old.list.items) }
        ensures title { self.new.title ≡ self.old.title }
    {
        self.list.push(note)?;
        Ok(())
    }
}
