//! Groups of attachments.
ghost use Rattle.std.specs.Prelude.{◌≡◌, IfOk};
ghost use Rattle.cesr_stream.specs.Groups.{elements_of};

use crate::{AnchorCouple, Couple, Seen};
use cesr_codes::IndexedSig;
use lists::{CopyValue, Items, copy_items};
use std::alloc::{AllocError, Global};

/// What a counter counts.
#[derive(Drop, PartialEq, Eq, Debug)]
pub enum Group {
    /// `-A`: signatures by the controller's keys, each with the places of its key.
    Controller(Items<IndexedSig>),
    /// `-B`: signatures by witnesses, each with the place of its key in the list of witnesses.
    Witness(Items<IndexedSig>),
    /// `-C`: witnesses' keys, each with its signature.
    Couples(Items<Couple>),
    /// `-E`: when the event was first seen.
    FirstSeen(Items<Seen>),
    /// `-G`: the events of a delegator that anchor this one.
    Anchor(Items<AnchorCouple>),
}

impl Group {
    /// How many elements it has.
    pub fn len(&self) -> usize
        ensures { result ≡ elements_of self.now }
    {
        match self {
            Group::Controller(sigs) | Group::Witness(sigs) => sigs.len(),
            Group::Couples(couples) => couples.len(),
            Group::FirstSeen(seen) => seen.len(),
            Group::Anchor(anchors) => anchors.len(),
        }
    }
}

impl CopyValue for Group {
    fn copy(&self, alloc: Global) -> Result<Group, AllocError> {
        match self {
            Group::Controller(sigs) => Ok(Group::Controller(copy_items(sigs, alloc)?)),
            Group::Witness(sigs) => Ok(Group::Witness(copy_items(sigs, alloc)?)),
            Group::Couples(couples) => Ok(Group::Couples(copy_items(couples, alloc)?)),
            Group::FirstSeen(seen) => Ok(Group::FirstSeen(copy_items(seen, alloc)?)),
            Group::Anchor(anchors) => Ok(Group::Anchor(copy_items(anchors, alloc)?)),
        }
    }
}
