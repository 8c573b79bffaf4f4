//! Messages.

ghost use Rattle.std.specs.Prelude.{◌≡◌, ◌≤◌, IfOk, OnErr, sum_by};
ghost use Rattle.cesr_stream.specs.Groups.{elements_of};
ghost use Rattle.cesr_stream.specs.Assembly.{AreAdded};

use crate::Group;
use crate::kept::{append, count_kept};
use lists::{CopyValue, Items};
use std::alloc::{AllocError, Global};

/// A body with the groups behind it that belong to it.
#[derive(Drop, PartialEq, Eq, Debug)]
pub struct Message {
    /// The place of the body, in bytes from the start of the stream.
    pub place: u64,
    pub body: Items<u8>,
    /// The groups, wrapped ones among them, as far as they have no more elements than a message may have.
    pub groups: Items<Group>,
    /// Whether all the groups have more elements than a message may have.
    pub excess: bool,
}

impl Message {
    /// Adds groups to a message whose groups have so many elements, and answers how many they have then.
    pub(crate) fn add(
        &mut self,
        alloc: Global,
        groups: Items<Group>,
        limit: u16,
        used: u16,
    ) -> Result<u16, AllocError>
        requires used { used ≡ sum_by elements_of self.old.groups }
        requires few { used ≤ limit }
        ensures ok { IfOk result (λ used. AreAdded limit groups self.old self.new used) }
        ensures err { OnErr result (self.new ≡ self.old) }
    {
        if self.excess {
            return Ok(used);
        }
        let mut groups = groups;
        let (kept, used) = count_kept(groups.as_slice(), limit, used);
        let excess = kept < groups.len();
        groups.truncate(kept);
        append(alloc, &mut self.groups, groups)?;
        self.excess = excess;
        Ok(used)
    }
}

impl CopyValue for Message {
    fn copy(&self, alloc: Global) -> Result<Message, AllocError> {
        let body = self.body.copy(alloc)?;
        let groups = self.groups.copy(alloc)?;
        Ok(Message {
            place: self.place,
            body,
            groups,
            excess: self.excess,
        })
    }
}
