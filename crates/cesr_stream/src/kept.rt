//! The groups that a message keeps.
ghost use Rattle.std.specs.Prelude.{◌≡◌, ◌≤◌, ◌++◌, OnOk, OnErr};
ghost use Rattle.cesr_stream.specs.Assembly.{AreKept};

use crate::Group;
use lists::Items;
use std::alloc::{AllocError, Global};
use std::mem;

/// How many of the groups are kept behind so many elements, and how many elements there are then.
pub(crate) fn count_kept(groups: &[Group], limit: u16, before: u16) -> (usize, u16)
    requires { before ≤ limit }
    ensures { AreKept limit before groups.now result.0 result.1 }
{
    let mut count = 0;
    let mut used = before;
    for group in groups {
        if group.len() > usize::from(limit - used) {
            return (count, used);
        }
        count += 1;
        used += group.len() as u16;
    }
    (count, used)
}

/// Puts more groups behind the groups.
pub(crate) fn append(
    alloc: Global,
    groups: &mut Items<Group>,
    more: Items<Group>,
) -> Result<(), AllocError>
    ensures ok { OnOk result (groups.new ≡ groups.old ++ more) }
    ensures err { OnErr result (groups.new ≡ groups.old) }
{
    let mut all = mem::replace(groups, Items::new(alloc)).into_vec();
    let mut more = more.into_vec();
    let result = all.append(&mut more);
    *groups = Items::from_vec(all);
    result
}
