//! Passes that are split off for readers.
ghost use Rattle.std.specs.Prelude.{◌≡◌, ◌<◌, length, IfOk, Some};
ghost use Rattle.turn_lock.specs.Locks.{known, lock, IsPassOf};
ghost use Rattle.reader_hub.specs.declared.reader_hub.core_head.CoreHead.{CoreHead};
ghost use Rattle.reader_hub.specs.ReaderThreads.Jobs.{passes_seen};
ghost use Rattle.reader_hub.specs.ReaderThreads.Seats.{AreSeats};

use crate::reader_hub::{Hub, Pass};
use std::alloc::{AllocError, Global};

/// So many passes, split off the first one: their numbers are 1, 2 and so on.
pub(crate) fn split_off(
    alloc: Global,
    hub: &Hub,
    first: &mut Pass,
    count: u16,
) -> Result<Vec<Pass>, AllocError>
    requires pass { IsPassOf hub.now.turn first.old }
    requires number { (known first.old).number ≡ 0 }
    requires unsplit { (known first.old).splits ≡ 0 }
    requires few { count < 65535 }
    ensures pass { IsPassOf hub.now.turn first.new }
    ensures splits { IfOk result (λ passes. known first.new ≡ record (known first.old) { splits = count }) }
    ensures count { IfOk result (λ passes. length passes.items ≡ count) }
    ensures seats { IfOk result (λ passes. (head : CoreHead) → (known first.old).head ≡ Some head
        → AreSeats (lock hub.now.turn) head 1 (passes_seen passes.items)) }
{
    let mut passes = Vec::with_capacity(alloc, usize::from(count))?;
    for _ in 0..count {
        let pass = hub.split(first)?;
        passes.push(pass)?;
    }
    Ok(passes)
}
