//! Copies of lists of plain values.
ghost use Rattle.std.specs.Prelude.{◌≡◌, IfOk};

use crate::lists::Items;
use std::alloc::{AllocError, Global};

/// An equal list.
pub fn copy_items<T: Copy>(items: &Items<T>, alloc: Global) -> Result<Items<T>, AllocError>
    ensures { IfOk result (λ copies. copies ≡ items.now) }
{
    Ok(Items::from_vec(Vec::from_slice(alloc, items.as_slice())?))
}
