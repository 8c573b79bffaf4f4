//! Bytes written over others, in a vector of their own.
ghost use Rattle.std.specs.Prelude.{◌≡◌, IfOk};
ghost use Rattle.shelf_log.specs.KeriDisk.Images.{overwritten};

use std::alloc::{AllocError, Global};

/// The file with these bytes at an offset in it, or at its end where it is no longer than that.
pub(crate) fn overwrite(
    alloc: Global,
    file: &[u8],
    offset: usize,
    bytes: &[u8],
) -> Result<Vec<u8>, AllocError>
    ensures { IfOk result (λ next. next.items ≡ overwritten file.now offset bytes.now) }
{
    let end = offset.saturating_add(bytes.len()).min(file.len());
    let mut next = Vec::from_slice(alloc, &file[..offset.min(file.len())])?;
    next.extend_from_slice(bytes)?;
    next.extend_from_slice(&file[end..])?;
    Ok(next)
}
