//! Records as they are written.
ghost use Rattle.std.specs.Prelude.{◌≡◌, ◌++◌, [], ◌∷◌, ◌≤◌, IfOk, length};
ghost use Rattle.std.specs.Int.{w32, to_be_bytes};
ghost use Rattle.shelf_log.specs.ShelfLog.Format.{IsSized};
ghost use Rattle.shelf_log.specs.declared.shelf_log.version.Version.TheVariants.{Two};

use std::alloc::{AllocError, Global};

/// Bytes of a record besides its payload.
pub(crate) const HEAD: usize = 5;

/// What an open gate stands before, and a closed gate behind it: the payload's length, the payload and a byte 0.
pub(crate) fn staged_record(alloc: Global, payload: &[u8]) -> Result<Vec<u8>, AllocError>
    requires { IsSized Two payload.now }
    ensures { IfOk result (λ bytes. bytes.items ≡ to_be_bytes w32 (length payload.now) ++ payload.now ++ 0 ∷ []) }
{
    let mut bytes = Vec::with_capacity(alloc, HEAD + payload.len())?;
    bytes.extend_from_slice(&(payload.len() as u32).to_be_bytes())?;
    bytes.extend_from_slice(payload)?;
    bytes.push(0)?;
    Ok(bytes)
}

/// An open gate and the length that stands behind it.
pub(crate) fn head_of(length: usize) -> [u8; HEAD]
    requires { length ≤ 524288 }
    ensures { result ≡ 1 ∷ to_be_bytes w32 length }
{
    let [first, second, third, fourth] = (length as u32).to_be_bytes();
    [1, first, second, third, fourth]
}
