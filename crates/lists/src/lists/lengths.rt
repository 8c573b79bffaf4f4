//! Lengths as numbers of 32 bits.
ghost use Rattle.std.specs.Prelude.{◌≡◌, ◌≤◌, ◌^◌, IfOk, OnErr};

use std::alloc::AllocError;

/// A length as a number of 32 bits. More rows than there are such numbers are more than memory is given for.
pub fn length_u32(length: usize) -> Result<u32, AllocError>
    ensures ok { IfOk result (λ number. number ≡ length) }
    ensures err { OnErr result (2 ^ 32 ≤ length) }
{
    match u32::try_from(length) {
        Ok(number) => Ok(number),
        Err(_) => Err(AllocError),
    }
}
