//! Values that are one primitive.
ghost use Rattle.std.specs.Prelude.{◌≡◌, ◌∷◌, [], Ok, IfOk};
ghost use Rattle.cesr_codes.specs.declared.digest.DigestCode.{DigestCode};
ghost use Rattle.cesr_codes.specs.Spelling.{digest_code};

use crate::plan_text::line_fault::LineFault;
use cesr_codes::{DigestCode, Spelled, of_text};

/// The key, digest or prefix that the value spells.
pub(crate) fn read_primitive<P: Spelled>(value: &[u8]) -> Result<P, LineFault>
    ensures some { IfOk result (λ primitive. P.is_valid primitive × (value.now ≡ P.spelling primitive)) }
    ensures only { (primitive : P) → P.is_valid primitive → value.now ≡ P.spelling primitive → result ≡ Ok primitive }
{
    match of_text(value) {
        Some(primitive) => Ok(primitive),
        None => Err(LineFault::Refused),
    }
}

/// The code of a digest that the value is.
pub(crate) fn read_code(value: &[u8]) -> Result<DigestCode, LineFault>
    ensures some { IfOk result (λ code. value.now ≡ digest_code code ∷ []) }
    ensures only { (code : DigestCode) → value.now ≡ digest_code code ∷ [] → result ≡ Ok code }
{
    match value {
        b"E" => Ok(DigestCode::Blake3),
        b"I" => Ok(DigestCode::Sha256),
        _ => Err(LineFault::Refused),
    }
}
