//! Receipts with their keys.
ghost use Rattle.std.specs.Prelude.{◌≡◌};
ghost use Rattle.cesr_codes.specs.declared.key.KeyCode.TheVariants.{Fixed};

use cesr_codes::{Key, Sig};

/// A witness's key, which can't be rotated, and its signature.
#[derive(Clone, Copy, PartialEq, Eq, Hash, Debug)]
pub struct Couple {
    pub key: Key,
    pub sig: Sig,
    pub ghost fixed: { key.code ≡ Fixed },
}
