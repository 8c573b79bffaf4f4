//! Keys that can't be rotated.
ghost use Rattle.std.specs.Prelude.{◌≡◌};
ghost use Rattle.cesr_codes.specs.declared.key.KeyCode.TheVariants.{Fixed};

use crate::{CodeFault, Key, KeyCode, Spelled};

/// A key that can't be rotated.
#[derive(Clone, Copy)]
pub struct FixedKey {
    pub key: Key,
    pub ghost fixed: { key.code ≡ Fixed },
}

impl Spelled for FixedKey {
    ghost use Rattle.cesr_codes.specs.Spelling.{IsKey, key_text};
    ghost use Rattle.cesr_codes.specs.Table.{fixed_layouts, verdict};

    ghost spelling = { λ fixed. key_text fixed.key };

    ghost is_valid = { λ fixed. IsKey fixed.key };

    ghost judge = { verdict fixed_layouts };

    fn read_front(text: &[u8]) -> Result<(FixedKey, usize), CodeFault> {
        if let [b'D', ..] = text {
            return Err(CodeFault::CodeNotHeld);
        }
        match Key::read(text) {
            Ok((key, length)) => match key.code {
                KeyCode::Fixed => Ok((FixedKey { key }, length)),
                KeyCode::Rotating => Err(CodeFault::CodeNotHeld),
            },
            Err(fault) => Err(fault),
        }
    }

    fn in_range(self) {}
}
