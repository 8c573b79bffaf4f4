//! Keys that can't be rotated.
ghost use Rattle.std.specs.Prelude.{◌≡◌, IfSome};
ghost use Rattle.cesr_codes.specs.declared.key.KeyCode.TheVariants.{Fixed};
ghost use Rattle.command_words.specs.Keys.{fixed_key_in};

use cesr_codes::{FixedKey, Key, of_text};

/// The key that can't be rotated that a word spells.
pub(crate) fn fixed_key(word: &[u8]) -> Option<Key>
    ensures key { result ≡ fixed_key_in word.now }
    ensures fixed { IfSome result (λ key. key.code ≡ Fixed) }
{
    let fixed = of_text::<FixedKey>(word)?;
    Some(fixed.key)
}
