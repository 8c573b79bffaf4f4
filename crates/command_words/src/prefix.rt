//! Prefixes as words.
ghost use Rattle.std.specs.Prelude.{◌≡◌, IfSome};
ghost use Rattle.cesr_codes.specs.Spelling.{IsPrefix};
ghost use Rattle.command_words.specs.Prefixes.{prefix_in};

use cesr_codes::{Prefix, of_text};

/// The prefix that a word spells.
pub(crate) fn any_prefix(word: &[u8]) -> Option<Prefix>
    ensures prefix { result ≡ prefix_in word.now }
    ensures valid { IfSome result IsPrefix }
{
    of_text::<Prefix>(word)
}
