//! Domains as words.
ghost use Rattle.std.specs.Prelude.{◌≡◌};
ghost use Rattle.command_words.specs.Domains.{domain_in};

use cesr_binary::Domain;

/// The domain that a word names.
pub(crate) fn domain(word: &str) -> Option<Domain>
    ensures { result ≡ domain_in word.now }
{
    match word {
        "binary" => Some(Domain::Binary),
        "text" => Some(Domain::Text),
        _ => None,
    }
}
