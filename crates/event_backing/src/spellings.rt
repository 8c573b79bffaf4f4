//! Texts of identifiers, numbers and digests.
ghost use Rattle.std.specs.Prelude.{◌≡◌, ◌≢◌, ◌<◌, ◌^◌, ℕ, false, IfSome, IfNone, bytes_eq};
ghost use Rattle.std.specs.Fmt.{digits};
ghost use Rattle.cesr_codes.specs.Spelling.{digest_text, prefix_text};

use cesr_codes::{Digest, Prefix};
use lists::{hex_value, is_hex_number};

/// How many digits the number of an event seal has at most.
const MOST_DIGITS: usize = 16;

/// The number whose digits these are, where it has at most 16.
pub(crate) fn number_of(text: &[u8]) -> Option<u64>
    ensures some { IfSome result (λ number. (number < 2 ^ 64) × (text.now ≡ digits 16 false number)) }
    ensures none { IfNone result ((number : ℕ) → number < 2 ^ 64 → text.now ≢ digits 16 false number) }
{
    if is_hex_number(text) && text.len() <= MOST_DIGITS {
        Some(hex_value(text))
    } else {
        None
    }
}

/// Whether it is the identifier's text.
pub(crate) fn is_prefix(text: &[u8], prefix: &Prefix) -> bool
    ensures { result ≡ bytes_eq text.now (prefix_text prefix.now) }
{
    let mut spelled = [0u8; 44];
    prefix.write(&mut spelled);
    text == spelled.as_slice()
}

/// Whether it is the digest's text.
pub(crate) fn is_digest(text: &[u8], digest: &Digest) -> bool
    ensures { result ≡ bytes_eq text.now (digest_text digest.now) }
{
    let mut spelled = [0u8; 44];
    digest.write(&mut spelled);
    text == spelled.as_slice()
}

/// Whether these are the number's digits.
pub(crate) fn is_number(text: &[u8], number: u64) -> bool
    ensures { result ≡ bytes_eq text.now (digits 16 false number) }
{
    match number_of(text) {
        Some(found) => found == number,
        None => false,
    }
}
