//! Lengths of bodies as digits.
ghost use Rattle.std.specs.Prelude.{◌≡◌, ◌≢◌, ℕ, ◌<◌, ◌≤◌, IfSome, IfNone};
ghost use Rattle.verifier_link.specs.Questions.{hex_character, length_text};

use lists::{all_hex, hex_value};

/// A length as 8 lower-case hexadecimal digits.
pub(crate) fn length_digits(length: u16) -> [u8; 8]
    ensures { result ≡ length_text length }
{
    [
        b'0',
        b'0',
        b'0',
        b'0',
        character(length / 4096),
        character(length / 256 % 16),
        character(length / 16 % 16),
        character(length % 16),
    ]
}

// The character of a digit.
fn character(digit: u16) -> u8
    requires { digit < 16 }
    ensures { result ≡ hex_character digit }
{
    let digit = digit as u8;
    if digit < 10 {
        b'0' + digit
    } else {
        b'a' + (digit - 10)
    }
}

/// The length that the digits write, if they write one of at most 65,535.
pub(crate) fn read_length(digits: &[u8; 8]) -> Option<u16>
    ensures some { IfSome result (λ length. digits.now ≡ length_text length) }
    ensures none { IfNone result ((length : ℕ) → length ≤ 65535 → digits.now ≢ length_text length) }
{
    if !all_hex(digits) {
        return None;
    }
    u16::try_from(hex_value(digits)).ok()
}
