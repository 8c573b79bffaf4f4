//! The 64 characters and their digits (RFC 4648, section 5).
ghost use Rattle.std.specs.Prelude.{◌≡◌, ◌<◌, ◌≤◌, position, not};
ghost use Rattle.std.specs.List.{list_all};
ghost use Rattle.lists.specs.KeriSpecs.Base64.{character, digit_of, is_character};

const CHARACTERS: [u8; 64] = *b"ABCDEFGHIJKLMNOPQRSTUVWXYZabcdefghijklmnopqrstuvwxyz0123456789-_";

// The digit of each byte that is one of the characters, and 64 of the others.
const DIGITS: [u8; 256] = [
    64, 64, 64, 64, 64, 64, 64, 64, 64, 64, 64, 64, 64, 64, 64, 64, 64, 64, 64, 64, 64, 64, 64, 64,
    64, 64, 64, 64, 64, 64, 64, 64, 64, 64, 64, 64, 64, 64, 64, 64, 64, 64, 64, 64, 64, 62, 64, 64,
    52, 53, 54, 55, 56, 57, 58, 59, 60, 61, 64, 64, 64, 64, 64, 64, 64, 0, 1, 2, 3, 4, 5, 6, 7, 8,
    9, 10, 11, 12, 13, 14, 15, 16, 17, 18, 19, 20, 21, 22, 23, 24, 25, 64, 64, 64, 64, 63, 64, 26,
    27, 28, 29, 30, 31, 32, 33, 34, 35, 36, 37, 38, 39, 40, 41, 42, 43, 44, 45, 46, 47, 48, 49, 50,
    51, 64, 64, 64, 64, 64, 64, 64, 64, 64, 64, 64, 64, 64, 64, 64, 64, 64, 64, 64, 64, 64, 64, 64,
    64, 64, 64, 64, 64, 64, 64, 64, 64, 64, 64, 64, 64, 64, 64, 64, 64, 64, 64, 64, 64, 64, 64, 64,
    64, 64, 64, 64, 64, 64, 64, 64, 64, 64, 64, 64, 64, 64, 64, 64, 64, 64, 64, 64, 64, 64, 64, 64,
    64, 64, 64, 64, 64, 64, 64, 64, 64, 64, 64, 64, 64, 64, 64, 64, 64, 64, 64, 64, 64, 64, 64, 64,
    64, 64, 64, 64, 64, 64, 64, 64, 64, 64, 64, 64, 64, 64, 64, 64, 64, 64, 64, 64, 64, 64, 64, 64,
    64, 64, 64, 64, 64, 64, 64, 64, 64, 64, 64, 64, 64, 64,
];

/// Whether it is one of the 64 characters.
pub fn is_symbol(c: u8) -> bool
    ensures { result ≡ is_character c }
{
    DIGITS[c as usize] < 64
}

/// Whether each is one of them.
pub(crate) fn are_symbols(text: &[u8]) -> bool
    ensures { result ≡ list_all is_character text.now }
{
    text.iter().all(|c| is_symbol(*c))
}

/// The first place of what isn't one of them.
pub(crate) fn first_bad(text: &[u8]) -> Option<usize>
    ensures { result ≡ position (λ c. not (is_character c)) text.now }
{
    text.iter().position(|c| !is_symbol(*c))
}

/// The character of a digit.
pub(crate) fn symbol(digit: u16) -> u8
    requires { digit < 64 }
    ensures { result ≡ character digit }
{
    CHARACTERS[digit as usize]
}

/// The digit of a character, and 64 of what isn't one of them.
pub fn digit(c: u8) -> u16
    ensures value { result ≡ digit_of c }
    ensures few { result ≤ 64 }
{
    DIGITS[c as usize] as u16
}
