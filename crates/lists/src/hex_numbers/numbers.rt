//! Digits, and the numbers that they spell.
ghost use Rattle.std.specs.Prelude.{◌≡◌, ◌↔◌, ◌≤◌, ◌<◌, ◌-◌, ◌^◌, min, length, true};
ghost use Rattle.std.specs.List.{list_all};
ghost use Rattle.lists.specs.KeriSpecs.Hex.{is_hex, hex_digit, IsHexNumber, hex_value as value_of};

/// Whether it is a lower-case hexadecimal digit.
fn is_hex_digit(c: u8) -> bool
    ensures { result ≡ is_hex c }
{
    matches!(c, b'0'..=b'9' | b'a'..=b'f')
}

/// Whether each is a hexadecimal digit.
pub fn all_hex(digits: &[u8]) -> bool
    ensures { result ≡ list_all is_hex digits.now }
{
    digits.iter().all(|c| is_hex_digit(*c))
}

/// Whether these are the digits of a number: without leading zeros, and `0` itself.
pub fn is_hex_number(digits: &[u8]) -> bool
    ensures { (result ≡ true) ↔ IsHexNumber digits.now }
{
    all_hex(digits) && !matches!(digits, [] | [b'0', _, ..])
}

// The value of a digit.
fn digit_value(c: u8) -> u8
    requires { is_hex c ≡ true }
    ensures value { result ≡ hex_digit c }
    ensures below { result < 16 }
{
    if c < b':' { c - b'0' } else { c - b'W' }
}

/// The number of at most 16 digits.
pub fn hex_value(digits: &[u8]) -> u64
    requires all { list_all is_hex digits.now ≡ true }
    requires few { length digits.now ≤ 16 }
    ensures { result ≡ value_of digits.now }
{
    let mut value = 0u64;
    for digit in digits {
        value = value * 16 + u64::from(digit_value(*digit));
    }
    value
}

/// The number that the digits write, or 2^64 - 1 for a greater one.
pub fn saturating_hex_value(digits: &[u8]) -> u64
    requires { list_all is_hex digits.now ≡ true }
    ensures { result ≡ min (value_of digits.now) (2 ^ 64 - 1) }
{
    let mut value = 0u64;
    for digit in digits {
        let times = value.saturating_mul(16);
        value = times.saturating_add(u64::from(digit_value(*digit)));
    }
    value
}
