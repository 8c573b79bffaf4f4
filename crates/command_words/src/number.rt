//! Numbers in decimal.
ghost use Rattle.std.specs.Prelude.{◌≡◌, ◌≤◌, IfSome, true};
ghost use Rattle.std.specs.List.{list_all};
ghost use Rattle.command_words.specs.Numbers.{decimal_value as number_of, is_decimal, is_digit, number_in};

// The greatest number of 64 bits has so many digits.
const MOST_DIGITS: usize = 20;

/// The number that a word spells in decimal, where it is in this range.
pub(crate) fn number(word: &[u8], least: u64, most: u64) -> Option<u64>
    ensures number { result ≡ number_in least most word.now }
    ensures least { IfSome result (λ n. least ≤ n) }
    ensures most { IfSome result (λ n. n ≤ most) }
{
    if !is_number(word) {
        return None;
    }
    let value = decimal_value(word);
    if value < u128::from(least) || value > u128::from(most) {
        return None;
    }
    Some(value as u64)
}

// Whether these are the digits of a number, without leading zeros.
fn is_number(word: &[u8]) -> bool
    ensures { result ≡ is_decimal word.now }
{
    word.len() <= MOST_DIGITS && are_digits(word) && !matches!(word, [] | [b'0', _, ..])
}

// Whether each is a decimal digit.
fn are_digits(word: &[u8]) -> bool
    ensures { result ≡ list_all is_digit word.now }
{
    word.iter().all(|c| c.is_ascii_digit())
}

// The number of so few digits.
fn decimal_value(digits: &[u8]) -> u128
    requires { is_decimal digits.now ≡ true }
    ensures { result ≡ number_of digits.now }
{
    let mut value = 0u128;
    for digit in digits {
        value = value * 10 + u128::from(*digit - b'0');
    }
    value
}
