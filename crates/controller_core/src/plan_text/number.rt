//! Numbers.
ghost use Rattle.std.specs.Prelude.{◌≡◌, ◌^◌, ◌<◌, Ok, IfOk, ℕ};
ghost use Rattle.std.specs.Fmt.{decimal};
ghost use Rattle.controller_core.specs.PlanText.Entries.{IsNumberText};

use crate::plan_text::line_fault::LineFault;
use lists::{hex_value, is_hex_number};
use std::str::from_utf8;

/// A number has at most so many hexadecimal digits.
pub(crate) const MOST_DIGITS: usize = 16;

/// The number that is written in hexadecimal digits.
pub(crate) fn read_number(value: &[u8]) -> Result<u64, LineFault>
    ensures some { IfOk result (λ n. IsNumberText n value.now) }
    ensures only { (n : ℕ) → IsNumberText n value.now → result ≡ Ok n }
{
    if value.len() > MOST_DIGITS || !is_hex_number(value) {
        return Err(LineFault::Refused);
    }
    Ok(hex_value(value))
}

/// The number that is written in decimal, without leading zeros.
pub(crate) fn read_index(digits: &[u8]) -> Result<u16, LineFault>
    ensures some { IfOk result (λ n. (n < 2 ^ 16) × (digits.now ≡ decimal n)) }
    ensures only { (n : ℕ) → n < 2 ^ 16 → digits.now ≡ decimal n → result ≡ Ok n }
{
    if matches!(digits, [b'+', ..] | [b'0', _, ..]) {
        return Err(LineFault::Refused);
    }
    let Ok(text) = from_utf8(digits) else {
        return Err(LineFault::Refused);
    };
    match text.parse::<u16>() {
        Ok(number) => Ok(number),
        Err(_) => Err(LineFault::Refused),
    }
}
