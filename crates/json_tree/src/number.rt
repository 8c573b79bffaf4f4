//! The text of a number. RFC 8259, section 6.
ghost use Rattle.std.specs.Prelude.{◌≡◌, ◌↔◌, ℕ, List, IsTrue, IfSome, IfNone};
ghost use Rattle.json_tree.specs.Fronts.{StartsWith, TakesLongest, NoneStands};
ghost use Rattle.json_tree.specs.Numbers.{IsDigit, AreDigits, IsDigitRun, IsMinus, IsInt, IsFrac, IsExp, IsSign, IsPower, IsNumber};

use crate::front::{after_byte, after_either};

fn after_digit(bytes: &[u8]) -> Option<&[u8]>
    ensures some { IfSome result (λ rest. StartsWith IsDigit bytes.now rest.now) }
    ensures none { IfNone result ((rest : List ℕ) → ¬ StartsWith IsDigit bytes.now rest) }
{
    let (first, rest) = bytes.split_first()?;
    if first.is_ascii_digit() {
        Some(rest)
    } else {
        None
    }
}

fn after_digits(bytes: &[u8]) -> &[u8]
    ensures { TakesLongest AreDigits bytes.now result.now }
{
    let mut rest = bytes;
    while let Some(more) = after_digit(rest) {
        rest = more;
    }
    rest
}

fn after_digit_run(bytes: &[u8]) -> Option<&[u8]>
    ensures some { IfSome result (λ rest. TakesLongest IsDigitRun bytes.now rest.now) }
    ensures none { IfNone result (NoneStands IsDigitRun bytes.now) }
{
    match after_digit(bytes) {
        Some(rest) => Some(after_digits(rest)),
        None => None,
    }
}

fn after_minus(bytes: &[u8]) -> &[u8]
    ensures { TakesLongest IsMinus bytes.now result.now }
{
    match after_byte(bytes, b'-') {
        Some(rest) => rest,
        None => bytes,
    }
}

fn after_int(bytes: &[u8]) -> Option<&[u8]>
    ensures some { IfSome result (λ rest. TakesLongest IsInt bytes.now rest.now) }
    ensures none { IfNone result (NoneStands IsInt bytes.now) }
{
    match after_byte(bytes, b'0') {
        Some(rest) => Some(rest),
        None => after_digit_run(bytes),
    }
}

fn after_frac(bytes: &[u8]) -> &[u8]
    ensures { TakesLongest IsFrac bytes.now result.now }
{
    let Some(digits) = after_byte(bytes, b'.') else {
        return bytes;
    };
    match after_digit_run(digits) {
        Some(rest) => rest,
        None => bytes,
    }
}

fn after_sign(bytes: &[u8]) -> &[u8]
    ensures { TakesLongest IsSign bytes.now result.now }
{
    match after_either(bytes, b'+', b'-') {
        Some(rest) => rest,
        None => bytes,
    }
}

fn after_power(bytes: &[u8]) -> Option<&[u8]>
    ensures some { IfSome result (λ rest. TakesLongest IsPower bytes.now rest.now) }
    ensures none { IfNone result (NoneStands IsPower bytes.now) }
{
    after_digit_run(after_sign(bytes))
}

fn after_exp(bytes: &[u8]) -> &[u8]
    ensures { TakesLongest IsExp bytes.now result.now }
{
    let Some(power) = after_either(bytes, b'e', b'E') else {
        return bytes;
    };
    match after_power(power) {
        Some(rest) => rest,
        None => bytes,
    }
}

/// What stands behind the longest number at the front.
pub(crate) fn after_number(bytes: &[u8]) -> Option<&[u8]>
    ensures some { IfSome result (λ rest. TakesLongest IsNumber bytes.now rest.now) }
    ensures none { IfNone result (NoneStands IsNumber bytes.now) }
{
    let rest = after_int(after_minus(bytes))?;
    Some(after_exp(after_frac(rest)))
}

/// Whether all of the text is a number.
pub(crate) fn is_number(text: &[u8]) -> bool
    ensures { IsTrue result ↔ IsNumber text.now }
{
    match after_number(text) {
        Some(rest) => rest.is_empty(),
        None => false,
    }
}
