//! What stands between the quotes of a string. RFC 8259, section 7.
ghost use Rattle.std.specs.Prelude.{◌≡◌, ◌≢◌, ◌↔◌, ◌≤◌, ◌∷◌, ◌++◌, ℕ, List, length, IsTrue, IfSome, IfNone};
ghost use Rattle.std.specs.List.{list_all};
ghost use Rattle.json_tree.specs.Fronts.{StartsWith, Takes, NoneStands};
ghost use Rattle.json_tree.specs.Strings.{is_hex_digit, is_short_escape, IsUnescaped, IsFourHexDigits, IsEscape, IsChar, AreChars, IsString};

use crate::front::{after_byte, before};
use std::str::from_utf8;

fn is_hex(byte: u8) -> bool
    ensures { result ≡ is_hex_digit byte }
{
    matches!(byte, b'0'..=b'9' | b'A'..=b'F' | b'a'..=b'f')
}

fn are_hex(digits: &[u8]) -> bool
    ensures { result ≡ list_all is_hex_digit digits.now }
{
    digits.iter().all(|digit| is_hex(*digit))
}

fn after_four_hex(bytes: &[u8]) -> Option<&[u8]>
    ensures some { IfSome result (λ rest. Takes IsFourHexDigits bytes.now rest.now) }
    ensures none { IfNone result (NoneStands IsFourHexDigits bytes.now) }
{
    if bytes.len() < 4 {
        return None;
    }
    let (digits, rest) = bytes.split_at(4);
    if are_hex(digits) { Some(rest) } else { None }
}

fn after_short_escape(bytes: &[u8]) -> Option<&[u8]>
    ensures some { IfSome result (λ rest. StartsWith (λ b. IsTrue (is_short_escape b)) bytes.now rest.now) }
    ensures none { IfNone result ((rest : List ℕ) → ¬ StartsWith (λ b. IsTrue (is_short_escape b)) bytes.now rest) }
{
    let (first, rest) = bytes.split_first()?;
    if matches!(
        *first,
        b'"' | b'\\' | b'/' | b'b' | b'f' | b'n' | b'r' | b't'
    ) {
        Some(rest)
    } else {
        None
    }
}

fn after_escape(bytes: &[u8]) -> Option<&[u8]>
    ensures some { IfSome result (λ rest. Takes IsEscape bytes.now rest.now) }
    ensures none { IfNone result (NoneStands IsEscape bytes.now) }
{
    match after_byte(bytes, b'u') {
        Some(digits) => after_four_hex(digits),
        None => after_short_escape(bytes),
    }
}

fn after_unescaped(bytes: &[u8]) -> Option<&[u8]>
    ensures some { IfSome result (λ rest. StartsWith IsUnescaped bytes.now rest.now) }
    ensures none { IfNone result ((rest : List ℕ) → ¬ StartsWith IsUnescaped bytes.now rest) }
{
    let (first, rest) = bytes.split_first()?;
    if *first >= b' ' && *first != b'"' && *first != b'\\' {
        Some(rest)
    } else {
        None
    }
}

fn after_char(bytes: &[u8]) -> Option<&[u8]>
    ensures some { IfSome result (λ rest. Takes IsChar bytes.now rest.now) }
    ensures none { IfNone result (NoneStands IsChar bytes.now) }
{
    match after_byte(bytes, b'\\') {
        Some(escape) => after_escape(escape),
        None => after_unescaped(bytes),
    }
}

fn after_chars(bytes: &[u8]) -> &[u8]
    ensures chars { Takes AreChars bytes.now result.now }
    ensures stops { NoneStands IsChar result.now }
{
    let mut rest = bytes;
    while let Some(more) = after_char(rest) {
        rest = more;
    }
    rest
}

/// The text up to the next quote that ends a string, and what stands behind that quote.
pub(crate) fn split_string(bytes: &[u8]) -> Option<(&[u8], &[u8])>
    ensures some { IfSome result (λ r. IsString r.0.now × (bytes.now ≡ r.0.now ++ 34 ∷ r.1.now)) }
    ensures none { IfNone result ((text rest : List ℕ) → IsString text → bytes.now ≢ text ++ 34 ∷ rest) }
{
    let end = after_chars(bytes);
    let Some(rest) = after_byte(end, b'"') else {
        return None;
    };
    let text = before(bytes, end);
    match from_utf8(text) {
        Ok(_) => Some((text, rest)),
        Err(_) => None,
    }
}

/// Whether the text between two quotes is a JSON string. It takes no memory.
pub fn is_json_string(text: &[u8]) -> bool
    ensures { IsTrue result ↔ IsString text.now }
{
    if !after_chars(text).is_empty() {
        return false;
    }
    match from_utf8(text) {
        Ok(_) => true,
        Err(_) => false,
    }
}
