//! What stands at the front of bytes.
ghost use Rattle.std.specs.Prelude.{◌≡◌, ◌≢◌, ◌++◌, List, ℕ, IfSome, IfNone};
ghost use Rattle.event_body.specs.declared.body_fields.kind.Kind.{Kind};
ghost use Rattle.event_body.specs.BodyFields.Fronts.{between};
ghost use Rattle.event_body.specs.BodyFields.Versions.{IsSize, version_text};
ghost use Rattle.event_body.specs.BodyFields.Bodies.{kind_text, name_text};

use crate::body_fields::field::Field;
use crate::body_fields::kind::Kind;
use lists::all_hex;

/// What follows the literal at the front.
pub(crate) fn literal<'a>(bytes: &'a [u8], text: &[u8]) -> Option<&'a [u8]>
    ensures some { IfSome result (λ rest. bytes.now ≡ text.now ++ rest.now) }
    ensures none { IfNone result ((rest : List ℕ) → bytes.now ≢ text.now ++ rest) }
{
    if !bytes.starts_with(text) {
        return None;
    }
    Some(&bytes[text.len()..])
}

/// What follows the three literals at the front, which stand one after the other.
pub(crate) fn enclosed<'a>(
    bytes: &'a [u8],
    opening: &[u8],
    text: &[u8],
    closing: &[u8],
) -> Option<&'a [u8]>
    ensures some { IfSome result (λ rest. bytes.now ≡ between opening.now closing.now text.now ++ rest.now) }
    ensures none { IfNone result ((rest : List ℕ) → bytes.now ≢ between opening.now closing.now text.now ++ rest) }
{
    let Some(behind) = literal(bytes, opening) else {
        return None;
    };
    let Some(last) = literal(behind, text) else {
        return None;
    };
    let Some(rest) = literal(last, closing) else {
        return None;
    };
    Some(rest)
}

/// The digits of the size in the version string, and what follows that.
pub(crate) fn version(bytes: &[u8]) -> Option<(&[u8], &[u8])>
    ensures some { IfSome result (λ r. IsSize r.0.now × (bytes.now ≡ version_text r.0.now ++ r.1.now)) }
    ensures none { IfNone result ((size rest : List ℕ) → IsSize size → bytes.now ≢ version_text size ++ rest) }
{
    let Some(behind) = literal(bytes, b"{\"v\":\"KERI10JSON") else {
        return None;
    };
    let Some((size, behind)) = size_digits(behind) else {
        return None;
    };
    let Some(rest) = literal(behind, b"_\"") else {
        return None;
    };
    Some((size, rest))
}

// Six hexadecimal digits at the front, and what follows them.
fn size_digits(bytes: &[u8]) -> Option<(&[u8], &[u8])>
    ensures some { IfSome result (λ r. IsSize r.0.now × (bytes.now ≡ r.0.now ++ r.1.now)) }
    ensures none { IfNone result ((size rest : List ℕ) → IsSize size → bytes.now ≢ size ++ rest) }
{
    let Some((digits, rest)) = bytes.split_at_checked(6) else {
        return None;
    };
    if !all_hex(digits) {
        return None;
    }
    Some((digits, rest))
}

/// The kind, and what follows it.
pub(crate) fn kind(bytes: &[u8]) -> Option<(Kind, &[u8])>
    ensures some { IfSome result (λ r. bytes.now ≡ kind_text r.0 ++ r.1.now) }
    ensures none { IfNone result ((kind : Kind) (rest : List ℕ) → bytes.now ≢ kind_text kind ++ rest) }
{
    for kind in [
        Kind::Icp,
        Kind::Rot,
        Kind::Ixn,
        Kind::Dip,
        Kind::Drt,
        Kind::Rct,
    ] {
        if let Some(rest) = enclosed(bytes, b",\"t\":\"", kind.name().as_bytes(), b"\"") {
            return Some((kind, rest));
        }
    }
    None
}

/// What follows the comma, the field's name and the colon.
pub(crate) fn name(bytes: &[u8], field: Field) -> Option<&[u8]>
    ensures some { IfSome result (λ rest. bytes.now ≡ name_text field ++ rest.now) }
    ensures none { IfNone result ((rest : List ℕ) → bytes.now ≢ name_text field ++ rest) }
{
    enclosed(bytes, b",\"", field.name().as_bytes(), b"\":")
}
