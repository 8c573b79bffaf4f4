//! The text of a body, written from its values.
ghost use Rattle.std.specs.Prelude.{◌≡◌, ◌++◌, ◌<◌, ◌≤◌, false, length, IfOk, IfNone, IfSome, OnOk};
ghost use Rattle.std.specs.Fmt.{digit_glyph};
ghost use Rattle.std.specs.List.{AllByRecursion};
ghost use Rattle.json_tree.specs.Spelling.{IsJson};
ghost use Rattle.event_body.specs.BodyFields.Bodies as bodies;
ghost use Rattle.event_body.specs.BodyFields.Bodies.{kind_text, member_text, members_text};
ghost use Rattle.event_body.specs.BodyFields.Versions.{size_text, version_text};

use crate::body_fields::field::Field;
use crate::body_fields::kind::Kind;
use json_tree::{Tree, tree_text};
use std::alloc::{AllocError, Global};

/// A body has at most so many bytes.
pub const LARGEST: usize = 65_535;

/// The version string has so many, with the opening brace and its name.
const VERSION: usize = 24;

/// The text of a body of this kind with these values, in the order of the kind's field map, or none where it would have
/// more than 65,535 bytes. Where each value is of its field's form, the text is a body.
pub fn write_fields(
    alloc: Global,
    kind: Kind,
    values: &[Tree],
) -> Result<Option<Vec<u8>>, AllocError>
    requires { AllByRecursion IsJson values.now }
    ensures text { IfOk result (λ written. IfSome written (λ text. (text.items ≡ bodies.body_text kind values.now)
        × (length text.items ≤ 65535))) }
    ensures large { IfOk result (λ written. IfNone written (65535 < length (bodies.body_text kind values.now))) }
{
    let behind = behind_version(alloc, kind, values)?;
    if behind.len() > LARGEST - VERSION {
        return Ok(None);
    }
    let mut text = version(alloc, VERSION + behind.len())?;
    text.extend_from_slice(behind.as_slice())?;
    Ok(Some(text))
}

// The kind, the further fields and the closing brace.
fn behind_version(alloc: Global, kind: Kind, values: &[Tree]) -> Result<Vec<u8>, AllocError>
    requires { AllByRecursion IsJson values.now }
    ensures { IfOk result (λ text. text.items ≡ bodies.behind_version kind values.now) }
{
    let mut text = Vec::new(alloc);
    push_kind(&mut text, kind)?;
    push_members(alloc, &mut text, kind.fields(), values)?;
    text.push(b'}')?;
    Ok(text)
}

fn push_kind(out: &mut Vec<u8>, kind: Kind) -> Result<(), AllocError>
    ensures { OnOk result (out.new.items ≡ out.old.items ++ kind_text kind) }
{
    out.extend_from_slice(b",\"t\":\"")?;
    out.extend_from_slice(kind.name().as_bytes())?;
    out.extend_from_slice(b"\"")
}

fn push_members(
    alloc: Global,
    out: &mut Vec<u8>,
    fields: &[Field],
    values: &[Tree],
) -> Result<(), AllocError>
    requires { AllByRecursion IsJson values.now }
    ensures { OnOk result (out.new.items ≡ out.old.items ++ members_text fields.now values.now) }
{
    match (fields.split_first(), values.split_first()) {
        (Some((field, fields)), Some((value, values))) => {
            push_member(alloc, out, *field, value)?;
            push_members(alloc, out, fields, values)
        }
        _ => Ok(()),
    }
}

fn push_member(
    alloc: Global,
    out: &mut Vec<u8>,
    field: Field,
    value: &Tree,
) -> Result<(), AllocError>
    requires { IsJson value.now }
    ensures { OnOk result (out.new.items ≡ out.old.items ++ member_text field value.now) }
{
    out.extend_from_slice(b",\"")?;
    out.extend_from_slice(field.name().as_bytes())?;
    out.extend_from_slice(b"\":")?;
    let text = tree_text(alloc, value)?;
    out.extend_from_slice(text.as_slice())
}

// The opening brace and the version string, which says this size.
fn version(alloc: Global, size: usize) -> Result<Vec<u8>, AllocError>
    ensures { IfOk result (λ text. text.items ≡ version_text (size_text size)) }
{
    let mut text = Vec::new(alloc);
    text.extend_from_slice(b"{\"v\":\"KERI10JSON")?;
    text.extend_from_slice(&size_digits(size))?;
    text.extend_from_slice(b"_\"")?;
    Ok(text)
}

// The last six hexadecimal digits.
fn size_digits(size: usize) -> [u8; 6]
    ensures { result ≡ size_text size }
{
    [
        digit(size / 1_048_576 % 16),
        digit(size / 65_536 % 16),
        digit(size / 4096 % 16),
        digit(size / 256 % 16),
        digit(size / 16 % 16),
        digit(size % 16),
    ]
}

fn digit(value: usize) -> u8
    requires { value < 16 }
    ensures { result ≡ digit_glyph false value }
{
    if value < 10 {
        b'0' + value as u8
    } else {
        b'W' + value as u8
    }
}
