//! The rules of values: lists with few enough members, and numbers with few enough digits.
ghost use Rattle.std.specs.Prelude.{◌↔◌, IsTrue};
ghost use Rattle.std.specs.List.{AllZip};
ghost use Rattle.event_body.specs.BodyFields.Maps.{form_of};
ghost use Rattle.event_body.specs.EventBody.Rules.{HasFewMembers, HasFewDigits, IsFew, IsShort, AreFew, AreShort};

use crate::body_fields::{Field, Form, Kind};
use json_tree::Tree;
use lists::is_hex_number;

/// A list of keys, digests or strings has at most so many members.
const MOST_MEMBERS: usize = 64;

/// A number has at most so many digits.
const MOST_DIGITS: usize = 16;

fn has_few_members(value: &Tree) -> bool
    ensures { IsTrue result ↔ HasFewMembers value.now }
{
    match value {
        Tree::List(members) => members.len() <= MOST_MEMBERS,
        _ => true,
    }
}

fn has_few_digits(value: &Tree) -> bool
    ensures { IsTrue result ↔ HasFewDigits value.now }
{
    match value {
        Tree::Str(text) => text.len() <= MOST_DIGITS || !is_hex_number(text.as_slice()),
        _ => true,
    }
}

fn is_few(form: Form, value: &Tree) -> bool
    ensures { IsTrue result ↔ IsFew form value.now }
{
    match form {
        Form::Keys | Form::FixedKeys | Form::Digests | Form::Strings => has_few_members(value),
        _ => true,
    }
}

fn is_short(form: Form, value: &Tree) -> bool
    ensures { IsTrue result ↔ IsShort form value.now }
{
    match form {
        Form::Positive | Form::Number | Form::Threshold => has_few_digits(value),
        _ => true,
    }
}

// Whether each list is one of few enough members, of so many fields as values.
fn all_few(fields: &[Field], values: &[Tree]) -> bool
    ensures { IsTrue result ↔ AllZip (λ field value. IsFew (form_of field) value) fields.now values.now }
{
    match (fields.split_first(), values.split_first()) {
        (Some((field, fields)), Some((value, values))) => {
            is_few(field.form(), value) && all_few(fields, values)
        }
        (None, None) => true,
        _ => false,
    }
}

// Whether each number has few enough digits, of so many fields as values.
fn all_short(fields: &[Field], values: &[Tree]) -> bool
    ensures { IsTrue result ↔ AllZip (λ field value. IsShort (form_of field) value) fields.now values.now }
{
    match (fields.split_first(), values.split_first()) {
        (Some((field, fields)), Some((value, values))) => {
            is_short(field.form(), value) && all_short(fields, values)
        }
        (None, None) => true,
        _ => false,
    }
}

/// Whether no list of keys, digests or strings has too many members.
pub(crate) fn are_few(kind: Kind, values: &[Tree]) -> bool
    ensures { IsTrue result ↔ AreFew kind values.now }
{
    all_few(kind.fields(), values)
}

/// Whether no number is too large.
pub(crate) fn are_short(kind: Kind, values: &[Tree]) -> bool
    ensures { IsTrue result ↔ AreShort kind values.now }
{
    all_short(kind.fields(), values)
}
