//! The forms that a field's value may have.
ghost use Rattle.std.specs.Prelude.{◌≡◌, ◌↔◌, ◌≢◌, ◌⊎◌, List, ℕ, IsTrue, codes};
ghost use Rattle.json_tree.specs.declared.tree.Tree.{Tree};
ghost use Rattle.json_tree.specs.declared.tree.Tree.TheVariants.{Str, List as TreeList};
ghost use Rattle.json_tree.specs.Spelling.{Fits};
ghost use Rattle.event_body.specs.BodyFields.Forms.{depth_of, IsOfForm, IsNumberValue, IsStringOrList};

use crate::body_fields::strings::{digits, is_list_of, is_string_list, one};
use cesr_codes::{Digest, FixedKey, Key, Prefix};
use json_tree::Tree;

/// A threshold nests at most so deep: a list of clauses, each a list, with groups that are objects of a list.
const THRESHOLD_DEPTH: u8 = 4;

/// What a field's value is.
#[derive(Clone, Copy, PartialEq, Eq, Debug)]
pub enum Form {
    Digest,
    Prefix,
    /// The number 0.
    Zero,
    /// A number that isn't 0.
    Positive,
    Number,
    Threshold,
    Keys,
    /// Non-transferable keys, which can't be rotated.
    FixedKeys,
    Digests,
    Strings,
    Values,
}

impl Form {
    /// How deep a value of the form may nest.
    pub(crate) fn depth(self) -> u8
        ensures { result ≡ depth_of self }
    {
        match self {
            Form::Digest | Form::Prefix | Form::Zero | Form::Positive | Form::Number => 0,
            Form::Keys | Form::FixedKeys | Form::Digests | Form::Strings => 1,
            Form::Threshold => THRESHOLD_DEPTH,
            Form::Values => 9,
        }
    }

    /// Whether a value that nests no deeper than that is of the form.
    pub(crate) fn admits(self, value: &Tree) -> bool
        requires { Fits (depth_of self) value.now }
        ensures { IsTrue result ↔ IsOfForm self value.now }
    {
        match self {
            Form::Digest => one::<Digest>(value).is_some(),
            Form::Prefix => one::<Prefix>(value).is_some(),
            Form::Zero => is_zero(value),
            Form::Positive => is_positive(value),
            Form::Number => digits(value).is_some(),
            Form::Threshold => matches!(value, Tree::Str(_) | Tree::List(_)),
            Form::Keys => is_list_of::<Key>(value),
            Form::FixedKeys => is_list_of::<FixedKey>(value),
            Form::Digests => is_list_of::<Digest>(value),
            Form::Strings => is_string_list(value),
            Form::Values => matches!(value, Tree::List(_)),
        }
    }
}

fn is_zero(value: &Tree) -> bool
    ensures { IsTrue result ↔ (value.now ≡ Str (codes "0")) }
{
    match value {
        Tree::Str(text) => text.as_slice() == b"0".as_slice(),
        _ => false,
    }
}

fn is_positive(value: &Tree) -> bool
    ensures { IsTrue result ↔ IsOfForm Form.Positive value.now }
{
    match digits(value) {
        Some(digits) => digits != b"0".as_slice(),
        None => false,
    }
}
