//! What strings and lists of strings hold.
ghost use Rattle.std.specs.Prelude.{◌≡◌, ◌≢◌, ◌↔◌, IsTrue, List, ℕ, IfSome, IfNone, IfOk, map};
ghost use Rattle.std.specs.List.{AllByRecursion};
ghost use Rattle.lists.specs.KeriSpecs.Hex.{IsHexNumber};
ghost use Rattle.json_tree.specs.declared.tree.Tree.TheVariants.{Str};
ghost use Rattle.event_body.specs.BodyFields.Forms.{IsNumberValue};
ghost use Rattle.event_body.specs.BodyFields.Strings.{HoldsOne, HoldsIt, IsListOf, IsText};

use cesr_codes::{Spelled, of_text};
use json_tree::{Text, Tree};
use lists::{CopyValue, Items, is_hex_number};
use std::alloc::{AllocError, Global};

/// The primitive that the string holds.
pub(crate) fn one<P: Spelled>(value: &Tree) -> Option<P>
    ensures some { IfSome result (λ p. HoldsIt P.spelling P.is_valid p value.now) }
    ensures none { IfNone result (¬ HoldsOne P.spelling P.is_valid value.now) }
{
    match value {
        Tree::Str(text) => of_text(text.as_slice()),
        _ => None,
    }
}

/// Whether each is a string that holds a primitive.
pub(crate) fn are_all<P: Spelled>(values: &[Tree]) -> bool
    ensures { IsTrue result ↔ AllByRecursion (HoldsOne P.spelling P.is_valid) values.now }
{
    for value in values {
        if one::<P>(value).is_none() {
            return false;
        }
    }
    true
}

/// What each holds, where each is a string that holds a primitive.
pub(crate) fn all<P: Spelled>(alloc: Global, values: &[Tree]) -> Result<Items<P>, AllocError>
    requires { AllByRecursion (HoldsOne P.spelling P.is_valid) values.now }
    ensures valid { IfOk result (λ found. AllByRecursion P.is_valid found) }
    ensures spelled { IfOk result (λ found. values.now ≡ map (λ p. Str (P.spelling p)) found) }
{
    let mut found = Vec::new(alloc);
    for value in values {
        let Some(primitive) = one::<P>(value) else {
            unreachable!();
        };
        found.push(primitive)?;
    }
    Ok(Items::from_vec(found))
}

/// The digits of the number that the string holds.
pub(crate) fn digits(value: &Tree) -> Option<&[u8]>
    ensures some { IfSome result (λ digits. IsNumberValue digits.now value.now) }
    ensures none { IfNone result ((digits : List ℕ) → ¬ IsNumberValue digits value.now) }
{
    let Tree::Str(text) = value else {
        return None;
    };
    if is_hex_number(text.as_slice()) {
        Some(text.as_slice())
    } else {
        None
    }
}

/// Whether it is a list of strings that hold a primitive each.
pub(crate) fn is_list_of<P: Spelled>(value: &Tree) -> bool
    ensures { IsTrue result ↔ IsListOf (HoldsOne P.spelling P.is_valid) value.now }
{
    match value {
        Tree::List(values) => are_all::<P>(values.as_slice()),
        _ => false,
    }
}

/// Whether it is a list of strings.
pub(crate) fn is_string_list(value: &Tree) -> bool
    ensures { IsTrue result ↔ IsListOf IsText value.now }
{
    match value {
        Tree::List(values) => are_strings(values.as_slice()),
        _ => false,
    }
}

fn are_strings(values: &[Tree]) -> bool
    ensures { IsTrue result ↔ AllByRecursion IsText values.now }
{
    for value in values {
        if !matches!(value, Tree::Str(_)) {
            return false;
        }
    }
    true
}

/// The texts of strings.
pub(crate) fn all_texts(alloc: Global, values: &[Tree]) -> Result<Items<Text>, AllocError>
    requires { AllByRecursion IsText values.now }
    ensures { IfOk result (λ texts. values.now ≡ map (λ text. Str text) texts) }
{
    let mut texts = Vec::new(alloc);
    for value in values {
        let Tree::Str(text) = value else {
            unreachable!();
        };
        texts.push(text.copy(alloc)?)?;
    }
    Ok(Items::from_vec(texts))
}
