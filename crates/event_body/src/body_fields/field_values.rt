//! The values of fields as what they say, where they are of their form.
ghost use Rattle.std.specs.Prelude.{◌≡◌, List, ℕ, IfOk};
ghost use Rattle.std.specs.List.{AllByRecursion};
ghost use Rattle.cesr_codes.specs.Spelling.{IsDigest, IsKey, IsPrefix};
ghost use Rattle.json_tree.specs.declared.tree.Tree.{Tree};
ghost use Rattle.json_tree.specs.declared.tree.Tree.TheVariants.{List as TreeList};
ghost use Rattle.event_body.specs.BodyFields.Forms.{AreFixed, IsNumberValue, IsOfForm, digest_value, digests_value, keys_value, prefix_value, strings_value};

use crate::body_fields::form::Form;
use crate::body_fields::strings::{all, all_texts, digits, one};
use cesr_codes::{Digest, Key, Prefix};
use json_tree::{Text, Tree};
use lists::{CopyValue, Items};
use std::alloc::{AllocError, Global};

/// The digest that the value spells.
pub fn digest_in(value: &Tree) -> Digest
    requires { IsOfForm Form.Digest value.now }
    ensures value { value.now ≡ digest_value result }
    ensures valid { IsDigest result }
{
    match one::<Digest>(value) {
        Some(digest) => digest,
        None => unreachable!(),
    }
}

/// The identifier that the value spells.
pub fn prefix_in(value: &Tree) -> Prefix
    requires { IsOfForm Form.Prefix value.now }
    ensures value { value.now ≡ prefix_value result }
    ensures valid { IsPrefix result }
{
    match one::<Prefix>(value) {
        Some(prefix) => prefix,
        None => unreachable!(),
    }
}

/// The digits of the number.
pub fn number_in(value: &Tree) -> &[u8]
    requires { IsOfForm Form.Number value.now }
    ensures { IsNumberValue result.now value.now }
{
    match digits(value) {
        Some(digits) => digits,
        None => unreachable!(),
    }
}

/// The members of the list.
pub fn members_in(value: &Tree) -> &[Tree]
    requires { (values : List Tree) × (value.now ≡ TreeList values) }
    ensures { value.now ≡ TreeList result.now }
{
    match value {
        Tree::List(values) => values.as_slice(),
        _ => unreachable!(),
    }
}

/// The keys in the list.
pub fn keys_in(alloc: Global, value: &Tree) -> Result<Items<Key>, AllocError>
    requires { IsOfForm Form.Keys value.now }
    ensures value { IfOk result (λ keys. value.now ≡ keys_value keys) }
    ensures valid { IfOk result (λ keys. AllByRecursion IsKey keys) }
{
    all::<Key>(alloc, members_in(value))
}

/// The keys in the list, which are non-transferable: none can be rotated.
pub fn fixed_keys_in(alloc: Global, value: &Tree) -> Result<Items<Key>, AllocError>
    requires { IsOfForm Form.FixedKeys value.now }
    ensures value { IfOk result (λ keys. value.now ≡ keys_value keys) }
    ensures valid { IfOk result (λ keys. AllByRecursion IsKey keys × AreFixed keys) }
{
    let keys = keys_in(alloc, value)?;
    Ok(keys)
}

/// The digests in the list.
pub fn digests_in(alloc: Global, value: &Tree) -> Result<Items<Digest>, AllocError>
    requires { IsOfForm Form.Digests value.now }
    ensures value { IfOk result (λ digests. value.now ≡ digests_value digests) }
    ensures valid { IfOk result (λ digests. AllByRecursion IsDigest digests) }
{
    all::<Digest>(alloc, members_in(value))
}

/// The texts of the strings in the list.
pub fn strings_in(alloc: Global, value: &Tree) -> Result<Items<Text>, AllocError>
    requires { IsOfForm Form.Strings value.now }
    ensures { IfOk result (λ texts. value.now ≡ strings_value texts) }
{
    all_texts(alloc, members_in(value))
}

/// A copy of the list's values.
pub fn values_in(alloc: Global, value: &Tree) -> Result<Items<Tree>, AllocError>
    requires { IsOfForm Form.Values value.now }
    ensures { IfOk result (λ values. value.now ≡ TreeList values) }
{
    match value {
        Tree::List(values) => values.copy(alloc),
        _ => unreachable!(),
    }
}
