//! The values of fields, from what they say.
ghost use Rattle.std.specs.Prelude.{◌≡◌, IfOk, map};
ghost use Rattle.json_tree.specs.declared.tree.Tree.TheVariants.{Str, List as TreeList};
ghost use Rattle.event_body.specs.BodyFields.Forms.{digest_value, digests_value, keys_value, number_value, prefix_value, strings_value};

use crate::body_fields::primitive::Primitive;
use cesr_codes::{Digest, Key, Prefix};
use json_tree::{Text, Tree};
use lists::{CopyValue, Items};
use std::alloc::{AllocError, Global};

/// A string of the digest's 44 characters.
pub fn digest_tree(alloc: Global, digest: &Digest) -> Result<Tree, AllocError>
    ensures { IfOk result (λ tree. tree ≡ digest_value digest.now) }
{
    one_tree(alloc, digest)
}

/// A string of the identifier's 44 characters.
pub fn prefix_tree(alloc: Global, prefix: &Prefix) -> Result<Tree, AllocError>
    ensures { IfOk result (λ tree. tree ≡ prefix_value prefix.now) }
{
    one_tree(alloc, prefix)
}

/// A string of the number's lower-case hexadecimal digits, without leading zeros.
pub fn number_tree(alloc: Global, number: u64) -> Result<Tree, AllocError>
    ensures { IfOk result (λ tree. tree ≡ number_value number) }
{
    let text = format!(in alloc; "{number:x}")?;
    Ok(Tree::Str(Items::from_vec(text.into_bytes())))
}

/// A list of the keys' strings, in order.
pub fn keys_tree(alloc: Global, keys: &Items<Key>) -> Result<Tree, AllocError>
    ensures { IfOk result (λ tree. tree ≡ keys_value keys.now) }
{
    list_tree(alloc, keys.as_slice())
}

/// A list of the digests' strings, in order.
pub fn digests_tree(alloc: Global, digests: &Items<Digest>) -> Result<Tree, AllocError>
    ensures { IfOk result (λ tree. tree ≡ digests_value digests.now) }
{
    list_tree(alloc, digests.as_slice())
}

/// A list of strings with these texts between their quotes, escapes as they are written.
pub fn strings_tree(alloc: Global, texts: &Items<Text>) -> Result<Tree, AllocError>
    ensures { IfOk result (λ tree. tree ≡ strings_value texts.now) }
{
    let mut values = Vec::new(alloc);
    for text in texts.as_slice() {
        values.push(Tree::Str(text.copy(alloc)?))?;
    }
    Ok(Tree::List(Items::from_vec(values)))
}

fn one_tree<P: Primitive>(alloc: Global, primitive: &P) -> Result<Tree, AllocError>
    ensures { IfOk result (λ tree. tree ≡ Str (P.spelling primitive.now)) }
{
    let mut text = [0u8; 44];
    primitive.write_text(&mut text);
    Ok(Tree::Str(Items::from_vec(text.to_vec(alloc)?)))
}

fn list_tree<P: Primitive>(alloc: Global, primitives: &[P]) -> Result<Tree, AllocError>
    ensures { IfOk result (λ tree. tree ≡ TreeList (map (λ p. Str (P.spelling p)) primitives.now)) }
{
    let mut values = Vec::new(alloc);
    for primitive in primitives {
        values.push(one_tree(alloc, primitive)?)?;
    }
    Ok(Tree::List(Items::from_vec(values)))
}
