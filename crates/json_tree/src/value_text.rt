//! The text of a value.
ghost use Rattle.std.specs.Prelude.{◌≡◌, ◌∷◌, ◌++◌, [], IfOk, OnOk, map};
ghost use Rattle.json_tree.specs.Spelling.{spelling, quoted, separated, after_commas, member_text, IsJson, Spells};

use crate::tree::{Member, Text, Tree};
use lists::Items;
use std::alloc::{AllocError, Global};

/// The text of the value, which spells it.
pub fn tree_text(alloc: Global, tree: &Tree) -> Result<Text, AllocError>
    requires { IsJson tree.now }
    ensures { IfOk result (λ text. Spells tree.now text) }
{
    let mut out = Vec::new(alloc);
    push_tree(&mut out, tree)?;
    Ok(Items::from_vec(out))
}

/// Adds the text of the value at the end.
#[cycle(write)]
fn push_tree(out: &mut Vec<u8>, tree: &Tree) -> Result<(), AllocError>
    ensures { OnOk result (out.new.items ≡ out.old.items ++ spelling tree.now) }
{
    match tree {
        Tree::Null => out.extend_from_slice(b"null"),
        Tree::Bool(true) => out.extend_from_slice(b"true"),
        Tree::Bool(false) => out.extend_from_slice(b"false"),
        Tree::Number(text) => out.extend_from_slice(text.as_slice()),
        Tree::Str(text) => push_quoted(out, text.as_slice()),
        Tree::List(values) => push_list(out, values),
        Tree::Object(members) => push_object(out, members),
    }
}

fn push_quoted(out: &mut Vec<u8>, text: &[u8]) -> Result<(), AllocError>
    ensures { OnOk result (out.new.items ≡ out.old.items ++ quoted text.now) }
{
    out.push(b'"')?;
    out.extend_from_slice(text)?;
    out.push(b'"')?;
    Ok(())
}

#[cycle(write)]
fn push_list(out: &mut Vec<u8>, values: &Items<Tree>) -> Result<(), AllocError>
    ensures { OnOk result (out.new.items ≡ out.old.items ++ 91 ∷ (separated (map spelling values.now) ++ 93 ∷ [])) }
{
    out.push(b'[')?;
    if let Some((first, others)) = values.as_slice().split_first() {
        push_tree(out, first)?;
        for value in others {
            out.push(b',')?;
            push_tree(out, value)?;
        }
    }
    out.push(b']')?;
    Ok(())
}

#[cycle(write)]
fn push_object(out: &mut Vec<u8>, members: &Items<Member>) -> Result<(), AllocError>
    ensures { OnOk result (out.new.items ≡ out.old.items ++ 123 ∷ (separated (map member_text members.now) ++ 125 ∷ [])) }
{
    out.push(b'{')?;
    if let Some((first, others)) = members.as_slice().split_first() {
        push_member(out, first)?;
        for member in others {
            out.push(b',')?;
            push_member(out, member)?;
        }
    }
    out.push(b'}')?;
    Ok(())
}

#[cycle(write)]
fn push_member(out: &mut Vec<u8>, member: &Member) -> Result<(), AllocError>
    ensures { OnOk result (out.new.items ≡ out.old.items ++ member_text member.now) }
{
    push_quoted(out, member.name.as_slice())?;
    out.push(b':')?;
    push_tree(out, &member.value)
}
