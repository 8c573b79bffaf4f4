//! Whether a value's texts are of the grammar.
ghost use Rattle.std.specs.Prelude.{◌↔◌, IsTrue};
ghost use Rattle.std.specs.List.{AllByRecursion};
ghost use Rattle.json_tree.specs.Spelling.{IsJson, IsJsonMember};

use crate::number::is_number;
use crate::string::is_json_string;
use crate::tree::{Member, Tree};
use lists::Items;

/// Whether each number, string and member name that the value keeps is of JSON's grammar. It takes no memory.
#[cycle(check)]
pub fn is_json(tree: &Tree) -> bool
    ensures { IsTrue result ↔ IsJson tree.now }
{
    match tree {
        Tree::Null | Tree::Bool(_) => true,
        Tree::Number(text) => is_number(text.as_slice()),
        Tree::Str(text) => is_json_string(text.as_slice()),
        Tree::List(values) => are_json(values),
        Tree::Object(members) => are_json_members(members),
    }
}

#[cycle(check)]
fn are_json(values: &Items<Tree>) -> bool
    ensures { IsTrue result ↔ AllByRecursion IsJson values.now }
{
    for value in values.as_slice() {
        if !is_json(value) {
            return false;
        }
    }
    true
}

#[cycle(check)]
fn are_json_members(members: &Items<Member>) -> bool
    ensures { IsTrue result ↔ AllByRecursion IsJsonMember members.now }
{
    for member in members.as_slice() {
        if !is_json_string(member.name.as_slice()) || !is_json(&member.value) {
            return false;
        }
    }
    true
}
