//! A JSON value.
ghost use Rattle.std.specs.Prelude.{◌≡◌, IfOk};

use lists::{CopyValue, Items};
use std::alloc::{AllocError, Global};

/// The bytes of a text, as they are written.
pub type Text = Items<u8>;

/// A JSON value. A number keeps its text as written, and a string what stands between its quotes, with its escapes.
#[derive(Drop, PartialEq, Debug)]
#[cycle(tree)]
pub enum Tree {
    Null,
    Bool(bool),
    Number(Text),
    Str(Text),
    List(Items<Tree>),
    Object(Items<Member>),
}

/// A member of an object. Its name is kept as what stands between the quotes.
#[derive(Drop, PartialEq, Debug)]
#[cycle(tree)]
pub struct Member {
    pub name: Text,
    pub value: Tree,
}

impl CopyValue for Tree {
    fn copy(&self, alloc: Global) -> Result<Tree, AllocError> {
        copy_tree(alloc, self)
    }
}

impl CopyValue for Member {
    fn copy(&self, alloc: Global) -> Result<Member, AllocError> {
        copy_member(alloc, self)
    }
}

#[cycle(copy)]
fn copy_tree(alloc: Global, tree: &Tree) -> Result<Tree, AllocError>
    ensures { IfOk result (λ t. t ≡ tree.now) }
{
    match tree {
        Tree::Null => Ok(Tree::Null),
        Tree::Bool(value) => Ok(Tree::Bool(*value)),
        Tree::Number(text) => Ok(Tree::Number(text.copy(alloc)?)),
        Tree::Str(text) => Ok(Tree::Str(text.copy(alloc)?)),
        Tree::List(trees) => Ok(Tree::List(copy_trees(alloc, trees)?)),
        Tree::Object(members) => Ok(Tree::Object(copy_members(alloc, members)?)),
    }
}

#[cycle(copy)]
fn copy_trees(alloc: Global, trees: &Items<Tree>) -> Result<Items<Tree>, AllocError>
    ensures { IfOk result (λ t. t ≡ trees.now) }
{
    let mut copies = Vec::new(alloc);
    for tree in trees.as_slice() {
        copies.push(copy_tree(alloc, tree)?)?;
    }
    Ok(Items::from_vec(copies))
}

#[cycle(copy)]
fn copy_members(alloc: Global, members: &Items<Member>) -> Result<Items<Member>, AllocError>
    ensures { IfOk result (λ t. t ≡ members.now) }
{
    let mut copies = Vec::new(alloc);
    for member in members.as_slice() {
        copies.push(copy_member(alloc, member)?)?;
    }
    Ok(Items::from_vec(copies))
}

#[cycle(copy)]
fn copy_member(alloc: Global, member: &Member) -> Result<Member, AllocError>
    ensures { IfOk result (λ m. m ≡ member.now) }
{
    let name = member.name.copy(alloc)?;
    let value = copy_tree(alloc, &member.value)?;
    Ok(Member { name, value })
}
