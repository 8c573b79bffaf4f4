//! The value at the front of some bytes.
ghost use Rattle.std.specs.Prelude.{◌≡◌, ◌≢◌, ◌≤◌, ◌∷◌, ◌++◌, ℕ, List, take, length, IfOk, IfErr, IfSome, IfNone};
ghost use Rattle.std.specs.List.{AllByRecursion};
ghost use Rattle.json_tree.specs.Numbers.{IsNumber};
ghost use Rattle.json_tree.specs.Fronts.{NoneStands};
ghost use Rattle.json_tree.specs.Spelling.{spelling, member_text, IsJson, Fits, FitsMember, EndsBefore};
ghost use Rattle.json_tree.specs.Reading.{Gives, ReadsValue, NoValue, NoWord, ReadsMember, NoMember, ReadsItems, NoItems, ReadsName, NoName};

use crate::front::{after_byte, after_word, before};
use crate::number::after_number;
use crate::string::split_string;
use crate::tree::{Member, Text, Tree};
use crate::tree_fault::TreeFault;
use lists::Items;
use std::alloc::{AllocError, Global};

/// Reads the longest front of the bytes that spells a value whose lists and objects nest at most `depth` deep, and
/// says how many bytes it has. Bytes may follow it. Reading recurses at most `depth` deep, whatever the bytes are.
pub fn read_tree(alloc: Global, bytes: &[u8], depth: u8) -> Result<(Tree, usize), TreeFault>
    // What is read is spelled so.
    ensures found { IfOk result (λ r. Fits depth r.0 × (take r.1 bytes.now ≡ spelling r.0)) }
    ensures length { IfOk result (λ r. r.1 ≡ length (spelling r.0)) }

    // No longer front spells a value, at any depth.
    ensures longest { IfOk result (λ r. (tree : Tree) (rest : List ℕ) → IsJson tree
        → bytes.now ≡ spelling tree ++ rest → length (spelling tree) ≤ r.1) }

    // What is spelled so is read, whatever follows that can't belong to it, unless memory runs out.
    ensures only { (tree : Tree) (rest : List ℕ) → Fits depth tree → EndsBefore tree rest
        → bytes.now ≡ spelling tree ++ rest
        → Gives result (tree, length (spelling tree)) }

    // No value is said to stand there only where none does.
    ensures none { IfErr result (λ fault. fault ≡ TreeFault.NotATree → NoValue depth bytes.now) }
{
    let (tree, rest) = read_value(alloc, bytes, depth)?;
    Ok((tree, bytes.len() - rest.len()))
}

fn text_of(alloc: Global, bytes: &[u8]) -> Result<Text, AllocError>
    ensures { IfOk result (λ text. text ≡ bytes.now) }
{
    Ok(Items::from_vec(bytes.to_vec(alloc)?))
}

fn read_word(bytes: &[u8]) -> Option<(Tree, &[u8])>
    ensures some { (depth : ℕ) → IfSome result (λ r. ReadsValue depth bytes.now r.0 r.1.now) }
    ensures none { IfNone result (NoWord bytes.now) }
{
    if let Some(rest) = after_word(bytes, b"null") {
        return Some((Tree::Null, rest));
    }
    if let Some(rest) = after_word(bytes, b"true") {
        return Some((Tree::Bool(true), rest));
    }
    if let Some(rest) = after_word(bytes, b"false") {
        return Some((Tree::Bool(false), rest));
    }
    None
}

fn read_number(alloc: Global, bytes: &[u8]) -> Result<(Tree, &[u8]), TreeFault>
    ensures some { (depth : ℕ) → IfOk result (λ r. ReadsValue depth bytes.now r.0 r.1.now) }
    ensures none { IfErr result (λ fault. fault ≡ TreeFault.NotATree → NoneStands IsNumber bytes.now) }
{
    let Some(rest) = after_number(bytes) else {
        return Err(TreeFault::NotATree);
    };
    let text = text_of(alloc, before(bytes, rest))?;
    Ok((Tree::Number(text), rest))
}

/// Reads a string, behind its first quote.
fn read_string(alloc: Global, bytes: &[u8]) -> Result<(Tree, &[u8]), TreeFault>
    ensures some { (depth : ℕ) → IfOk result (λ r. ReadsValue depth (34 ∷ bytes.now) r.0 r.1.now) }
    ensures none { (depth : ℕ) → IfErr result (λ fault. fault ≡ TreeFault.NotATree → NoValue depth (34 ∷ bytes.now)) }
{
    let Some((text, rest)) = split_string(bytes) else {
        return Err(TreeFault::NotATree);
    };
    let text = text_of(alloc, text)?;
    Ok((Tree::Str(text), rest))
}

/// Reads the value that stands at the front and nests at most so deep.
#[cycle(read)]
pub(crate) fn read_value(alloc: Global, bytes: &[u8], depth: u8) -> Result<(Tree, &[u8]), TreeFault>
    ensures some { IfOk result (λ r. ReadsValue depth bytes.now r.0 r.1.now) }
    ensures none { IfErr result (λ fault. fault ≡ TreeFault.NotATree → NoValue depth bytes.now) }
{
    if let Some(text) = after_byte(bytes, b'"') {
        return read_string(alloc, text);
    }
    if let Some(values) = after_byte(bytes, b'[') {
        return read_list(alloc, values, depth);
    }
    if let Some(members) = after_byte(bytes, b'{') {
        return read_object(alloc, members, depth);
    }
    match read_word(bytes) {
        Some((word, rest)) => Ok((word, rest)),
        None => read_number(alloc, bytes),
    }
}

/// Reads a list, behind its bracket.
#[cycle(read)]
fn read_list(alloc: Global, bytes: &[u8], depth: u8) -> Result<(Tree, &[u8]), TreeFault>
    ensures some { IfOk result (λ r. ReadsValue depth (91 ∷ bytes.now) r.0 r.1.now) }
    ensures none { IfErr result (λ fault. fault ≡ TreeFault.NotATree → NoValue depth (91 ∷ bytes.now)) }
{
    if depth == 0 {
        return Err(TreeFault::NotATree);
    }
    let (values, rest) = read_values(alloc, bytes, depth - 1)?;
    Ok((Tree::List(values), rest))
}

/// Reads an object, behind its brace.
#[cycle(read)]
fn read_object(alloc: Global, bytes: &[u8], depth: u8) -> Result<(Tree, &[u8]), TreeFault>
    ensures some { IfOk result (λ r. ReadsValue depth (123 ∷ bytes.now) r.0 r.1.now) }
    ensures none { IfErr result (λ fault. fault ≡ TreeFault.NotATree → NoValue depth (123 ∷ bytes.now)) }
{
    if depth == 0 {
        return Err(TreeFault::NotATree);
    }
    let (members, rest) = read_members(alloc, bytes, depth - 1)?;
    Ok((Tree::Object(members), rest))
}

/// Reads a list's values, and its closing bracket.
#[cycle(read)]
fn read_values(alloc: Global, bytes: &[u8], depth: u8) -> Result<(Items<Tree>, &[u8]), TreeFault>
    ensures some { IfOk result (λ r. ReadsItems (Fits depth) spelling 93 bytes.now r.0 r.1.now) }
    ensures none { IfErr result (λ fault. fault ≡ TreeFault.NotATree → NoItems (Fits depth) spelling 93 bytes.now) }
{
    let mut values = Vec::new(alloc);
    if let Some(rest) = after_byte(bytes, b']') {
        return Ok((Items::from_vec(values), rest));
    }
    let mut left = bytes;
    loop {
        let (value, rest) = read_value(alloc, left, depth)?;
        values.push(value)?;
        if let Some(end) = after_byte(rest, b']') {
            return Ok((Items::from_vec(values), end));
        }
        let Some(more) = after_byte(rest, b',') else {
            return Err(TreeFault::NotATree);
        };
        left = more;
    }
}

/// Reads an object's members, and its closing brace.
#[cycle(read)]
fn read_members(alloc: Global, bytes: &[u8], depth: u8) -> Result<(Items<Member>, &[u8]), TreeFault>
    ensures some { IfOk result (λ r. ReadsItems (FitsMember depth) member_text 125 bytes.now r.0 r.1.now) }
    ensures none { IfErr result (λ fault. fault ≡ TreeFault.NotATree
        → NoItems (FitsMember depth) member_text 125 bytes.now) }
{
    let mut members = Vec::new(alloc);
    if let Some(rest) = after_byte(bytes, b'}') {
        return Ok((Items::from_vec(members), rest));
    }
    let mut left = bytes;
    loop {
        let (member, rest) = read_member(alloc, left, depth)?;
        members.push(member)?;
        if let Some(end) = after_byte(rest, b'}') {
            return Ok((Items::from_vec(members), end));
        }
        let Some(more) = after_byte(rest, b',') else {
            return Err(TreeFault::NotATree);
        };
        left = more;
    }
}

#[cycle(read)]
fn read_member(alloc: Global, bytes: &[u8], depth: u8) -> Result<(Member, &[u8]), TreeFault>
    ensures some { IfOk result (λ r. ReadsMember depth bytes.now r.0 r.1.now) }
    ensures none { IfErr result (λ fault. fault ≡ TreeFault.NotATree → NoMember depth bytes.now) }
{
    let Some((name, value)) = split_name(bytes) else {
        return Err(TreeFault::NotATree);
    };
    let (value, rest) = read_value(alloc, value, depth)?;
    let name = text_of(alloc, name)?;
    Ok((Member { name, value }, rest))
}

/// A member's name, and what stands behind the colon.
fn split_name(bytes: &[u8]) -> Option<(&[u8], &[u8])>
    ensures some { IfSome result (λ r. ReadsName bytes.now r.0.now r.1.now) }
    ensures none { IfNone result (NoName bytes.now) }
{
    let Some(text) = after_byte(bytes, b'"') else {
        return None;
    };
    let Some((name, behind)) = split_string(text) else {
        return None;
    };
    match after_byte(behind, b':') {
        Some(value) => Some((name, value)),
        None => None,
    }
}
