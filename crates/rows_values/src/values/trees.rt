//! JSON values and thresholds.
ghost use Rattle.std.specs.Prelude.{IfOk};
ghost use Rattle.sith.specs.Rules.{IsReadFor};

use json_tree::{Text, Tree, TreeFault, is_json, is_json_string, read_tree, tree_text};
use lists::{CopyValue, Items};
use rows::{Row, given};
use sith::{SithFault, Threshold};
use std::alloc::{AllocError, Global};

// The depth that thresholds are read to.
const DEPTH: u8 = 8;

fn kind_and_size(tree: &Tree) -> (&'static str, usize) {
    match tree {
        Tree::Null => ("null", 4),
        Tree::Bool(true) => ("true", 4),
        Tree::Bool(false) => ("false", 5),
        Tree::Number(text) => ("number", text.len()),
        Tree::Str(text) => ("string", text.len()),
        Tree::List(values) => ("list", values.len()),
        Tree::Object(members) => ("object", members.len()),
    }
}

// The value as it is written, or `-` where it isn't of the grammar.
fn text_of(alloc: Global, tree: &Tree) -> Result<String, AllocError> {
    if !is_json(tree) {
        return String::from_str(alloc, "-");
    }
    let text = tree_text(alloc, tree)?;
    String::from_utf8_lossy(alloc, text.as_slice())
}

fn written(alloc: Global, tree: Tree) -> Result<String, AllocError> {
    let text = text_of(alloc, &tree);
    drop(tree);
    text
}

fn tree_words(alloc: Global, tree: &Tree, length: usize) -> Result<String, AllocError> {
    let (kind, size) = kind_and_size(tree);
    let text = written(alloc, tree.copy(alloc)?)?;
    let text = text.as_str();
    format!(in alloc; "{kind} {size} {length} {text}")
}

/// `tree DEPTH TEXT`: the kind and the size of what is read at the front, its length, and a copy of it written.
fn tree(alloc: Global, row: &Row) -> Result<String, AllocError> {
    let depth = row.number(1).min(255) as u8;
    let text = row.bytes(alloc, 2)?;
    match read_tree(alloc, text.as_slice(), depth) {
        Ok((tree, length)) => {
            let words = tree_words(alloc, &tree, length);
            drop(tree);
            words
        }
        Err(TreeFault::NotATree) => String::from_str(alloc, "NotATree"),
        Err(TreeFault::OutOfMemory) => Err(AllocError),
    }
}

fn is_written(tree: Tree) -> bool {
    let is_json = is_json(&tree);
    drop(tree);
    is_json
}

/// `json KIND TEXT`: whether the number, string or member's name of this text is of the grammar.
fn json(alloc: Global, row: &Row) -> Result<String, AllocError> {
    let text: Text = Items::from_vec(row.bytes(alloc, 2)?);
    let is_json = match row.word(1) {
        "number" => is_written(Tree::Number(text)),
        "text" => is_json_string(text.as_slice()),
        _ => is_written(Tree::Str(text)),
    };
    format!(in alloc; "{is_json}")
}

fn threshold_of(alloc: Global, text: &[u8], keys: u16) -> Result<Threshold, SithFault>
    ensures { IfOk result (λ threshold. IsReadFor threshold keys) }
{
    match read_tree(alloc, text, DEPTH) {
        Ok((tree, _)) => {
            let threshold = Threshold::read(alloc, &tree, keys);
            drop(tree);
            threshold
        }
        Err(TreeFault::NotATree) => Err(SithFault::Form),
        Err(TreeFault::OutOfMemory) => Err(SithFault::OutOfMemory),
    }
}

// The value of a copy of the threshold.
fn copied(alloc: Global, threshold: &Threshold) -> Result<Tree, AllocError> {
    let copy = threshold.copy(alloc)?;
    let tree = copy.tree(alloc);
    drop(copy);
    tree
}

fn threshold_text(alloc: Global, threshold: Threshold) -> Result<String, AllocError> {
    let tree = copied(alloc, &threshold);
    drop(threshold);
    written(alloc, tree?)
}

/// `threshold KEYS TEXT`: a copy of the threshold for so many keys, written, or the fault.
fn threshold(alloc: Global, row: &Row) -> Result<String, AllocError> {
    let keys = row.number(1).min(65_535) as u16;
    let text = row.bytes(alloc, 2)?;
    match threshold_of(alloc, text.as_slice(), keys) {
        Ok(threshold) => threshold_text(alloc, threshold),
        Err(SithFault::OutOfMemory) => Err(AllocError),
        Err(fault) => format!(in alloc; "{fault:?}"),
    }
}

// Whether the indices meet the threshold of the text, where it spells one.
fn meet(alloc: Global, text: &[u8], keys: u16, indices: &[u16]) -> Option<bool> {
    match threshold_of(alloc, text, keys) {
        Ok(threshold) => {
            let met = threshold.satisfied(keys, indices);
            drop(threshold);
            Some(met)
        }
        Err(_) => None,
    }
}

/// `met KEYS INDEX,INDEX TEXT`: whether these indices meet the threshold for so many keys.
fn met(alloc: Global, row: &Row) -> Result<String, AllocError> {
    let keys = row.number(1).min(65_535) as u16;
    let indices = row.numbers(alloc, 2)?;
    let text = row.bytes(alloc, 3)?;
    let is_met = meet(alloc, text.as_slice(), keys, indices.as_slice());
    format!(in alloc; "{is_met:?}")
}

/// The answer of the row, where it is one of these calls.
pub(crate) fn answer(alloc: Global, row: &Row) -> Result<Option<String>, AllocError> {
    match row.word(0) {
        "tree" => given(tree(alloc, row)),
        "json" => given(json(alloc, row)),
        "threshold" => given(threshold(alloc, row)),
        "met" => given(met(alloc, row)),
        _ => Ok(None),
    }
}
