//! Values that are JSON.
ghost use Rattle.std.specs.Prelude.{◌↔◌, IfOk, IsTrue, List, ℕ};
ghost use Rattle.json_tree.specs.declared.tree.Tree.{Tree};
ghost use Rattle.sith.specs.declared.threshold.Threshold.{Threshold};
ghost use Rattle.controller_core.specs.PlanText.Entries.{IsJsonValue, IsShort, IsThresholdText, IsTraitText};
ghost use Rattle.controller_core.specs.PlanText.Reading.{Gives};

use crate::plan_text::line_fault::LineFault;
use crate::plan_text::number::MOST_DIGITS;
use json_tree::{Text, Tree, TreeFault, read_tree};
use sith::{SithFault, Threshold};
use std::alloc::Global;

// Values nest at most so deep.
const DEPTH: u8 = 8;

/// The JSON value that is spelled so.
pub(crate) fn read_json(alloc: Global, value: &[u8]) -> Result<Tree, LineFault>
    ensures some { IfOk result (λ tree. IsJsonValue tree value.now) }
    ensures only { (tree : Tree) → IsJsonValue tree value.now → Gives result tree }
{
    match read_tree(alloc, value, DEPTH) {
        Ok((tree, count)) if count == value.len() => Ok(tree),
        Err(TreeFault::OutOfMemory) => Err(LineFault::OutOfMemory),
        _ => Err(LineFault::Refused),
    }
}

/// The text that is spelled as a JSON string.
pub(crate) fn read_trait(alloc: Global, value: &[u8]) -> Result<Text, LineFault>
    ensures some { IfOk result (λ text. IsTraitText text value.now) }
    ensures only { (text : List ℕ) → IsTraitText text value.now → Gives result text }
{
    match read_json(alloc, value) {
        Ok(Tree::Str(text)) => Ok(text),
        Ok(_) => Err(LineFault::Refused),
        Err(fault) => Err(fault),
    }
}

/// The threshold that is spelled as a JSON value.
#[tactic(auto, unfolding(crate::specs::PlanText::Entries::IsThresholdText))]
pub(crate) fn read_threshold(alloc: Global, value: &[u8]) -> Result<Threshold, LineFault>
    ensures some { IfOk result (λ threshold. IsThresholdText threshold value.now) }
    ensures only { (threshold : Threshold) → IsThresholdText threshold value.now → Gives result threshold }
{
    let tree = read_json(alloc, value)?;
    if !is_short(&tree) {
        return Err(LineFault::Refused);
    }
    match Threshold::read_form(alloc, &tree) {
        Ok(threshold) => Ok(threshold),
        Err(SithFault::OutOfMemory) => Err(LineFault::OutOfMemory),
        Err(_) => Err(LineFault::Refused),
    }
}

// Whether it isn't a text of more digits than a number has.
fn is_short(tree: &Tree) -> bool
    ensures { IsTrue result ↔ IsShort tree.now }
{
    match tree {
        Tree::Str(digits) => digits.len() <= MOST_DIGITS,
        _ => true,
    }
}
