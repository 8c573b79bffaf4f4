//! The spelling of a threshold.
ghost use Rattle.std.specs.Prelude.{◌≡◌, ◌++◌, ◌∷◌, [], map, false, IfOk};
ghost use Rattle.std.specs.Fmt.{decimal, digits};
ghost use Rattle.json_tree.specs.declared.tree.Tree.TheVariants.{List as TreeList, Object as TreeObject};
ghost use Rattle.sith.specs.Thresholds.{clause_value, term_value, threshold_value, weight_text as text_of, weight_value};

use crate::term::Term;
use crate::threshold::Threshold;
use crate::weight::Weight;
use json_tree::{Member, Text, Tree};
use lists::Items;
use std::alloc::{AllocError, Global};

fn number_text(alloc: Global, number: u64) -> Result<Text, AllocError>
    ensures { IfOk result (λ text. text ≡ digits 16 false number) }
{
    let text = format!(in alloc; "{number:x}")?;
    Ok(Items::from_vec(text.into_bytes()))
}

fn digit_text(alloc: Global, digit: u8) -> Result<Text, AllocError>
    ensures { IfOk result (λ text. text ≡ digit ∷ []) }
{
    let mut text = Vec::new(alloc);
    text.push(digit)?;
    Ok(Items::from_vec(text))
}

fn part_text(alloc: Global, numerator: u32, denominator: u32) -> Result<Text, AllocError>
    ensures { IfOk result (λ text. text ≡ decimal numerator ++ 47 ∷ decimal denominator) }
{
    let text = format!(in alloc; "{numerator}/{denominator}")?;
    Ok(Items::from_vec(text.into_bytes()))
}

fn weight_text(alloc: Global, weight: Weight) -> Result<Text, AllocError>
    ensures { IfOk result (λ text. text ≡ text_of weight) }
{
    match weight {
        Weight::Zero => digit_text(alloc, b'0'),
        Weight::One => digit_text(alloc, b'1'),
        Weight::Part(numerator, denominator) => part_text(alloc, numerator, denominator),
    }
}

fn weights_tree(alloc: Global, weights: &[Weight]) -> Result<Tree, AllocError>
    ensures { IfOk result (λ tree. tree ≡ TreeList (map weight_value weights.now)) }
{
    let mut texts = Vec::new(alloc);
    for weight in weights {
        texts.push(Tree::Str(weight_text(alloc, *weight)?))?;
    }
    Ok(Tree::List(Items::from_vec(texts)))
}

fn group_tree(alloc: Global, outer: Weight, inner: &[Weight]) -> Result<Tree, AllocError>
    ensures { IfOk result (λ tree. tree
        ≡ TreeObject (record { name = text_of outer; value = TreeList (map weight_value inner.now) } ∷ [])) }
{
    let name = weight_text(alloc, outer)?;
    let value = weights_tree(alloc, inner)?;
    let mut members = Vec::new(alloc);
    members.push(Member { name, value })?;
    Ok(Tree::Object(Items::from_vec(members)))
}

fn term_tree(alloc: Global, term: &Term) -> Result<Tree, AllocError>
    ensures { IfOk result (λ tree. tree ≡ term_value term.now) }
{
    match term {
        Term::Single(weight) => Ok(Tree::Str(weight_text(alloc, *weight)?)),
        Term::Group(outer, inner) => group_tree(alloc, *outer, inner.as_slice()),
    }
}

fn clause_tree(alloc: Global, terms: &[Term]) -> Result<Tree, AllocError>
    ensures { IfOk result (λ tree. tree ≡ clause_value terms.now) }
{
    let mut trees = Vec::new(alloc);
    for term in terms {
        trees.push(term_tree(alloc, term)?)?;
    }
    Ok(Tree::List(Items::from_vec(trees)))
}

fn clauses_tree(alloc: Global, clauses: &[Items<Term>]) -> Result<Tree, AllocError>
    ensures { IfOk result (λ tree. tree ≡ TreeList (map clause_value clauses.now)) }
{
    let mut trees = Vec::new(alloc);
    for clause in clauses {
        trees.push(clause_tree(alloc, clause.as_slice())?)?;
    }
    Ok(Tree::List(Items::from_vec(trees)))
}

impl Threshold {
    /// The value that spells the threshold.
    pub fn tree(&self, alloc: Global) -> Result<Tree, AllocError>
        ensures { IfOk result (λ tree. tree ≡ threshold_value self.now) }
    {
        match self {
            Threshold::Count(count) => Ok(Tree::Str(number_text(alloc, *count)?)),
            Threshold::Flat(terms) => clause_tree(alloc, terms.as_slice()),
            Threshold::Nested(clauses) => clauses_tree(alloc, clauses.as_slice()),
        }
    }
}
