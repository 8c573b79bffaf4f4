//! What a value of the form of a threshold spells.
ghost use Rattle.std.specs.Prelude.{◌≡◌, ◌≤◌, ◌+◌, [], ◌∷◌, List, ℕ, map, min, length, IfOk, IfErr};
ghost use Rattle.std.specs.List.{AllByRecursion, flat_map};
ghost use Rattle.json_tree.specs.declared.tree.Tree.TheVariants.{Str, List as TreeList, Object as TreeObject};
ghost use Rattle.sith.specs.Weights.{IsWeight};
ghost use Rattle.sith.specs.Terms.{weights_in};
ghost use Rattle.sith.specs.Thresholds.{Writes, Spells, IsFormFault, IsWeightFault, weight_text, weight_value, term_value, clause_value, clause_weights, texts_value, written_value, written_clause, written_clauses, texts_of, clause_texts};

use crate::form::{are_clauses, are_terms};
use crate::sith_fault::SithFault;
use crate::term::Term;
use crate::threshold::Threshold;
use crate::weight::Weight;
use json_tree::{Member, Tree};
use lists::{Items, is_hex_number, saturating_hex_value};
use std::alloc::Global;

/// Reads the weight of this number, and counts on.
fn read_weight(text: &[u8], number: &mut u16) -> Result<Weight, SithFault>
    requires { number.old ≤ 65535 }
    ensures some { IfOk result (λ weight. IsWeight weight × (text.now ≡ weight_text weight)) }
    ensures next { IfOk result (λ weight. number.new ≡ min (number.old + 1) 65535) }
    ensures fault { IfErr result (λ fault. IsWeightFault (λ (t : List ℕ). Str t) (λ t. t ∷ []) (Str text.now)
        number.old fault) }
{
    match Weight::read(text) {
        Some(weight) => {
            *number = number.saturating_add(1);
            Ok(weight)
        }
        None => Err(SithFault::BadWeight(*number)),
    }
}

/// Reads the weight that the value spells.
fn read_single(tree: &Tree, number: &mut u16) -> Result<Weight, SithFault>
    requires form { Writes (λ (text : List ℕ). Str text) tree.now }
    requires number { number.old ≤ 65535 }
    ensures some { IfOk result (λ weight. IsWeight weight × (tree.now ≡ weight_value weight)) }
    ensures next { IfOk result (λ weight. number.new ≡ min (number.old + 1) 65535) }
    ensures fault { IfErr result (λ fault. IsWeightFault (λ (t : List ℕ). Str t) (λ t. t ∷ []) tree.now number.old
        fault) }
{
    match tree {
        Tree::Str(text) => read_weight(text.as_slice(), number),
        _ => unreachable!(),
    }
}

/// Reads the weights that these values spell.
fn read_weights(alloc: Global, trees: &[Tree], number: &mut u16) -> Result<Items<Weight>, SithFault>
    requires form { AllByRecursion (Writes (λ (text : List ℕ). Str text)) trees.now }
    requires number { number.old ≤ 65535 }
    ensures some { IfOk result (λ weights. AllByRecursion IsWeight weights × (trees.now ≡ map weight_value weights)) }
    ensures next { IfOk result (λ weights. number.new ≡ min (number.old + length weights) 65535) }
    ensures fault { IfErr result (λ fault. IsWeightFault texts_value (λ texts. texts) (TreeList trees.now)
        number.old fault) }
{
    let mut weights = Vec::new(alloc);
    for tree in trees {
        weights.push(read_single(tree, number)?)?;
    }
    Ok(Items::from_vec(weights))
}

/// Reads the group that the object of this one member spells.
fn read_group(alloc: Global, member: &Member, number: &mut u16) -> Result<Term, SithFault>
    requires form { Writes texts_value member.now.value }
    requires number { number.old ≤ 65535 }
    ensures some { IfOk result (λ term. AllByRecursion IsWeight (weights_in term)
        × (TreeObject (member.now ∷ []) ≡ term_value term)) }
    ensures next { IfOk result (λ term. number.new ≡ min (number.old + length (weights_in term)) 65535) }
    ensures fault { IfErr result (λ fault. IsWeightFault written_value texts_of (TreeObject (member.now ∷ []))
        number.old fault) }
{
    let outer = read_weight(member.name.as_slice(), number)?;
    match &member.value {
        Tree::List(texts) => {
            let inner = read_weights(alloc, texts.as_slice(), number)?;
            Ok(Term::Group(outer, inner))
        }
        _ => unreachable!(),
    }
}

/// Reads the term that the value spells.
fn read_term(alloc: Global, tree: &Tree, number: &mut u16) -> Result<Term, SithFault>
    requires form { Writes written_value tree.now }
    requires number { number.old ≤ 65535 }
    ensures some { IfOk result (λ term. AllByRecursion IsWeight (weights_in term) × (tree.now ≡ term_value term)) }
    ensures next { IfOk result (λ term. number.new ≡ min (number.old + length (weights_in term)) 65535) }
    ensures fault { IfErr result (λ fault. IsWeightFault written_value texts_of tree.now number.old fault) }
{
    match tree {
        Tree::Str(text) => {
            let weight = read_weight(text.as_slice(), number)?;
            Ok(Term::Single(weight))
        }
        Tree::Object(members) => match members.as_slice() {
            [member] => read_group(alloc, member, number),
            _ => unreachable!(),
        },
        _ => unreachable!(),
    }
}

/// Reads the clause that these values spell.
fn read_terms(alloc: Global, trees: &[Tree], number: &mut u16) -> Result<Items<Term>, SithFault>
    requires form { AllByRecursion (Writes written_value) trees.now }
    requires number { number.old ≤ 65535 }
    ensures some { IfOk result (λ terms. AllByRecursion IsWeight (clause_weights terms)
        × (trees.now ≡ map term_value terms)) }
    ensures next { IfOk result (λ terms. number.new ≡ min (number.old + length (clause_weights terms)) 65535) }
    ensures fault { IfErr result (λ fault. IsWeightFault written_clause clause_texts (TreeList trees.now)
        number.old fault) }
{
    let mut terms = Vec::new(alloc);
    for tree in trees {
        terms.push(read_term(alloc, tree, number)?)?;
    }
    Ok(Items::from_vec(terms))
}

/// Reads the clause that the value spells.
fn read_clause(alloc: Global, tree: &Tree, number: &mut u16) -> Result<Items<Term>, SithFault>
    requires form { Writes written_clause tree.now }
    requires number { number.old ≤ 65535 }
    ensures some { IfOk result (λ terms. AllByRecursion IsWeight (clause_weights terms)
        × (tree.now ≡ clause_value terms)) }
    ensures next { IfOk result (λ terms. number.new ≡ min (number.old + length (clause_weights terms)) 65535) }
    ensures fault { IfErr result (λ fault. IsWeightFault written_clause clause_texts tree.now number.old fault) }
{
    match tree {
        Tree::List(trees) => read_terms(alloc, trees.as_slice(), number),
        _ => unreachable!(),
    }
}

/// Reads the clauses that these values spell.
fn read_clauses(alloc: Global, trees: &[Tree]) -> Result<Items<Items<Term>>, SithFault>
    requires { AllByRecursion (Writes written_clause) trees.now }
    ensures some { IfOk result (λ clauses. AllByRecursion IsWeight (flat_map clause_weights clauses)
        × (trees.now ≡ map clause_value clauses)) }
    ensures fault { IfErr result (λ fault. IsWeightFault written_clauses (flat_map clause_texts)
        (TreeList trees.now) 0 fault) }
{
    let mut clauses = Vec::new(alloc);
    let mut number = 0u16;
    for tree in trees {
        clauses.push(read_clause(alloc, tree, &mut number)?)?;
    }
    Ok(Items::from_vec(clauses))
}

/// Reads the clauses of a list, or the one clause.
fn read_list(alloc: Global, trees: &[Tree]) -> Result<Threshold, SithFault>
    ensures some { IfOk result (λ threshold. Spells threshold (TreeList trees.now)) }
    ensures fault { IfErr result (λ fault. IsFormFault fault (TreeList trees.now)) }
{
    if are_clauses(trees) {
        return Ok(Threshold::Nested(read_clauses(alloc, trees)?));
    }
    if are_terms(trees) {
        let mut number = 0u16;
        return Ok(Threshold::Flat(read_terms(alloc, trees, &mut number)?));
    }
    Err(SithFault::Form)
}

impl Threshold {
    ghost use Rattle.std.specs.Prelude.{◌⊎◌, Ok, Err};
    ghost use Rattle.sith.specs.declared.sith_fault.SithFault.TheVariants.{OutOfMemory};
    ghost use Rattle.sith.specs.declared.threshold.Threshold.{Threshold};

    /// The threshold that the value spells, for whatever number of keys. A number that is greater than 2^64 - 1 is
    /// read as that, which is a threshold of no number of keys.
    pub fn read_form(alloc: Global, tree: &Tree) -> Result<Threshold, SithFault>
        ensures some { IfOk result (λ threshold. Spells threshold tree.now) }
        ensures fault { IfErr result (λ fault. IsFormFault fault tree.now) }

        // What is spelled is read, unless memory runs out.
        ensures only { (threshold : Threshold) → Spells threshold tree.now
            → (result ≡ Ok threshold) ⊎ (result ≡ Err OutOfMemory) }
    {
        match tree {
            Tree::Str(digits) => {
                let digits = digits.as_slice();
                if is_hex_number(digits) {
                    Ok(Threshold::Count(saturating_hex_value(digits)))
                } else {
                    Err(SithFault::Form)
                }
            }
            Tree::List(trees) => read_list(alloc, trees.as_slice()),
            Tree::Null | Tree::Bool(_) | Tree::Number(_) | Tree::Object(_) => Err(SithFault::Form),
        }
    }
}
