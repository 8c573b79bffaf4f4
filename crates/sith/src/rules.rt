//! What is asked of the clauses of a threshold, and which of them are met.
ghost use Rattle.std.specs.Prelude.{◌≡◌, ◌≤◌, ◌+◌, min, length};
ghost use Rattle.std.specs.List.{AllByRecursion, flat_map};
ghost use Rattle.sith.specs.Weights.{IsWeight};
ghost use Rattle.sith.specs.Clauses.{AreRead, reach_whole};
ghost use Rattle.sith.specs.Terms.{clause_size as size_of, inner_of, sums_of, terms_at};
ghost use Rattle.sith.specs.Thresholds.{weight_count};
ghost use Rattle.sith.specs.Rules.{count_below, IsSumsFault, graver as graver_of};
ghost use Rattle.sith.specs.Tests.{are_met as all_met};

use crate::member::Member;
use crate::signers::has_index;
use crate::sith_fault::SithFault;
use crate::sum::{reaches_whole, sum_fault};
use crate::term::Term;
use lists::Items;

/// How many indices the clause takes, or 65,536 for more.
pub(crate) fn clause_size(terms: &[Term]) -> usize
    ensures { result ≡ min (size_of terms.now) 65536 }
{
    let mut sum = 0usize;
    for term in terms {
        sum = sum.saturating_add(term.size()).min(65_536);
    }
    sum
}

/// How many indices the clauses take, or 65,536 for more.
pub(crate) fn total(clauses: &[Items<Term>]) -> usize
    ensures { result ≡ min (weight_count clauses.now) 65536 }
{
    let mut sum = 0usize;
    for clause in clauses {
        sum = sum
            .saturating_add(clause_size(clause.as_slice()))
            .min(65_536);
    }
    sum
}

// The first fault in the order of the rules.
fn graver(one: Option<SithFault>, other: Option<SithFault>) -> Option<SithFault>
    ensures { result ≡ graver_of one other }
{
    match one {
        None => other,
        Some(SithFault::TooFine) => one,
        Some(_) => match other {
            None => one,
            Some(_) => other,
        },
    }
}

/// The rule that the inner weights of a term break.
fn inner_fault(term: &Term) -> Option<SithFault>
    requires { AllByRecursion (AllByRecursion IsWeight) (inner_of term.now) }
    ensures { IsSumsFault result (inner_of term.now) }
{
    match term {
        Term::Single(_) => None,
        Term::Group(_, inner) => sum_fault(inner.as_slice()),
    }
}

/// The rule that the inner weights of these terms break.
fn groups_fault(terms: &[Term]) -> Option<SithFault>
    requires { AllByRecursion (AllByRecursion IsWeight) (flat_map inner_of terms.now) }
    ensures { IsSumsFault result (flat_map inner_of terms.now) }
{
    let mut fault = None;
    for term in terms {
        fault = graver(fault, inner_fault(term));
    }
    fault
}

/// The rule that the weights of a clause break.
fn clause_fault(terms: &[Term]) -> Option<SithFault>
    requires { AllByRecursion (AllByRecursion IsWeight) (sums_of terms.now) }
    ensures { IsSumsFault result (sums_of terms.now) }
{
    graver(sum_fault(terms), groups_fault(terms))
}

/// The rule that the weights of these clauses break.
pub(crate) fn clauses_fault(clauses: &[Items<Term>]) -> Option<SithFault>
    requires { AllByRecursion (AllByRecursion IsWeight) (flat_map sums_of clauses.now) }
    ensures { IsSumsFault result (flat_map sums_of clauses.now) }
{
    let mut fault = None;
    for clause in clauses {
        fault = graver(fault, clause_fault(clause.as_slice()));
    }
    fault
}

/// Whether these indices meet the clause, whose first index is `start`.
fn is_met(terms: &[Term], start: usize, indices: &[u16]) -> bool
    requires read { AllByRecursion AreRead (sums_of terms.now) }
    requires few { start + size_of terms.now ≤ 65535 }
    ensures { result ≡ reach_whole (terms_at terms.now start indices.now) }
{
    reaches_whole(terms, start, indices)
}

/// Whether these indices meet each clause, with indices running on.
pub(crate) fn are_met(clauses: &[Items<Term>], indices: &[u16]) -> bool
    requires read { AllByRecursion AreRead (flat_map sums_of clauses.now) }
    requires few { weight_count clauses.now ≤ 65535 }
    ensures { result ≡ all_met clauses.now 0 indices.now }
{
    let mut start = 0usize;
    for clause in clauses {
        if !is_met(clause.as_slice(), start, indices) {
            return false;
        }
        start += clause_size(clause.as_slice());
    }
    true
}

/// How many of the keys, of which there are so many, have an index among these.
pub(crate) fn count_keys(keys: u16, indices: &[u16]) -> u64
    ensures { result ≡ count_below keys indices.now }
{
    let mut count = 0u64;
    for index in 0..keys {
        if has_index(indices, usize::from(index)) {
            count += 1;
        }
    }
    count
}
