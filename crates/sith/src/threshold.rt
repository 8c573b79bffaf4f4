//! A signing threshold.
ghost use Rattle.std.specs.Prelude.{◌≡◌, ◌↔◌, IsTrue, IfOk, IfErr, IfSome, IfNone};
ghost use Rattle.std.specs.List.{AllByRecursion};
ghost use Rattle.sith.specs.Weights.{IsWeight};

use crate::rules::{are_met, clause_size, clauses_fault, count_keys, total};
use crate::sith_fault::SithFault;
use crate::term::Term;
use json_tree::Tree;
use lists::{CopyValue, Items};
use std::alloc::{AllocError, Global};
use std::slice;

/// A signing threshold.
#[derive(Drop, PartialEq, Debug)]
pub enum Threshold {
    /// So many keys.
    Count(u64),
    /// Weights of the keys, in one clause.
    Flat(Items<Term>),
    /// Weights of the keys, in clauses that must all be met.
    Nested(Items<Items<Term>>),
}

impl Threshold {
    ghost use Rattle.std.specs.Prelude.{◌⊎◌, Ok, Err};
    ghost use Rattle.sith.specs.declared.sith_fault.SithFault.TheVariants.{OutOfMemory};
    ghost use Rattle.sith.specs.declared.threshold.Threshold.{Threshold};
    ghost use Rattle.sith.specs.Rules.{clauses_of, all_sums, IsInRange, IsReadFor, IsRuleFault, IsFault};
    ghost use Rattle.sith.specs.Tests.{satisfied};
    ghost use Rattle.sith.specs.Thresholds.{Spells, threshold_value};

    fn clauses(&self) -> &[Items<Term>]
        ensures { result.now ≡ clauses_of self.now }
    {
        match self {
            Threshold::Count(_) => &[],
            Threshold::Flat(terms) => slice::from_ref(terms),
            Threshold::Nested(clauses) => clauses.as_slice(),
        }
    }

    fn is_in_range(&self, keys: u16) -> bool
        ensures { IsTrue result ↔ IsInRange self.now keys }
    {
        match self {
            Threshold::Count(count) => *count <= u64::from(keys) && (*count >= 1 || keys == 0),
            Threshold::Flat(terms) => clause_size(terms.as_slice()) == usize::from(keys),
            Threshold::Nested(clauses) => {
                !clauses.is_empty() && total(clauses.as_slice()) == usize::from(keys)
            }
        }
    }

    /// The first rule that the threshold breaks for so many keys.
    fn rule_fault(&self, keys: u16) -> Option<SithFault>
        requires { AllByRecursion (AllByRecursion IsWeight) (all_sums self.now) }
        ensures none { IfNone result (IsReadFor self.now keys) }
        ensures some { IfSome result (λ fault. IsRuleFault fault self.now keys) }
    {
        if !self.is_in_range(keys) {
            return Some(SithFault::OutOfRange);
        }
        clauses_fault(self.clauses())
    }

    /// The threshold that the value spells, for so many keys.
    pub fn read(alloc: Global, tree: &Tree, keys: u16) -> Result<Threshold, SithFault>
        ensures spelled { IfOk result (λ threshold. Spells threshold tree.now) }
        ensures value { IfOk result (λ threshold. tree.now ≡ threshold_value threshold) }
        ensures read { IfOk result (λ threshold. IsReadFor threshold keys) }
        ensures fault { IfErr result (λ fault. IsFault fault tree.now keys) }

        // What is spelled is read, unless memory runs out.
        ensures only { (threshold : Threshold) → Spells threshold tree.now → IsReadFor threshold keys
            → (result ≡ Ok threshold) ⊎ (result ≡ Err OutOfMemory) }
    {
        let threshold = Threshold::read_form(alloc, tree)?;
        match threshold.rule_fault(keys) {
            None => Ok(threshold),
            Some(fault) => Err(fault),
        }
    }

    /// Whether the set of these indices meets the threshold, of those keys of which there are so many. An index that
    /// comes again, or that is no key's, counts for nothing. It takes no memory.
    pub fn satisfied(&self, keys: u16, indices: &[u16]) -> bool
        requires { IsReadFor self.now keys }
        ensures { result ≡ satisfied self.now keys indices.now }
    {
        match self {
            Threshold::Count(count) => *count <= count_keys(keys, indices),
            Threshold::Flat(terms) => are_met(slice::from_ref(terms), indices),
            Threshold::Nested(clauses) => are_met(clauses.as_slice(), indices),
        }
    }
}

impl CopyValue for Threshold {
    fn copy(&self, alloc: Global) -> Result<Threshold, AllocError> {
        match self {
            Threshold::Count(count) => Ok(Threshold::Count(*count)),
            Threshold::Flat(terms) => Ok(Threshold::Flat(terms.copy(alloc)?)),
            Threshold::Nested(clauses) => Ok(Threshold::Nested(clauses.copy(alloc)?)),
        }
    }
}
