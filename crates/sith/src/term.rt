//! A term of a clause.
ghost use Rattle.sith.specs.Terms.{outer_weight, term_size, is_term_met, IsReadTerm};

use crate::member::Member;
use crate::signers::has_index;
use crate::sum::reaches_whole;
use crate::weight::Weight;
use lists::{CopyValue, Items};
use std::alloc::{AllocError, Global};

/// A term of a clause.
#[derive(Drop, PartialEq, Debug)]
pub enum Term {
    /// The weight of one key.
    Single(Weight),
    /// The weight of a group of keys in its clause, the outer one, and the weights of its keys in the group, the inner ones.
    Group(Weight, Items<Weight>),
}

impl Member for Term {
    ghost weight = { outer_weight };

    ghost size = { term_size };

    ghost met = { is_term_met };

    ghost read = { IsReadTerm };

    fn weight(&self) -> Weight {
        match self {
            Term::Single(weight) | Term::Group(weight, _) => *weight,
        }
    }

    fn size(&self) -> usize {
        match self {
            Term::Single(_) => 1,
            Term::Group(_, inner) => inner.len(),
        }
    }

    fn is_met(&self, start: usize, indices: &[u16]) -> bool {
        match self {
            Term::Single(_) => has_index(indices, start),
            Term::Group(_, inner) => reaches_whole(inner.as_slice(), start, indices),
        }
    }
}

impl CopyValue for Term {
    fn copy(&self, alloc: Global) -> Result<Term, AllocError> {
        match self {
            Term::Single(weight) => Ok(Term::Single(*weight)),
            Term::Group(weight, inner) => Ok(Term::Group(*weight, inner.copy(alloc)?)),
        }
    }
}
