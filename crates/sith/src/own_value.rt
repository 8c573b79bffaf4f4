//! What holds of the value of each threshold, stated for proofs: a proof learns a number's range where the number is read.
//! Nothing else is done here.
ghost use Rattle.std.specs.List.{AllByRecursion};
ghost use Rattle.sith.specs.OwnValues.{HasOwnValue, IsTypedTerm, IsTypedThreshold, IsTypedWeight};

use crate::term::Term;
use crate::threshold::Threshold;
use crate::weight::Weight;
use lists::Items;

fn weight(_weight: Weight)
    ensures { IsTypedWeight _weight }
{}

fn weights(weights: &[Weight])
    ensures { AllByRecursion IsTypedWeight weights.now }
{
    for found in weights {
        weight(*found);
    }
}

fn term(term: &Term)
    ensures { IsTypedTerm term.now }
{
    match term {
        Term::Single(found) => weight(*found),
        Term::Group(outer, inner) => {
            weight(*outer);
            weights(inner.as_slice());
        }
    }
}

fn terms(terms: &[Term])
    ensures { AllByRecursion IsTypedTerm terms.now }
{
    for found in terms {
        term(found);
    }
}

fn clauses(clauses: &[Items<Term>])
    ensures { AllByRecursion (AllByRecursion IsTypedTerm) clauses.now }
{
    for found in clauses {
        terms(found.as_slice());
    }
}

fn held(threshold: &Threshold)
    ensures { IsTypedThreshold threshold.now }
{
    match threshold {
        Threshold::Count(count) => {
            let _count = *count;
        }
        Threshold::Flat(found) => terms(found.as_slice()),
        Threshold::Nested(found) => clauses(found.as_slice()),
    }
}

impl Threshold {
    /// The threshold's value is JSON, and that of no other threshold that is read.
    pub fn own_value(&self)
        ensures { HasOwnValue self.now }
    {
        held(self);
    }
}
