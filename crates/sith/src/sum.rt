//! Sums of weights.
ghost use Rattle.std.specs.Prelude.{◌≡◌, ◌<◌, ◌≤◌, ◌^◌, ◌*◌, ◌/◌, ◌+◌, ◌-◌, [], ◌∷◌, min, map, IfSome, IfNone};
ghost use Rattle.std.specs.List.{AllByRecursion, sum_by};
ghost use Rattle.sith.specs.Weights.{IsWeight, numerator, denominator};
ghost use Rattle.sith.specs.Divisors.{IsLeastMultiple};
ghost use Rattle.sith.specs.Clauses.{IsTooFine, AreRead, reach_whole, sum_met, shares_at, all_met};
ghost use Rattle.sith.specs.Rules.{IsSumsFault};

use crate::divisors::least_multiple;
use crate::member::Member;
use crate::sith_fault::SithFault;
use crate::weight::Weight;

/// Denominators have a common multiple of at most this number.
const FINEST: u128 = 1 << 64;

fn denominator_of(weight: Weight) -> u128
    requires { IsWeight weight }
    ensures value { result ≡ denominator weight }
    ensures range { (0 < result) × (result < 2 ^ 32) }
{
    match weight {
        Weight::Zero | Weight::One => 1,
        Weight::Part(_, parts) => u128::from(parts),
    }
}

/// The least common multiple of the denominators, where it is at most 2^64.
fn common_multiple<M: Member>(members: &[M]) -> Option<u128>
    requires { AllByRecursion IsWeight (map M.weight members.now) }
    ensures some { IfSome result (λ m. IsLeastMultiple (map denominator (map M.weight members.now)) m × (0 < m)
        × (m ≤ 2 ^ 64)) }
    ensures none { IfNone result (IsTooFine (map M.weight members.now)) }
{
    let mut multiple = 1u128;
    for member in members {
        multiple = least_multiple(multiple, denominator_of(member.weight()));
        if multiple > FINEST {
            return None;
        }
    }
    Some(multiple)
}

/// The weight in parts of a whole of so many parts.
fn parts_of(weight: Weight, whole: u128) -> u128
    requires weight { IsWeight weight }
    requires whole { whole ≤ 2 ^ 64 }
    ensures value { result ≡ numerator weight * (whole / denominator weight) }
    ensures range { result ≤ whole }
{
    match weight {
        Weight::Zero => 0,
        Weight::One => whole,
        Weight::Part(parts, of) => u128::from(parts) * (whole / u128::from(of)),
    }
}

/// The sum of the weights that are met, or 2^128 - 1 for a greater one. The first index of the first member is `start`.
fn sum_of_met<M: Member>(members: &[M], whole: u128, start: usize, indices: &[u16]) -> u128
    requires weights { AllByRecursion IsWeight (map M.weight members.now) }
    requires read { AllByRecursion M.read members.now }
    requires whole { whole ≤ 2 ^ 64 }
    requires few { start + sum_by M.size members.now ≤ 65535 }
    ensures { result ≡ min (sum_met whole (shares_at M.weight M.size M.met members.now start indices.now)) (2 ^ 128 - 1) }
{
    let mut sum = 0u128;
    let mut index = start;
    for member in members {
        if member.is_met(index, indices) {
            sum = sum.saturating_add(parts_of(member.weight(), whole));
        }
        index += member.size();
    }
    sum
}

/// The sum of all weights, or 2^128 - 1 for a greater one.
fn sum_of_all<M: Member>(members: &[M], whole: u128) -> u128
    requires weights { AllByRecursion IsWeight (map M.weight members.now) }
    requires whole { whole ≤ 2 ^ 64 }
    ensures { result ≡ min (sum_met whole (all_met (map M.weight members.now))) (2 ^ 128 - 1) }
{
    let mut sum = 0u128;
    for member in members {
        sum = sum.saturating_add(parts_of(member.weight(), whole));
    }
    sum
}

/// The rule that the weights break, where they break one.
pub(crate) fn sum_fault<M: Member>(members: &[M]) -> Option<SithFault>
    requires { AllByRecursion IsWeight (map M.weight members.now) }
    ensures { IsSumsFault result (map M.weight members.now ∷ []) }
{
    match common_multiple(members) {
        None => Some(SithFault::TooFine),
        Some(multiple) => {
            if sum_of_all(members, multiple) < multiple {
                return Some(SithFault::Unreachable);
            }
            None
        }
    }
}

/// Whether the weights that these indices meet sum to at least 1. The first index of the first member is `start`.
pub(crate) fn reaches_whole<M: Member>(members: &[M], start: usize, indices: &[u16]) -> bool
    requires weights { AreRead (map M.weight members.now) }
    requires read { AllByRecursion M.read members.now }
    requires few { start + sum_by M.size members.now ≤ 65535 }
    ensures { result ≡ reach_whole (shares_at M.weight M.size M.met members.now start indices.now) }
{
    match common_multiple(members) {
        Some(multiple) => sum_of_met(members, multiple, start, indices) >= multiple,
        None => unreachable!(),
    }
}
