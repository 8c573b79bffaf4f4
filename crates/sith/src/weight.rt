//! One weight of a threshold.
ghost use Rattle.std.specs.Prelude.{◌≡◌, ◌≢◌, ◌++◌, ◌∷◌, ◌<◌, ℕ, List, take, length, slice_index, IfSome, IfNone};
ghost use Rattle.std.specs.Fmt.{decimal};
ghost use Rattle.sith.specs.Weights.{HasNoSlash, IsPart};

use crate::decimal::read_decimal;
use lists::CopyValue;
use std::alloc::{AllocError, Global};

/// A weight: nothing, the whole, or so many parts of the whole.
#[derive(Clone, Copy, PartialEq, Eq, Debug)]
pub enum Weight {
    /// Nothing, written `0`.
    Zero,
    /// The whole, written `1`.
    One,
    /// The numerator and the denominator, as they are written: lowest terms are not required.
    Part(u32, u32),
}

fn slash_place(text: &[u8]) -> Option<usize>
    ensures some { IfSome result (λ place. HasNoSlash (take place text.now) × (place < length text.now)
        × (slice_index text.now place ≡ 47)) }
    ensures none { IfNone result (HasNoSlash text.now) }
{
    for (place, byte) in text.iter().enumerate() {
        if *byte == b'/' {
            return Some(place);
        }
    }
    None
}

/// What stands before the first slash, and what behind it.
fn split_at_slash(text: &[u8]) -> Option<(&[u8], &[u8])>
    ensures some { IfSome result (λ r. HasNoSlash r.0.now × (text.now ≡ r.0.now ++ 47 ∷ r.1.now)) }
    ensures none { IfNone result (HasNoSlash text.now) }
{
    match slash_place(text) {
        Some(place) => {
            let (top, _) = text.split_at(place);
            let (_, bottom) = text.split_at(place + 1);
            Some((top, bottom))
        }
        None => None,
    }
}

/// The numerator and the denominator.
fn read_part(text: &[u8]) -> Option<(u32, u32)>
    ensures some { IfSome result (λ r. IsPart r.0 r.1 × (text.now ≡ decimal r.0 ++ 47 ∷ decimal r.1)) }
    ensures none { IfNone result ((n d : ℕ) → IsPart n d → text.now ≢ decimal n ++ 47 ∷ decimal d) }
{
    let Some((top, bottom)) = split_at_slash(text) else {
        return None;
    };
    let Some(numerator) = read_decimal(top) else {
        return None;
    };
    let Some(denominator) = read_decimal(bottom) else {
        return None;
    };
    if numerator == 0 || numerator > denominator {
        return None;
    }
    Some((numerator, denominator))
}

impl Weight {
    ghost use Rattle.sith.specs.declared.weight.Weight.{Weight};
    ghost use Rattle.sith.specs.Weights.{IsWeight};
    ghost use Rattle.sith.specs.Thresholds.{weight_text};

    /// The weight that the text spells: `0`, `1`, or two decimal numbers without leading zeros with a slash between
    /// them, the first from 1 to the second.
    pub fn read(text: &[u8]) -> Option<Weight>
        ensures some { IfSome result (λ weight. IsWeight weight × (text.now ≡ weight_text weight)) }
        ensures none { IfNone result ((weight : Weight) → IsWeight weight → text.now ≢ weight_text weight) }
    {
        if text == b"0".as_slice() {
            return Some(Weight::Zero);
        }
        if text == b"1".as_slice() {
            return Some(Weight::One);
        }
        match read_part(text) {
            Some((numerator, denominator)) => Some(Weight::Part(numerator, denominator)),
            None => None,
        }
    }
}

impl CopyValue for Weight {
    fn copy(&self, _alloc: Global) -> Result<Weight, AllocError> {
        Ok(*self)
    }
}
