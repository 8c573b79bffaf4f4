//! Texts that are one primitive.
ghost use Rattle.std.specs.Prelude.{◌≡◌, ◌≢◌, ◌++◌, List, ℕ, Ok, Some, length, IfSome, IfNone};
ghost use Rattle.std.specs.List.{AllByRecursion};
ghost use Rattle.cesr_codes.specs.Reading.{Reads};
ghost use Rattle.cesr_codes.specs.Table.{Verdict};

use crate::{CodeFault, Digest, IndexedSig, Key, Moment, Number, Prefix, Sig};

/// A type of primitives, of which each has a spelling of its own.
pub trait Spelled: Copy {
    /// The spelling of a value.
    ghost spelling: { Self → List ℕ };

    /// Its raw bytes are in their range.
    ghost is_valid: { Self → Type 0 };

    /// How the characters at the front are judged.
    ghost judge: { List ℕ → Verdict };

    /// The value that stands at the front, and the length of its spelling.
    fn read_front(text: &[u8]) -> Result<(Self, usize), CodeFault>
        // What is read stands at the front, and a fault is the first in their order.
        ensures exact { Reads judge spelling is_valid text.now result }

        // What is spelled at the front is read, whatever follows.
        ensures whole { (value : Self) (rest : List ℕ) → is_valid value → text.now ≡ spelling value ++ rest
            → result ≡ Ok (value, length (spelling value)) };

    /// What the type of a value holds by itself, stated for proofs: a proof learns a value's range where the value is read.
    /// Nothing else is done here.
    fn in_range(self)
        ensures { is_valid self };
}

/// The primitive whose spelling this is.
pub fn of_text<P: Spelled>(text: &[u8]) -> Option<P>
    ensures some { IfSome result (λ found. P.is_valid found × (text.now ≡ P.spelling found)) }
    ensures none { IfNone result ((value : P) → P.is_valid value → text.now ≢ P.spelling value) }
    ensures only { (value : P) → P.is_valid value → text.now ≡ P.spelling value → result ≡ Some value }
{
    let Ok(found) = P::read_front(text) else {
        return None;
    };
    if found.1 == text.len() {
        Some(found.0)
    } else {
        None
    }
}

/// What the type of each value holds by itself, as `Spelled::held` says.
pub fn all_in_range<P: Spelled>(values: &[P])
    ensures { AllByRecursion P.is_valid values.now }
{
    for value in values {
        value.in_range();
    }
}

impl Spelled for Key {
    ghost use Rattle.cesr_codes.specs.Spelling.{IsKey, key_text};
    ghost use Rattle.cesr_codes.specs.Table.{key_layouts, verdict};

    ghost spelling = { key_text };

    ghost is_valid = { IsKey };

    ghost judge = { verdict key_layouts };

    fn read_front(text: &[u8]) -> Result<(Key, usize), CodeFault> {
        Key::read(text)
    }

    fn in_range(self) {}
}

impl Spelled for Digest {
    ghost use Rattle.cesr_codes.specs.Spelling.{IsDigest, digest_text};
    ghost use Rattle.cesr_codes.specs.Table.{digest_layouts, verdict};

    ghost spelling = { digest_text };

    ghost is_valid = { IsDigest };

    ghost judge = { verdict digest_layouts };

    fn read_front(text: &[u8]) -> Result<(Digest, usize), CodeFault> {
        Digest::read(text)
    }

    fn in_range(self) {}
}

impl Spelled for Prefix {
    ghost use Rattle.cesr_codes.specs.Spelling.{IsPrefix, prefix_text};
    ghost use Rattle.cesr_codes.specs.Table.{prefix_layouts, verdict};

    ghost spelling = { prefix_text };

    ghost is_valid = { IsPrefix };

    ghost judge = { verdict prefix_layouts };

    fn read_front(text: &[u8]) -> Result<(Prefix, usize), CodeFault> {
        Prefix::read(text)
    }

    fn in_range(self) {
        match self {
            Prefix::Basic(key) => key.in_range(),
            Prefix::Said(digest) => digest.in_range(),
        }
    }
}

impl Spelled for Sig {
    ghost use Rattle.cesr_codes.specs.Spelling.{IsSig, sig_text};
    ghost use Rattle.cesr_codes.specs.Table.{sig_layouts, verdict};

    ghost spelling = { sig_text };

    ghost is_valid = { IsSig };

    ghost judge = { verdict sig_layouts };

    fn read_front(text: &[u8]) -> Result<(Sig, usize), CodeFault> {
        Sig::read(text)
    }

    fn in_range(self) {}
}

impl Spelled for Number {
    ghost use Rattle.cesr_codes.specs.Spelling.{IsNumber, number_text};
    ghost use Rattle.cesr_codes.specs.Table.{number_layouts, verdict};

    ghost spelling = { number_text };

    ghost is_valid = { IsNumber };

    ghost judge = { verdict number_layouts };

    fn read_front(text: &[u8]) -> Result<(Number, usize), CodeFault> {
        Number::read(text)
    }

    fn in_range(self) {
        let _value = self.value;
    }
}

impl Spelled for Moment {
    ghost use Rattle.cesr_codes.specs.Dates.{moment_verdict};
    ghost use Rattle.cesr_codes.specs.Moments.{IsMoment, moment_text};

    ghost spelling = { moment_text };

    ghost is_valid = { IsMoment };

    ghost judge = { moment_verdict };

    fn read_front(text: &[u8]) -> Result<(Moment, usize), CodeFault> {
        Moment::read(text)
    }

    fn in_range(self) {}
}

impl Spelled for IndexedSig {
    ghost use Rattle.cesr_codes.specs.Indexed.{IsIndexed, indexed_text};
    ghost use Rattle.cesr_codes.specs.Table.{indexed_layouts, verdict};

    ghost spelling = { indexed_text };

    ghost is_valid = { IsIndexed };

    ghost judge = { verdict indexed_layouts };

    fn read_front(text: &[u8]) -> Result<(IndexedSig, usize), CodeFault> {
        IndexedSig::read(text)
    }

    fn in_range(self) {
        self.sig.in_range();
    }
}
