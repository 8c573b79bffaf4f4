//! What counters count.
ghost use Rattle.std.specs.Prelude.{◌≡◌, ◌++◌, List, ℕ, Option, IfOk};
ghost use Rattle.cesr_stream.specs.Parts.{Part as PartOf, whole};
ghost use Rattle.cesr_stream.specs.Judged.{JudgesElement};

use crate::pair::read_pair;
use crate::primitive::read_primitive;
use crate::stop::Stop;
use crate::{AnchorCouple, Couple, Seen};
use cesr_codes::{Digest, FixedKey, IndexedSig, Moment, Number, Sig};

/// An element of a group.
pub(crate) trait Element: Drop {
    /// Its text.
    ghost text: { Self → List ℕ };

    /// How an element at the front is judged, where so much of a wrap is left.
    ghost judged: { Option ℕ → List ℕ → PartOf };

    /// The element at the front and its length, or how it is judged where none is whole.
    fn at_front(bytes: &[u8], room: Option<usize>) -> Result<(Self, usize), Stop>
        ensures judged { JudgesElement (judged room) text bytes.now result }

        // A whole one stays whole, whatever follows.
        ensures stays { IfOk result (λ found. (more : List ℕ) → judged room (bytes.now ++ more) ≡ whole found.1) };
}

impl Element for IndexedSig {
    ghost use Rattle.cesr_codes.specs.Indexed.{indexed_text};
    ghost use Rattle.cesr_stream.specs.Front.{signature_part};

    ghost text = { indexed_text };

    ghost judged = { signature_part };

    fn at_front(bytes: &[u8], room: Option<usize>) -> Result<(IndexedSig, usize), Stop> {
        read_primitive::<IndexedSig>(bytes, room)
    }
}

impl Element for Couple {
    ghost use Rattle.cesr_stream.specs.Front.{couple_part};
    ghost use Rattle.cesr_stream.specs.Texts.{couple_text};

    ghost text = { couple_text };

    ghost judged = { couple_part };

    fn at_front(bytes: &[u8], room: Option<usize>) -> Result<(Couple, usize), Stop> {
        match read_pair::<FixedKey, Sig>(bytes, room) {
            Ok(((fixed, sig), length)) => {
                let key = fixed.key;
                Ok((Couple { key, sig }, length))
            }
            Err(stop) => Err(stop),
        }
    }
}

impl Element for Seen {
    ghost use Rattle.cesr_stream.specs.Front.{seen_part};
    ghost use Rattle.cesr_stream.specs.Texts.{seen_text};

    ghost text = { seen_text };

    ghost judged = { seen_part };

    fn at_front(bytes: &[u8], room: Option<usize>) -> Result<(Seen, usize), Stop> {
        match read_pair::<Number, Moment>(bytes, room) {
            Ok(((number, moment), length)) => Ok((Seen { number, moment }, length)),
            Err(stop) => Err(stop),
        }
    }
}

impl Element for AnchorCouple {
    ghost use Rattle.cesr_stream.specs.Front.{anchor_part};
    ghost use Rattle.cesr_stream.specs.Texts.{anchor_text};

    ghost text = { anchor_text };

    ghost judged = { anchor_part };

    fn at_front(bytes: &[u8], room: Option<usize>) -> Result<(AnchorCouple, usize), Stop> {
        match read_pair::<Number, Digest>(bytes, room) {
            Ok(((number, digest), length)) => Ok((AnchorCouple { number, digest }, length)),
            Err(stop) => Err(stop),
        }
    }
}
