//! Texts on a sink in the text or in the binary domain (CESR).
ghost use Rattle.std.specs.Prelude.{◌≡◌, ◌≤◌, ◌++◌, List, ℕ, [], length};
ghost use Rattle.lists.specs.KeriSpecs.Causes.{HasCause};
ghost use Rattle.lists.specs.KeriSpecs.Shown.{Puts};
ghost use Rattle.cesr_stream.specs.Domains.{IsTurnable};

use keri_outside::{Failed, Sink};

/// A writer in a domain of CESR: it puts the characters of texts, or the bytes that these are turned to.
pub trait DomainWriter {
    /// A text in the domain.
    ghost in_domain: { List ℕ → List ℕ };

    /// Puts a text of at most 132 characters, which are in fours.
    fn put_text<S: Sink>(text: &[u8], sink: &mut S) -> Result<(), Failed>
        requires few { length text.now ≤ 132 }
        requires turnable { IsTurnable text.now }
        ensures written { Puts (S.written sink.old) (S.written sink.new) result (in_domain text.now) }
        ensures cause { HasCause (S.faults sink.old) (S.faults sink.new) result };

    /// Where there is no text, nothing is put.
    ghost of_none: { in_domain [] ≡ [] };

    /// Texts one behind the other are put one by one.
    ghost of_both: { (first second : List ℕ) → IsTurnable first → in_domain (first ++ second) ≡ in_domain first ++ in_domain second };
}

/// Texts as they are.
pub(crate) struct AsText;

impl DomainWriter for AsText {
    ghost use Rattle.std.specs.Prelude.{refl};

    ghost in_domain = { λ text. text };

    fn put_text<S: Sink>(text: &[u8], sink: &mut S) -> Result<(), Failed> {
        sink.put(text)
    }

    ghost of_none = { refl };

    ghost of_both = { λ first second turnable. refl };
}
