//! Texts on a sink in a domain, one behind the other.
ghost use Rattle.std.specs.Prelude.{◌≡◌, ◌<◌, ◌≤◌, ◌^◌, ◌+◌, ◌++◌, ◌∷◌, true, List, ℕ, flat_map, length};
ghost use Rattle.lists.specs.KeriSpecs.Base64.{base64_text, is_character};
ghost use Rattle.lists.specs.KeriSpecs.Causes.{HasCause};
ghost use Rattle.lists.specs.KeriSpecs.Shown.{Puts};
ghost use Rattle.cesr_stream.specs.Domains.{IsTurnable};

use crate::DomainWriter;
use crate::counter::counter;
use keri_outside::{Failed, Sink};

/// What has a text that can be put on a sink.
pub(crate) trait Writable {
    /// The text.
    ghost text: { Self → List ℕ };

    /// How many characters the text has.
    fn size(&self) -> usize
        requires { length (text self.now) < 2 ^ 64 }
        ensures { result ≡ length (text self.now) };

    /// Puts the text in the domain of the writer.
    fn put<W: DomainWriter, S: Sink>(&self, sink: &mut S) -> Result<(), Failed>
        ensures written { Puts (S.written sink.old) (S.written sink.new) result (W.in_domain (text self.now)) }
        ensures cause { HasCause (S.faults sink.old) (S.faults sink.new) result };
}

/// How many characters all the texts have.
pub(crate) fn size_of_all<E: Writable>(all: &[E]) -> usize
    requires { length (flat_map E.text all.now) < 2 ^ 64 }
    ensures { result ≡ length (flat_map E.text all.now) }
{
    let mut size = 0;
    for one in all {
        size += one.size();
    }
    size
}

/// How many characters a counter and all the texts behind it have.
pub(crate) fn size_counted<E: Writable>(all: &[E]) -> usize
    requires { 4 + length (flat_map E.text all.now) < 2 ^ 64 }
    ensures { result ≡ 4 + length (flat_map E.text all.now) }
{
    4 + size_of_all(all)
}

/// Puts a counter with this letter and count, and all the texts behind it.
pub(crate) fn put_counted<W: DomainWriter, E: Writable, S: Sink>(
    letter: u8,
    count: usize,
    all: &[E],
    sink: &mut S,
) -> Result<(), Failed>
    requires letter { is_character letter ≡ true }
    requires turnable { (one : E) → IsTurnable (E.text one) }
    ensures written { Puts (S.written sink.old) (S.written sink.new) result
        (W.in_domain (45 ∷ letter ∷ (base64_text 2 count ++ flat_map E.text all.now))) }
    ensures cause { HasCause (S.faults sink.old) (S.faults sink.new) result }
{
    W::put_text(&counter(letter, count), sink)?;
    put_all::<W, E, S>(all, sink)
}

// Puts all the texts.
fn put_all<W: DomainWriter, E: Writable, S: Sink>(all: &[E], sink: &mut S) -> Result<(), Failed>
    requires { (one : E) → IsTurnable (E.text one) }
    ensures written { Puts (S.written sink.old) (S.written sink.new) result (W.in_domain (flat_map E.text all.now)) }
    ensures cause { HasCause (S.faults sink.old) (S.faults sink.new) result }
{
    for one in all {
        one.put::<W, S>(sink)?;
    }
    Ok(())
}

/// Puts one text and another.
pub(crate) fn put_both<W: DomainWriter, S: Sink>(
    first: &[u8],
    second: &[u8],
    sink: &mut S,
) -> Result<(), Failed>
    requires few { length first.now ≤ 132 }
    requires few_behind { length second.now ≤ 132 }
    requires turnable { IsTurnable first.now }
    requires turnable_behind { IsTurnable second.now }
    ensures written { Puts (S.written sink.old) (S.written sink.new) result (W.in_domain (first.now ++ second.now)) }
    ensures cause { HasCause (S.faults sink.old) (S.faults sink.new) result }
{
    W::put_text(first, sink)?;
    W::put_text(second, sink)
}
