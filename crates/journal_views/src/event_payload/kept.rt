//! The signatures that are kept with an accepted event.
ghost use Rattle.cesr_codes.specs.Indexed.{IsIndexed};

use crate::event_payload::part::Part;
use cesr_codes::IndexedSig;
use std::alloc::{AllocError, Global};
use std::collections::BTreeSet;

/// Of the good signatures on an event, which are added one by one, the first of those that have one index and one
/// reveal.
#[derive(Drop)]
pub struct Kept {
    sigs: Vec<IndexedSig>,
    parts: BTreeSet<Part>,
}

impl Kept {
    ghost use Rattle.std.specs.Prelude.{◌≡◌, [], List, Option, OnOk, OnErr};
    ghost use Rattle.cesr_codes.specs.declared.indexed_sig.IndexedSig.{IndexedSig as IndexedSigOf};
    ghost use Rattle.event_body.specs.declared.event_body.event.Event.{Event};
    ghost use Rattle.key_state.specs.States.{State};
    ghost use Rattle.journal_views.specs.EventPayload.Holding.{HasKept, KeepsNext};

    /// No signatures.
    pub fn new(alloc: Global) -> Kept
        ensures { (s : Option State) (e : Event) → HasKept s e [] result }
    {
        Kept {
            sigs: Vec::new(alloc),
            parts: BTreeSet::new(alloc),
        }
    }

    /// Adds the next good signature. Its reveal is the place of the commitment that it opens alone, as
    /// `journal::reveal_of` gives it.
    pub fn add(&mut self, sig: IndexedSig, reveal: Option<u16>) -> Result<(), AllocError>
        // With all good signatures of an event added in order, these are just the kept ones.
        ensures kept { OnOk result (KeepsNext sig reveal self.old self.new) }
        ensures unchanged { (s : Option State) (e : Event) (came : List IndexedSigOf) → HasKept s e came self.old
            → OnErr result (HasKept s e came self.new) }
    {
        is_indexed(sig);
        self.sigs.reserve(1)?;
        let part = Part {
            index: sig.index,
            reveal,
        };
        if self.parts.insert(part)? {
            self.sigs.push(sig).unwrap();
        }
        Ok(())
    }

    /// The kept signatures, in order of first coming.
    pub fn sigs(&self) -> &[IndexedSig]
        ensures { result.now ≡ self.now.sigs.items }
    {
        self.sigs.as_slice()
    }
}

// The raw bytes of a signature are bytes, which a proof learns where the value is read.
fn is_indexed(_sig: IndexedSig)
    ensures { IsIndexed _sig }
{}
