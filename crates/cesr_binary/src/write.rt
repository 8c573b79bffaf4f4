//! Writing the items of a stream, in either domain.
ghost use Rattle.std.specs.Prelude.{◌≡◌, ◌++◌, ◌∷◌, List, ℕ, Bool, false, map};
ghost use Rattle.lists.specs.KeriSpecs.Causes.{HasCause};
ghost use Rattle.lists.specs.KeriSpecs.Shown.{Puts};
ghost use Rattle.cesr_stream.specs.Written.{IsItem, IsWritable, MayStand};
ghost use Rattle.cesr_stream.specs.declared.item.Item.{Item as ItemValue};
ghost use Rattle.cesr_binary.specs.Mixed.{SpellsEither};
ghost use Rattle.cesr_binary.specs.Wire.{IsRead, MayAllStand, ReadsBack, Written};
ghost use Rattle.cesr_binary.specs.Wire.{item_binary, item_in, wire, written};

use crate::Domain;
use crate::as_binary::AsBinary;
use cesr_stream::{Item, write_in_domain, write_item};
use keri_outside::{Failed, Sink};

/// Puts an item in the domain, which takes no memory.
#[tactic(auto, using(crate::proofs::Wires::wire_read))]
pub fn write_in<S: Sink>(domain: Domain, item: &Item, sink: &mut S) -> Result<(), Failed>
    requires { IsWritable item.now }

    // All of the spelling is put, or a front of it where the sink fails.
    ensures written { Puts (S.written sink.old) (S.written sink.new) result (item_in domain item.now) }

    // It fails only where the sink did.
    ensures cause { HasCause (S.faults sink.old) (S.faults sink.new) result }

    // Among any items that may stand, each written in one domain or the other, it is read back.
    ensures among { (limit : ℕ) (before behind : List Written)
        → MayAllStand limit false (before ++ written domain item.now ∷ behind)
        → ReadsBack limit (wire (before ++ written domain item.now ∷ behind))
        (map (λ w. w.item) (before ++ written domain item.now ∷ behind)) }
{
    match domain {
        Domain::Binary => write_binary(item, sink),
        Domain::Text => write_item(item, sink),
    }
}

/// Puts a body as it is, and a group or a wrap in binary, which takes no memory.
pub fn write_binary<S: Sink>(item: &Item, sink: &mut S) -> Result<(), Failed>
    requires { IsWritable item.now }

    // All of the spelling is put, or a front of it where the sink fails.
    ensures written { Puts (S.written sink.old) (S.written sink.new) result (item_binary item.now) }

    // It fails only where the sink did.
    ensures cause { HasCause (S.faults sink.old) (S.faults sink.new) result }

    // Whatever follows that spelling, it is read as this item, in a place where the item may stand.
    ensures read { (limit : ℕ) (begun : Bool) (rest : List ℕ)
        → IsItem item.now → MayStand limit begun item.now
        → IsRead limit begun (item_binary item.now) rest item.now }

    // It spells no other item.
    ensures only { (other : ItemValue) → IsItem item.now → IsItem other
        → SpellsEither (item_binary item.now) other → other ≡ item.now }
{
    write_in_domain::<AsBinary, S>(item, sink)
}
