//! The places of the log by the names of the events there.
ghost use Rattle.std.specs.Prelude.{◌≡◌, ◌<◌, [], Contains, OnOk};
ghost use Rattle.std.specs.List.Sorted.{IsStrictlyIncreasing};
ghost use Rattle.validator_core.specs.Tables.Hints.{KeepsBelow};
ghost use Rattle.validator_core.specs.Tables.NamedPlaces.{places_at, short_of};

use crate::tables::name::Name;
use cesr_codes::Digest;
use escrow::Index;
use std::alloc::{AllocError, Global};

/// For a name the places of accepted events, among which are those of the events that have it: hints, as those of an [`Index`],
/// here at the first bytes of the name's digest.
///
/// The digest of an accepted event is that of its text. So nobody chooses many of them whose first bytes are the same, as anyone
/// does whose digests are free text, like those of receipts.
#[derive(Drop)]
pub(crate) struct NamedPlaces {
    places: Index<u64>,
}

impl NamedPlaces {
    /// No places.
    pub(crate) fn new(alloc: Global) -> NamedPlaces
        ensures { (q : Name) → places_at result q ≡ [] }
    {
        NamedPlaces {
            places: Index::new(alloc),
        }
    }

    /// Adds the place that comes next, under a name. The lesser places stay, after an error too.
    pub(crate) fn add(&mut self, name: Name, place: u32) -> Result<(), AllocError>
        ensures added { OnOk result (Contains (places_at self.new name) place) }
        ensures kept { KeepsBelow place (places_at self.old) (places_at self.new) }
    {
        self.places.add(short_of(&name.said), place)
    }

    /// The places at a name, rising.
    pub(crate) fn numbers(&self, name: &Name) -> &[u32]
        ensures those { result.now ≡ places_at self.now name.now }
        ensures rising { IsStrictlyIncreasing result.now }
    {
        self.places.numbers(&short_of(&name.said))
    }
}

// The first eight bytes of a digest, as a number.
fn short_of(digest: &Digest) -> u64
    ensures { result ≡ short_of digest.now }
{
    let [a, b, c, d, e, f, g, h, ..] = digest.raw;
    u64::from_be_bytes([a, b, c, d, e, f, g, h])
}
