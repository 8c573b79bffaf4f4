//! Numbers by digests.
ghost use Rattle.std.specs.Prelude.{◌≡◌, ◌≤◌, ◌<◌, ◌⊎◌, ◌↔◌, ℕ, [], Some, Contains, IfOk, OnOk};
ghost use Rattle.std.specs.List.Sorted.{IsStrictlyIncreasing};
ghost use Rattle.std.specs.Option.{ForSome};
ghost use Rattle.cesr_codes.specs.declared.digest.Digest.{Digest};
ghost use Rattle.escrow.specs.Escrow.Tables.{numbers_at, room_at};

use crate::event_index::Rising;
use cesr_codes::Digest;
use std::alloc::{AllocError, Global};
use std::collections::BTreeMap;

/// For a digest the numbers of events, each greater than the one before it.
#[derive(Drop)]
pub struct DigestNumbers {
    alloc: Global,
    lists: BTreeMap<Digest, Rising>,
}

impl DigestNumbers {
    /// No numbers.
    pub fn new(alloc: Global) -> DigestNumbers
        ensures { (d : Digest) → numbers_at result d ≡ [] }
    {
        DigestNumbers {
            alloc,
            lists: BTreeMap::new(alloc),
        }
    }

    /// The numbers at a digest.
    pub fn numbers(&self, digest: &Digest) -> &[u32]
        ensures those { result.now ≡ numbers_at self.now digest.now }
        ensures rising { IsStrictlyIncreasing result.now }
    {
        match self.lists.get(digest) {
            Some(those) => those.as_slice(),
            None => &[],
        }
    }

    /// Makes room for one more number at the digest, if there is one. The list of a digest may so be empty.
    pub fn reserve(&mut self, digest: Option<Digest>) -> Result<(), AllocError>
        ensures same { (d : Digest) → numbers_at self.new d ≡ numbers_at self.old d }
        ensures kept { (d : Digest) → room_at self.old d ≤ room_at self.new d }
        ensures room { OnOk result (ForSome digest (λ d. 0 < room_at self.new d)) }
    {
        let Some(digest) = digest else {
            return Ok(());
        };
        if let Some(those) = self.lists.get_mut(&digest) {
            return those.reserve();
        }
        let those = with_room(self.alloc)?;
        self.lists.insert(digest, those)?;
        Ok(())
    }

    /// Adds a number at the digest, if there is one. There is room for it.
    pub fn insert(&mut self, digest: Option<Digest>, number: u32)
        requires room { ForSome digest (λ d. 0 < room_at self.old d) }
        requires new { ForSome digest (λ d. Contains (numbers_at self.old d) number → ⊥) }
        ensures { (d : Digest) (n : ℕ) → Contains (numbers_at self.new d) n ↔ (((digest ≡ Some d) × (n ≡ number))
            ⊎ Contains (numbers_at self.old d) n) }
    {
        if let Some(digest) = digest
            && let Some(those) = self.lists.get_mut(&digest)
        {
            those.insert(number);
        }
    }

    /// Takes a number out at the digest, if there is one.
    pub fn remove(&mut self, digest: Option<Digest>, number: u32)
        ensures left { (d : Digest) (n : ℕ)
            → Contains (numbers_at self.new d) n ↔ ((((digest ≡ Some d) × (n ≡ number)) → ⊥)
            × Contains (numbers_at self.old d) n) }
        ensures kept { (d : Digest) → room_at self.old d ≤ room_at self.new d }
    {
        if let Some(digest) = digest
            && let Some(those) = self.lists.get_mut(&digest)
        {
            those.remove(number);
        }
    }

    /// Lets go of the empty list of a digest, if there is one, but not of that for which room is reserved.
    pub fn let_go(&mut self, digest: Option<Digest>, reserved: Option<Digest>)
        ensures same { (d : Digest) → numbers_at self.new d ≡ numbers_at self.old d }
        ensures room { ForSome reserved (λ d. room_at self.old d ≤ room_at self.new d) }
    {
        if let Some(digest) = digest
            && reserved != Some(digest)
            && self.numbers(&digest).is_empty()
        {
            self.lists.remove(&digest);
        }
    }
}

// No numbers, with room for one.
fn with_room(alloc: Global) -> Result<Rising, AllocError>
    ensures none { IfOk result (λ those. those.list ≡ []) }
    ensures room { IfOk result (λ those. 0 < those.free) }
{
    let mut those = Rising::new(alloc);
    those.reserve()?;
    Ok(those)
}
