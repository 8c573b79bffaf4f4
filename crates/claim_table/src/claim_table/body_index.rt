//! Numbers by bodies and keys.
ghost use Rattle.std.specs.Prelude.{◌≡◌, ◌<◌, ℕ, [], Contains, OnOk};
ghost use Rattle.std.specs.List.Sorted.{IsStrictlyIncreasing};
ghost use Rattle.claim_table.specs.ClaimTable.Hinted.{few_at, hints_at, many_at};

use crate::claim_table::body_numbers::{BodyNumbers, FEW};
use escrow::Index;
use std::alloc::{AllocError, Global};

/// For a body and a key of it the numbers of rows, among which the right ones are: whoever reads them compares the rows, as those
/// of an [`Index`].
///
/// The first few numbers of a body are hints at each of its keys, and have no key here.
#[derive(Drop)]
pub(crate) struct BodyIndex<K: Ord> {
    few: BodyNumbers,
    many: Index<K>,
}

impl<K: Ord + Drop> BodyIndex<K> {
    /// No numbers.
    pub(crate) fn new(alloc: Global) -> BodyIndex<K>
        ensures { (body : ℕ) (q : K) → hints_at K.cmp result body q ≡ [] }
    {
        BodyIndex {
            few: BodyNumbers::new(alloc),
            many: Index::new(alloc),
        }
    }

    /// Adds the number of the row that comes next, at a key of a body. The lesser numbers stay, after an error too.
    pub(crate) fn add(&mut self, body: u32, key: K, number: u32) -> Result<(), AllocError>
        ensures added { OnOk result (Contains (hints_at K.cmp self.new body key) number) }
        ensures kept { (b : ℕ) (q : K) (n : ℕ) → n < number → Contains (hints_at K.cmp self.old b q) n
            → Contains (hints_at K.cmp self.new b q) n }
    {
        if self.few.add(body, number)? {
            return Ok(());
        }
        self.many.add(key, number)
    }

    /// The hints at each key of a body, rising.
    pub(crate) fn few(&self, body: u32) -> &[u32]
        ensures those { result.now ≡ few_at self.now.few body }
        ensures rising { IsStrictlyIncreasing result.now }
    {
        self.few.numbers(body)
    }

    /// The hints at one key of a body, rising, where these aren't all.
    pub(crate) fn many(&self, body: u32, key: &K) -> &[u32]
        ensures those { result.now ≡ many_at K.cmp self.now body key.now }
        ensures rising { IsStrictlyIncreasing result.now }
    {
        if self.few.numbers(body).len() < FEW {
            return &[];
        }
        self.many.numbers(key)
    }
}
