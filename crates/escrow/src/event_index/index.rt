//! Numbers by keys.
ghost use Rattle.std.specs.Prelude.{◌≡◌, ◌<◌, ℕ, [], Contains, OnOk};
ghost use Rattle.std.specs.List.Sorted.{IsStrictlyIncreasing};
ghost use Rattle.escrow.specs.EventIndex.Keys.{numbers_at};

use crate::event_index::Rising;
use std::alloc::{AllocError, Global};
use std::collections::BTreeMap;

/// For a key the numbers of rows, among which the right ones are.
///
/// A row's number is the length of a list that grows, as it was when the row was pushed. Once that list was cut back, some
/// numbers here stand for no row, or for another row that came later: whoever reads them compares the rows.
#[derive(Drop)]
pub struct Index<K: Ord> {
    alloc: Global,
    numbers: BTreeMap<K, Rising>,
}

impl<K: Ord + Drop> Index<K> {
    /// No numbers.
    pub fn new(alloc: Global) -> Index<K>
        ensures { (q : K) → numbers_at K.cmp result q ≡ [] }
    {
        Index {
            alloc,
            numbers: BTreeMap::new(alloc),
        }
    }

    /// Adds the number of the row that comes next. The lesser numbers of each key stay, after an error too; without an error the
    /// number stays also at the other keys that have it, so that one row can have many keys.
    ///
    /// Rows are cut from the end. So where the next row has this number, this key's numbers from it on stand for no row any
    /// more: they go, and what stays rises.
    pub fn add(&mut self, key: K, number: u32) -> Result<(), AllocError>
        ensures added { OnOk result (Contains (numbers_at K.cmp self.new key) number) }
        ensures kept { (q : K) (n : ℕ) → n < number → Contains (numbers_at K.cmp self.old q) n
            → Contains (numbers_at K.cmp self.new q) n }
        ensures level { OnOk result ((q : K) → Contains (numbers_at K.cmp self.old q) number
            → Contains (numbers_at K.cmp self.new q) number) }
    {
        let those = self.numbers.entry(key)?.or_insert(Rising::new(self.alloc));
        replace_from(those, number)
    }

    /// The numbers of a key, each greater than the one before it.
    pub fn numbers(&self, key: &K) -> &[u32]
        ensures those { result.now ≡ numbers_at K.cmp self.now key.now }
        ensures rising { IsStrictlyIncreasing result.now }
    {
        match self.numbers.get(key) {
            Some(those) => those.as_slice(),
            None => &[],
        }
    }
}

// Puts a number in the place of those from it on.
fn replace_from(numbers: &mut Rising, number: u32) -> Result<(), AllocError>
    ensures added { OnOk result (Contains numbers.new.list number) }
    ensures kept { (n : ℕ) → n < number → Contains numbers.old.list n → Contains numbers.new.list n }
{
    numbers.cut(number);
    numbers.reserve()?;
    numbers.insert(number);
    Ok(())
}
