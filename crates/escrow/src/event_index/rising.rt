//! Numbers that rise.
ghost use Rattle.std.specs.Prelude.{◌≡◌, ◌≢◌, ◌≤◌, ◌<◌, ◌⊎◌, ◌↔◌, ℕ, [], length, slice_index, Contains, OnOk};
ghost use Rattle.std.specs.List.Sorted.{IsStrictlyIncreasing};

use smallvec::SmallVec;
use std::alloc::{AllocError, Global};
use std::marker::Model;

// So many numbers stand in the value itself and take no memory of their own: as many as fit into the room of a `Vec`. Mostly a
// key has one number.
const INSIDE: usize = 4;

/// Numbers, each greater than the one before it.
#[derive(Drop)]
pub struct Rising {
    numbers: SmallVec<u32, INSIDE>,
}

impl Model for Rising {
    ghost use Rattle.std.specs.Prelude.{◌-◌};
    ghost use Rattle.smallvec.specs.SmallVec.{small_vec_len};
    ghost use Rattle.std.specs.List.Sorted.{IsStrictlyIncreasing};
    ghost use Rattle.escrow.specs.EventIndex.Numbers.{Numbers};

    ghost Value = { Numbers };

    ghost view = { λ r. record { list = r.numbers.items; free = r.numbers.capacity - small_vec_len r.numbers } };

    ghost invariant = { λ r. IsStrictlyIncreasing r.numbers.items };
}

impl Rising {
    /// No numbers.
    pub fn new(alloc: Global) -> Rising
        ensures { result.list ≡ [] }
    {
        Rising {
            numbers: SmallVec::new(alloc),
        }
    }

    /// The numbers, each greater than the one before it.
    pub fn as_slice(&self) -> &[u32]
        ensures those { result.now ≡ self.now.list }
        ensures rising { IsStrictlyIncreasing result.now }
    {
        self.numbers.as_slice()
    }

    /// Makes room for one more number.
    pub fn reserve(&mut self) -> Result<(), AllocError>
        ensures same { self.new.list ≡ self.old.list }
        ensures room { OnOk result (0 < self.new.free) }
        ensures kept { self.old.free ≤ self.new.free }
    {
        self.numbers.reserve(1)
    }

    /// Adds a number for which there is room, at its place. It takes no memory.
    pub fn insert(&mut self, number: u32)
        requires room { 0 < self.old.free }
        requires new { Contains self.old.list number → ⊥ }
        ensures { (n : ℕ) → Contains self.new.list n ↔ ((n ≡ number) ⊎ Contains self.old.list n) }
    {
        let place = place_of(self.numbers.as_slice(), number);
        self.numbers.insert(place, number).unwrap();
    }

    /// Takes a number out, where it is there.
    pub fn remove(&mut self, number: u32)
        ensures left { (n : ℕ) → Contains self.new.list n ↔ ((n ≢ number) × Contains self.old.list n) }
        ensures room { self.old.free ≤ self.new.free }
    {
        self.numbers.retain(|held| *held != number);
    }

    /// Takes out the numbers from this one on.
    pub fn cut(&mut self, number: u32)
        ensures left { (n : ℕ) → Contains self.new.list n ↔ ((n < number) × Contains self.old.list n) }
        ensures room { self.old.free ≤ self.new.free }
    {
        let place = place_of(self.numbers.as_slice(), number);
        self.numbers.truncate(place);
    }
}

// Where a number goes among rising numbers.
fn place_of(numbers: &[u32], number: u32) -> usize
    requires rising { IsStrictlyIncreasing numbers.now }
    ensures within { result ≤ length numbers.now }
    ensures below { (k : ℕ) → k < result → slice_index numbers.now k < number }
    ensures above { (k : ℕ) → result ≤ k → k < length numbers.now → number ≤ slice_index numbers.now k }
{
    numbers.partition_point(|held| *held < number)
}
