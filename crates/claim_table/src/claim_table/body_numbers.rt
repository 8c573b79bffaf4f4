//! Numbers by bodies.
ghost use Rattle.std.specs.Prelude.{◌≡◌, ◌≤◌, ◌<◌, ℕ, [], true, false, length, Contains, IfOk, OnOk};
ghost use Rattle.std.specs.List.Sorted.{IsStrictlyIncreasing};
ghost use Rattle.claim_table.specs.ClaimTable.Hinted.{few_at, few_in};

use escrow::Rising;
use std::alloc::{AllocError, Global};

/// So many numbers of a body stand here at most.
pub const FEW: usize = 8;

/// For a body the numbers of rows of it, as long as they are few: hints, as those of an `escrow::Index`. Mostly a body has no
/// more rows, and going over them is faster than to find a key among those of all bodies.
#[derive(Drop)]
pub struct BodyNumbers {
    alloc: Global,
    few: Vec<Rising>,
}

impl BodyNumbers {
    /// No numbers.
    pub fn new(alloc: Global) -> BodyNumbers
        ensures { (body : ℕ) → few_at result body ≡ [] }
    {
        BodyNumbers {
            alloc,
            few: Vec::new(alloc),
        }
    }

    /// Adds a number of a body where these are few, and answers whether it is among them now. All numbers stay, after an error
    /// too.
    pub fn add(&mut self, body: u32, number: u32) -> Result<bool, AllocError>
        ensures added { IfOk result (λ among. among ≡ true → Contains (few_at self.new body) number) }
        ensures full { IfOk result (λ among. among ≡ false → 8 ≤ length (few_at self.new body)) }
        ensures kept { (b n : ℕ) → Contains (few_at self.old b) n → Contains (few_at self.new b) n }
        ensures still { (b : ℕ) → 8 ≤ length (few_at self.old b) → 8 ≤ length (few_at self.new b) }
    {
        add_few(self.alloc, &mut self.few, body, number)
    }

    /// The numbers of a body, rising.
    pub fn numbers(&self, body: u32) -> &[u32]
        ensures those { result.now ≡ few_at self.now body }
        ensures rising { IsStrictlyIncreasing result.now }
    {
        match self.few.get(body as usize) {
            Some(those) => those.as_slice(),
            None => &[],
        }
    }
}

// Adds a number to the few of a body, and answers whether it is among them now.
fn add_few(alloc: Global, few: &mut Vec<Rising>, body: u32, number: u32) -> Result<bool, AllocError>
    ensures added { IfOk result (λ among. among ≡ true → Contains (few_in few.new.items body) number) }
    ensures full { IfOk result (λ among. among ≡ false → 8 ≤ length (few_in few.new.items body)) }
    ensures kept { (b n : ℕ) → Contains (few_in few.old.items b) n → Contains (few_in few.new.items b) n }
    ensures still { (b : ℕ) → 8 ≤ length (few_in few.old.items b) → 8 ≤ length (few_in few.new.items b) }
{
    reach(alloc, few, body)?;
    put(&mut few[body as usize], number)
}

// Makes a place for a body.
fn reach(alloc: Global, few: &mut Vec<Rising>, body: u32) -> Result<(), AllocError>
    ensures there { OnOk result (body < length few.new.items) }
    ensures same { (b : ℕ) → few_in few.new.items b ≡ few_in few.old.items b }
{
    for place in few.len()..body as usize + 1 {
        few.push(Rising::new(alloc))?;
    }
    Ok(())
}

// Puts a number among rising ones where they are few, and answers whether it is among them now.
fn put(numbers: &mut Rising, number: u32) -> Result<bool, AllocError>
    ensures added { IfOk result (λ among. among ≡ true → Contains numbers.new.list number) }
    ensures full { IfOk result (λ among. among ≡ false → 8 ≤ length numbers.new.list) }
    ensures kept { (n : ℕ) → Contains numbers.old.list n → Contains numbers.new.list n }
    ensures still { 8 ≤ length numbers.old.list → 8 ≤ length numbers.new.list }
{
    if numbers.as_slice().contains(&number) {
        return Ok(true);
    }
    if numbers.as_slice().len() >= FEW {
        return Ok(false);
    }
    numbers.reserve()?;
    numbers.insert(number);
    Ok(true)
}
