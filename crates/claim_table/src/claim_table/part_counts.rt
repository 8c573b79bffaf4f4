//! How many claims with a yes bring each part of a body.
ghost use Rattle.std.specs.Prelude.{◌≡◌, ◌+◌, ◌-◌, ◌<◌, ◌^◌, true, OnOk, nat_lt, length, slice_get};
ghost use Rattle.claim_table.specs.ClaimTable.Counts.{amount, entry_at, is_entered, is_one};
ghost use Rattle.claim_table.specs.ClaimTable.Entries.{bit};
ghost use Rattle.claim_table.specs.declared.claim_table.part.Part.TheVariants.{Backed};
ghost use Rattle.claim_table.specs.ClaimTable.Parts.{AreSoMany, brings, supports};
ghost use Rattle.claim_table.specs.ClaimTable.BodyParts.{BodyPart};

use crate::claim_table::body_counts::BodyCounts;
use crate::claim_table::claimed::Parts;
use crate::claim_table::part::Part;
use crate::claim_table::row::Row;
use std::alloc::{AllocError, Global};

/// The counts of the bodies by their numbers. No count is greater than the number of rows, which are fewer than there are
/// numbers of 32 bits, so none overflows.
#[derive(Drop)]
pub(crate) struct PartCounts {
    alloc: Global,
    counts: Vec<BodyCounts>,
}

impl PartCounts {
    /// No entry.
    pub(crate) fn new(alloc: Global) -> PartCounts
        ensures { (q : BodyPart) → amount result q ≡ 0 }
    {
        PartCounts {
            alloc,
            counts: Vec::new(alloc),
        }
    }

    /// Whether some claim brings the part.
    pub(crate) fn has(&self, body: u32, part: Part) -> bool
        ensures { result ≡ nat_lt 0 (amount self.now (record { body = body; part = part })) }
    {
        match count_of(self.counts.as_slice(), body, part) {
            Some(count) => count > 0,
            None => false,
        }
    }

    /// How many places of witnesses some claim brings.
    pub(crate) fn backers(&self, body: u32) -> usize
        ensures { AreSoMany (λ n. nat_lt 0 (amount self.now (record { body = body; part = Backed n }))) result }
    {
        match self.counts.get(body as usize) {
            Some(counts) => counts.backers(),
            None => 0,
        }
    }

    /// Makes entries for a claim's parts, so that counting them takes no memory.
    pub(crate) fn enter(&mut self, body: u32, parts: &Parts) -> Result<(), AllocError>
        ensures entered { OnOk result ((q : BodyPart) → brings body parts.now q ≡ true → is_entered self.new q ≡ true) }
        ensures amounts { (q : BodyPart) → amount self.new q ≡ amount self.old q }
        ensures kept { (q : BodyPart) → is_entered self.old q ≡ true → is_entered self.new q ≡ true }
    {
        self.reach(body)?;
        self.enter_one(body, parts.index.map(Part::Indexed))?;
        self.enter_one(body, parts.reveal.map(Part::Revealed))?;
        self.enter_one(body, parts.backer.map(Part::Backed))
    }

    // Counts a claim's parts.
    fn count(&mut self, body: u32, parts: &Parts)
        requires entered { (q : BodyPart) → brings body parts.now q ≡ true → is_entered self.old q ≡ true }
        requires few { (q : BodyPart) → brings body parts.now q ≡ true → amount self.old q < 2 ^ 32 - 1 }
        ensures amounts { (q : BodyPart) → amount self.new q ≡ amount self.old q + bit (brings body parts.now q) }
        ensures kept { (q : BodyPart) → is_entered self.new q ≡ is_entered self.old q }
    {
        self.count_one(body, parts.index.map(Part::Indexed));
        self.count_one(body, parts.reveal.map(Part::Revealed));
        self.count_one(body, parts.backer.map(Part::Backed));
    }

    // Counts a claim's parts no more.
    fn uncount(&mut self, body: u32, parts: &Parts)
        ensures amounts { (q : BodyPart) → amount self.new q ≡ amount self.old q - bit (brings body parts.now q) }
        ensures kept { (q : BodyPart) → is_entered self.new q ≡ is_entered self.old q }
    {
        self.uncount_one(body, parts.index.map(Part::Indexed));
        self.uncount_one(body, parts.reveal.map(Part::Revealed));
        self.uncount_one(body, parts.backer.map(Part::Backed));
    }

    /// Counts the parts of a row with a yes.
    pub(crate) fn count_yes(&mut self, row: &Row)
        requires entered { (q : BodyPart) → brings row.now.claimed.body row.now.claimed.parts q ≡ true
            → is_entered self.old q ≡ true }
        requires few { (q : BodyPart) → supports q row.now ≡ true → amount self.old q < 2 ^ 32 - 1 }
        ensures amounts { (q : BodyPart) → amount self.new q ≡ amount self.old q + bit (supports q row.now) }
        ensures kept { (q : BodyPart) → is_entered self.new q ≡ is_entered self.old q }
    {
        if row.has_yes() {
            self.count(row.claimed.body, &row.claimed.parts);
        }
    }

    /// Counts the parts of a row with a yes no more.
    pub(crate) fn uncount_yes(&mut self, row: &Row)
        ensures amounts { (q : BodyPart) → amount self.new q ≡ amount self.old q - bit (supports q row.now) }
        ensures kept { (q : BodyPart) → is_entered self.new q ≡ is_entered self.old q }
    {
        if row.has_yes() {
            self.uncount(row.claimed.body, &row.claimed.parts);
        }
    }

    // Makes a place for a body.
    fn reach(&mut self, body: u32) -> Result<(), AllocError>
        ensures there { OnOk result (body < length self.new.counts.items) }
        ensures amounts { (q : BodyPart) → amount self.new q ≡ amount self.old q }
        ensures kept { (q : BodyPart) → is_entered self.new q ≡ is_entered self.old q }
    {
        for place in self.counts.len()..body as usize + 1 {
            self.counts.push(BodyCounts::new(self.alloc))?;
        }
        Ok(())
    }

    fn enter_one(&mut self, body: u32, part: Option<Part>) -> Result<(), AllocError>
        requires there { body < length self.old.counts.items }
        ensures entered { OnOk result ((q : BodyPart) → is_one body part q ≡ true → is_entered self.new q ≡ true) }
        ensures amounts { (q : BodyPart) → amount self.new q ≡ amount self.old q }
        ensures kept { (q : BodyPart) → is_entered self.old q ≡ true → is_entered self.new q ≡ true }
        ensures same { length self.new.counts.items ≡ length self.old.counts.items }
    {
        let Some(part) = part else {
            return Ok(());
        };
        self.counts[body as usize].enter(part)
    }

    fn count_one(&mut self, body: u32, part: Option<Part>)
        requires entered { (q : BodyPart) → is_one body part q ≡ true → is_entered self.old q ≡ true }
        requires few { (q : BodyPart) → is_one body part q ≡ true → amount self.old q < 2 ^ 32 - 1 }
        ensures amounts { (q : BodyPart) → amount self.new q ≡ amount self.old q + bit (is_one body part q) }
        ensures kept { (q : BodyPart) → is_entered self.new q ≡ is_entered self.old q }
    {
        let Some(part) = part else {
            return;
        };
        if let Some(counts) = self.counts.get_mut(body as usize) {
            counts.count(part);
        }
    }

    fn uncount_one(&mut self, body: u32, part: Option<Part>)
        ensures amounts { (q : BodyPart) → amount self.new q ≡ amount self.old q - bit (is_one body part q) }
        ensures kept { (q : BodyPart) → is_entered self.new q ≡ is_entered self.old q }
    {
        let Some(part) = part else {
            return;
        };
        if let Some(counts) = self.counts.get_mut(body as usize) {
            counts.uncount(part);
        }
    }
}

// The count of a part of a body, where there is an entry for it.
fn count_of(counts: &[BodyCounts], body: u32, part: Part) -> Option<u32>
    ensures { result ≡ entry_at (slice_get counts.now body) part }
{
    counts.get(body as usize)?.count_of(part)
}
