//! The rows, and what is kept beside them so that no call goes over all of them.
ghost use Rattle.std.specs.Prelude.{◌≡◌, ◌+◌, ◌-◌, ◌<◌, ◌^◌, ◌||◌, ◌&&◌, ◌++◌, ℕ, true, slice_index_or, length, take, slice_get, Contains, Some, None, OnOk, OnErr, if◌then◌else◌};
ghost use Rattle.std.specs.BTreeMap.{is_at};
ghost use Rattle.std.specs.BTreeSet as set;
ghost use Rattle.std.specs.List.Sorted.{IsStrictlyIncreasing};
ghost use Rattle.std.specs.Option.{option_flatten, option_map};
ghost use Rattle.claim_table.specs.ClaimTable.Counts.{amount, is_entered};
ghost use Rattle.claim_table.specs.ClaimTable.Keeping.{AreCounted, AreEntered, IsFirstOf, IsLeast, IsPendingBelow, IsSound, at_place, is_of_at, lesser, seen, spot_cmp};
ghost use Rattle.claim_table.specs.ClaimTable.Rows.{heard, is_raised, raised, unheard, verdict_of, with_verdict, with_verdicts};
ghost use Rattle.claim_table.specs.ClaimTable.BodyParts.{BodyPart};
ghost use Rattle.claim_table.specs.declared.claim_table.signature.Signature.{Signature};
ghost use Rattle.claim_table.specs.declared.claim_table.spot.Spot.{Spot};

use crate::claim_table::body_index::BodyIndex;
use crate::claim_table::claimed::Claimed;
use crate::claim_table::part_counts::PartCounts;
use crate::claim_table::row::Row;
use crate::claim_table::signature::Signature;
use crate::claim_table::spot::Spot;
use lists::length_u32;
use std::alloc::AllocError;
use std::collections::BTreeSet;

/// The signature whose verdict may still be taken back, and its first row.
#[derive(Clone, Copy)]
pub(crate) struct Pending {
    pub(crate) signature: Signature,
    pub(crate) row: usize,
}

/// The rows, with the spots of the open questions, the counts of parts, and the rows of each signature.
#[derive(Drop)]
pub(crate) struct ClaimRows {
    pub(crate) rows: Vec<Row>,
    pub(crate) pending: Option<Pending>,
    /// The first rows of the signatures without a verdict. That of the pending signature stays among them until its
    /// question is closed, so that taking its verdict back puts nothing in.
    pub(crate) spots: BTreeSet<Spot>,
    pub(crate) counts: PartCounts,
    pub(crate) by_signature: BodyIndex<Signature>,
}

impl ClaimRows {
    /// The place of the first row of a signature.
    pub(crate) fn first_row(&self, signature: &Signature) -> Option<u32>
        requires { IsSound self.now }
        ensures { IsFirstOf self.now.rows.items signature.now result }
    {
        first_hinted(
            self.rows.as_slice(),
            self.by_signature.few(signature.body),
            self.by_signature.many(signature.body, signature),
            signature,
        )
    }

    /// The verdict of a signature, where some row is of it.
    pub(crate) fn verdict(&self, signature: &Signature) -> Option<Option<bool>>
        requires { IsSound self.now }
        ensures { result ≡ (if is_raised self.now.rows.items signature.now then Some
            (verdict_of self.now.rows.items signature.now) else None) }
    {
        match self.first_row(signature) {
            Some(row) => verdict_at(self.rows.as_slice(), row),
            None => None,
        }
    }

    /// Adds the row of a claim, with the verdict that its signature has already.
    pub(crate) fn raise(&mut self, claimed: Claimed) -> Result<(), AllocError>
        requires { IsSound self.old }
        ensures ok { OnOk result (self.new.rows.items ≡ raised self.old.rows.items claimed) }
        ensures err { OnErr result (self.new.rows.items ≡ self.old.rows.items) }
        ensures pending { self.new.pending ≡ self.old.pending }
        ensures sound { IsSound self.new }
    {
        let row = self.rows.len();
        // How many rows there are then fits as well: so no count overflows.
        let rows = length_u32(row + 1)?;
        let number = rows - 1;
        let signature = claimed.signature();
        let verdict = self.verdict(&signature);
        self.rows.reserve(1)?;
        self.counts.enter(claimed.body, &claimed.parts)?;
        self.by_signature.add(signature.body, signature, number)?;
        let spot = Spot {
            body: claimed.body,
            row,
        };
        open_new(&mut self.spots, spot, verdict.is_none())?;
        let added = row_of(claimed, verdict);
        self.counts.count_yes(&added);
        self.rows.push_reserved(added);
        Ok(())
    }

    /// Cuts the rows back to so many.
    pub(crate) fn truncate(&mut self, len: usize)
        requires sound { IsSound self.old }
        requires kept { IsPendingBelow len self.old.pending }
        ensures rows { self.new.rows.items ≡ take len self.old.rows.items }
        ensures pending { self.new.pending ≡ self.old.pending }
        ensures sound { IsSound self.new }
    {
        while self.rows.len() > len {
            self.pop();
        }
    }

    // Takes the last row away.
    fn pop(&mut self)
        requires sound { IsSound self.old }
        requires kept { IsPendingBelow (length self.old.rows.items - 1) self.old.pending }
        ensures rows { self.new.rows.items ≡ take (length self.old.rows.items - 1) self.old.rows.items }
        ensures pending { self.new.pending ≡ self.old.pending }
        ensures sound { IsSound self.new }
    {
        let Some(row) = self.rows.pop() else {
            return;
        };
        self.counts.uncount_yes(&row);
        let spot = Spot {
            body: row.claimed.body,
            row: self.rows.len(),
        };
        self.spots.remove(&spot);
    }

    /// Sets the verdict of a signature, which may be taken back until its question is closed.
    pub(crate) fn hear(&mut self, signature: &Signature, verdict: bool)
        requires sound { IsSound self.old }
        requires raised { is_raised self.old.rows.items signature.now ≡ true }
        requires open_still { verdict_of self.old.rows.items signature.now ≡ None }
        requires idle { self.old.pending ≡ None }
        ensures seen { seen self.new ≡ record
            { rows = heard signature.now verdict self.old.rows.items; pending = Some signature.now } }
        ensures back { unheard signature.now self.new.rows.items ≡ self.old.rows.items }
        ensures sound { IsSound self.new }
    {
        let few = self.by_signature.few(signature.body);
        let many = self.by_signature.many(signature.body, signature);
        let Some(row) = first_hinted(self.rows.as_slice(), few, many, signature) else {
            return;
        };
        self.pending = Some(Pending {
            signature: *signature,
            row: row as usize,
        });
        set_verdicts(
            &mut self.rows,
            &mut self.counts,
            few,
            many,
            signature,
            Some(verdict),
        );
    }

    /// Takes the verdict of the pending signature back.
    pub(crate) fn unhear(&mut self)
        requires { IsSound self.old }
        ensures rows { (s : Signature) → (seen self.old).pending ≡ Some s
            → self.new.rows.items ≡ unheard s self.old.rows.items }
        ensures pending { self.new.pending ≡ None }
        ensures sound { IsSound self.new }
    {
        let Some(pending) = self.pending.take() else {
            return;
        };
        set_verdicts(
            &mut self.rows,
            &mut self.counts,
            self.by_signature.few(pending.signature.body),
            self.by_signature
                .many(pending.signature.body, &pending.signature),
            &pending.signature,
            None,
        );
    }

    /// Closes the question of the pending signature, whose verdict then stays.
    pub(crate) fn close(&mut self)
        requires { IsSound self.old }
        ensures rows { self.new.rows.items ≡ self.old.rows.items }
        ensures pending { self.new.pending ≡ None }
        ensures sound { IsSound self.new }
    {
        let Some(pending) = self.pending.take() else {
            return;
        };
        let spot = Spot {
            body: pending.signature.body,
            row: pending.row,
        };
        self.spots.remove(&spot);
    }
}

// The row of a claim, with the verdict of its signature where some row is of it.
fn row_of(claimed: Claimed, verdict: Option<Option<bool>>) -> Row
    ensures { result ≡ record { claimed = claimed; verdict = option_flatten verdict } }
{
    Row {
        claimed,
        verdict: verdict.flatten(),
    }
}

// Whether the row at a place is of the signature.
fn is_row_of(rows: &[Row], place: u32, signature: &Signature) -> bool
    ensures { result ≡ is_of_at signature.now (slice_get rows.now place) }
{
    match rows.get(place as usize) {
        Some(row) => row.claimed.signature() == *signature,
        None => false,
    }
}

// The verdict of the row at a place.
fn verdict_at(rows: &[Row], place: u32) -> Option<Option<bool>>
    ensures { result ≡ option_map (λ r. r.verdict) (slice_get rows.now place) }
{
    rows.get(place as usize).map(|row| row.verdict)
}

// The least of the numbers that is the place of a row of the signature. Some may be places of other rows, or of none.
fn first_of(rows: &[Row], numbers: &[u32], signature: &Signature) -> Option<u32>
    requires { IsStrictlyIncreasing numbers.now }
    ensures { IsLeast (λ n. is_of_at signature.now (slice_get rows.now n)) numbers.now result }
{
    for number in numbers {
        if is_row_of(rows, *number, signature) {
            return Some(*number);
        }
    }
    None
}

// The least of the places of rows of the signature among some numbers and others.
fn first_hinted(rows: &[Row], few: &[u32], many: &[u32], signature: &Signature) -> Option<u32>
    requires few { IsStrictlyIncreasing few.now }
    requires many { IsStrictlyIncreasing many.now }
    ensures { IsLeast (λ n. is_of_at signature.now (slice_get rows.now n)) (few.now ++ many.now) result }
{
    lesser(
        first_of(rows, few, signature),
        first_of(rows, many, signature),
    )
}

// The lesser of two numbers, where both are there.
fn lesser(first: Option<u32>, second: Option<u32>) -> Option<u32>
    ensures { result ≡ lesser first second }
{
    match (first, second) {
        (Some(first), Some(second)) => Some(first.min(second)),
        (Some(first), None) => Some(first),
        (None, second) => second,
    }
}

// Adds the spot of a question that is new.
fn open_new(spots: &mut BTreeSet<Spot>, spot: Spot, is_new: bool) -> Result<(), AllocError>
    ensures ok { OnOk result ((q : Spot) → set.contains spot_cmp spots.new q
        ≡ (set.contains spot_cmp spots.old q || (is_new && is_at (spot_cmp spot) q))) }
    ensures err { OnErr result (spots.new ≡ spots.old) }
{
    if is_new {
        spots.insert(spot)?;
    }
    Ok(())
}

// Sets the verdict of each row of the signature, or takes it back. All of its rows are at some of these places.
fn set_verdicts(
    rows: &mut Vec<Row>,
    counts: &mut PartCounts,
    few: &[u32],
    many: &[u32],
    signature: &Signature,
    verdict: Option<bool>,
)
    requires counted { AreCounted rows.old.items (amount counts.old) }
    requires entries { AreEntered rows.old.items (is_entered counts.old) }
    requires few { length rows.old.items < 2 ^ 32 }
    requires all { (i : ℕ) → is_of_at signature.now (slice_get rows.old.items i) ≡ true
        → Contains (few.now ++ many.now) i }
    ensures rows { rows.new.items ≡ with_verdicts signature.now verdict rows.old.items }
    ensures counted { AreCounted rows.new.items (amount counts.new) }
    ensures entries { (q : BodyPart) → is_entered counts.new q ≡ is_entered counts.old q }
{
    for k in 0..few.len() + many.len() {
        let place = place_at(few, many, k);
        set_verdict(rows, counts, place, signature, verdict);
    }
}

// The place of a number in the one list and the other behind it.
fn place_at(few: &[u32], many: &[u32], k: usize) -> u32
    requires { k < length few.now + length many.now }
    ensures { result ≡ slice_index_or (few.now ++ many.now) k 0 }
{
    if k < few.len() {
        few[k]
    } else {
        many[k - few.len()]
    }
}

// Sets the verdict of the row at a place, where it is of the signature.
fn set_verdict(
    rows: &mut Vec<Row>,
    counts: &mut PartCounts,
    place: u32,
    signature: &Signature,
    verdict: Option<bool>,
)
    requires counted { AreCounted rows.old.items (amount counts.old) }
    requires entries { AreEntered rows.old.items (is_entered counts.old) }
    requires few { length rows.old.items < 2 ^ 32 }
    ensures rows { rows.new.items ≡ at_place place (with_verdict signature.now verdict) rows.old.items }
    ensures counted { AreCounted rows.new.items (amount counts.new) }
    ensures entries { (q : BodyPart) → is_entered counts.new q ≡ is_entered counts.old q }
{
    if !is_row_of(rows.as_slice(), place, signature) {
        return;
    }
    let old = rows[place as usize];
    let new = Row {
        claimed: old.claimed,
        verdict,
    };
    counts.uncount_yes(&old);
    counts.count_yes(&new);
    rows[place as usize] = new;
}
