//! The table of claims.
ghost use Rattle.std.specs.Prelude.{◌≡◌, ◌≢◌, ◌≤◌, ℕ, true, length, take, slice_get, Some, None, OnOk, OnErr, if◌then◌else◌};
ghost use Rattle.std.specs.BTreeSet.{IsOrdered};
ghost use Rattle.std.specs.Option.{option_map};
ghost use Rattle.claim_table.specs.ClaimTable.Parts.{AreSoMany, count_below, has_part};
ghost use Rattle.claim_table.specs.ClaimTable.Rows.{DoAgree, has_yes_by, heard, is_raised, open_rows, raised, signature_of, unheard, verdict_of};
ghost use Rattle.claim_table.specs.ClaimTable.Table.{AreBelow, KeepsPending, nothing};
ghost use Rattle.claim_table.specs.declared.claim_table.part.Part.TheVariants.{Indexed, Revealed, Backed};
ghost use Rattle.claim_table.specs.declared.claim_table.signature.Signature.{Signature};

use crate::claim_table::body_index::BodyIndex;
use crate::claim_table::claim_rows::ClaimRows;
use crate::claim_table::claimed::Claimed;
use crate::claim_table::part::Part;
use crate::claim_table::part_counts::PartCounts;
use crate::claim_table::row::Row;
use crate::claim_table::signature::Signature;
use crate::claim_table::spot::Spot;
use cesr_codes::Key;
use std::alloc::{AllocError, Global};
use std::collections::BTreeSet;
use std::marker::Model;

/// The claims on bodies, in the order of raising, each with the verdict on its signature. A question is a signature
/// without a verdict. A verdict can be taken back until its question is closed.
#[derive(Drop)]
pub struct ClaimTable {
    inner: ClaimRows,
}

impl Model for ClaimTable {
    ghost use Rattle.std.specs.Coded.{codes};
    ghost use Rattle.claim_table.specs.ClaimTable.Table.{Table};

    ghost Value = { Table };

    ghost coded = { Prim.hlevel codes };

    ghost use Rattle.claim_table.specs.ClaimTable.Keeping.{IsSound, seen};

    ghost view = { λ t. seen t.inner };

    ghost invariant = { λ t. IsSound t.inner };
}

impl ClaimTable {
    /// No rows.
    pub fn new(alloc: Global) -> ClaimTable
        ensures { result ≡ nothing }
    {
        ClaimTable {
            inner: ClaimRows {
                rows: Vec::new(alloc),
                pending: None,
                spots: BTreeSet::new(alloc),
                counts: PartCounts::new(alloc),
                by_signature: BodyIndex::new(alloc),
            },
        }
    }

    /// How many rows there are.
    pub fn len(&self) -> usize
        ensures { result ≡ length self.now.rows }
    {
        self.inner.rows.len()
    }

    /// Adds the row of a claim, with the verdict that its signature has already. A refusal is want of memory.
    pub fn raise(&mut self, claimed: Claimed) -> Result<(), AllocError>
        ensures ok { OnOk result (self.new.rows ≡ raised self.old.rows claimed) }
        ensures pending { self.new.pending ≡ self.old.pending }
        ensures err { OnErr result (self.new ≡ self.old) }
    {
        self.inner.raise(claimed)
    }

    /// Cuts the rows back to so many. It takes no memory.
    pub fn truncate(&mut self, len: usize)
        requires { KeepsPending len self.old.rows self.old.pending }
        ensures rows { self.new.rows ≡ take len self.old.rows }
        ensures pending { self.new.pending ≡ self.old.pending }
    {
        self.inner.truncate(len);
    }

    /// The verdict of a signature, where some row is of it. All of its rows have that one.
    pub fn verdict(&self, signature: &Signature) -> Option<Option<bool>>
        ensures verdict { result ≡ (if is_raised self.now.rows signature.now then Some
            (verdict_of self.now.rows signature.now) else None) }
        ensures agree { DoAgree self.now.rows }
    {
        self.inner.verdict(signature)
    }

    /// Sets the verdict of a signature that has none. It takes no memory, and may be taken back by `unhear` until `close`.
    pub fn hear(&mut self, signature: &Signature, verdict: bool)
        requires raised { is_raised self.old.rows signature.now ≡ true }
        requires open_still { verdict_of self.old.rows signature.now ≡ None }
        requires idle { self.old.pending ≡ None }
        ensures rows { self.new.rows ≡ heard signature.now verdict self.old.rows }
        ensures pending { self.new.pending ≡ Some signature.now }
        ensures back { unheard signature.now self.new.rows ≡ self.old.rows }
    {
        self.inner.hear(signature, verdict);
    }

    /// Closes the question of the pending signature: its verdict stays. It takes no memory.
    pub fn close(&mut self)
        ensures rows { self.new.rows ≡ self.old.rows }
        ensures pending { self.new.pending ≡ None }
    {
        self.inner.close();
    }

    /// Takes the verdict of the pending signature back. It takes no memory.
    pub fn unhear(&mut self)
        requires { self.old.pending ≢ None }
        ensures rows { (s : Signature) → self.old.pending ≡ Some s → self.new.rows ≡ unheard s self.old.rows }
        ensures pending { self.new.pending ≡ None }
    {
        self.inner.unhear();
    }

    /// How many questions are open.
    pub fn open_count(&self) -> usize
        requires { self.now.pending ≡ None }
        ensures { (bodies : ℕ) → AreBelow bodies self.now.rows → result ≡ length (open_rows bodies self.now.rows) }
    {
        spot_count(&self.inner.spots)
    }

    /// The open question of a number, body by body, and on a body in the order of raising.
    pub fn open_question(&self, skip: usize) -> Option<Signature>
        requires { self.now.pending ≡ None }
        ensures { (bodies : ℕ) → AreBelow bodies self.now.rows
            → result ≡ option_map (λ r. signature_of r.claimed) (slice_get (open_rows bodies self.now.rows) skip) }
    {
        match nth_spot(&self.inner.spots, skip) {
            Some(spot) => signature_at(self.inner.rows.as_slice(), spot.row),
            None => None,
        }
    }

    /// Whether a controller's claim at this index has a yes.
    pub fn has_index(&self, body: u32, index: u16) -> bool
        ensures { result ≡ has_part self.now.rows body (Indexed index) }
    {
        self.inner.counts.has(body, Part::Indexed(index))
    }

    /// Whether a claim with a yes reveals the commitment of this place.
    pub fn reveals(&self, body: u32, place: u16) -> bool
        ensures { result ≡ has_part self.now.rows body (Revealed place) }
    {
        self.inner.counts.has(body, Part::Revealed(place))
    }

    /// Whether a claim by the witness of this place in the event's own list has a yes.
    pub fn has_backer(&self, body: u32, place: u16) -> bool
        ensures { result ≡ has_part self.now.rows body (Backed place) }
    {
        self.inner.counts.has(body, Part::Backed(place))
    }

    /// How many places of the event's own list of witnesses have a claim with a yes: so many of those below any bound at most.
    pub fn backer_count(&self, body: u32) -> usize
        ensures all { AreSoMany (λ n. has_part self.now.rows body (Backed n)) result }
        ensures most { (bound : ℕ) → count_below (λ n. has_part self.now.rows body (Backed n)) bound ≤ result }
    {
        self.inner.counts.backers(body)
    }

    /// Whether a claim by the key has a yes. It goes over all rows.
    pub fn has_yes_by(&self, body: u32, key: &Key) -> bool
        ensures { result ≡ has_yes_by self.now.rows body key.now }
    {
        any_yes_by(self.inner.rows.as_slice(), body, key)
    }
}

// How many spots there are.
fn spot_count(spots: &BTreeSet<Spot>) -> usize
    ensures count { result ≡ length spots.now.keys }
    ensures rising { IsOrdered ⟦<Spot as Ord>⟧.cmp spots.now }
{
    spots.len()
}

// The spot of a number.
fn nth_spot(spots: &BTreeSet<Spot>, skip: usize) -> Option<Spot>
    ensures nth { result ≡ slice_get spots.now.keys skip }
    ensures rising { IsOrdered ⟦<Spot as Ord>⟧.cmp spots.now }
{
    spots.iter().nth(skip).copied()
}

// The signature of the row at a place.
fn signature_at(rows: &[Row], place: usize) -> Option<Signature>
    ensures { result ≡ option_map (λ r. signature_of r.claimed) (slice_get rows.now place) }
{
    match rows.get(place) {
        Some(row) => Some(row.claimed.signature()),
        None => None,
    }
}

// Whether some row of the body by the key has a yes.
fn any_yes_by(rows: &[Row], body: u32, key: &Key) -> bool
    ensures { result ≡ has_yes_by rows.now body key.now }
{
    rows.iter().any(|row| { row.has_yes() && row.claimed.body == body && row.claimed.key == *key })
}
