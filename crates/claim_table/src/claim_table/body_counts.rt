//! How many claims with a yes bring each part of one body.
ghost use Rattle.std.specs.Prelude.{◌≡◌, ◌+◌, ◌-◌, ◌<◌, ◌^◌, true, [], set, slice_get, Some, None, IfOk, IfErr, IfSome, IfNone, OnOk, is_some};
ghost use Rattle.std.specs.List.Sorted.{IsStrictlySortedBy};
ghost use Rattle.std.specs.Map.{keys_of};
ghost use Rattle.claim_table.specs.ClaimTable.Entries.{AreEntries, IsGapFor, IsPlaceOf, backer_count, backs, bit, or_zero, part_cmp, part_entry, same_part};
ghost use Rattle.claim_table.specs.declared.claim_table.part.Part.{Part as PartValue};

use crate::claim_table::part::Part;
use std::alloc::{AllocError, Global};
use std::marker::Model;

/// The parts of a body that were entered, in order, each with its count: mostly two or three, and at most as many as the body
/// has keys, commitments and witnesses. An entry stays when its count falls to 0, and does no harm.
#[derive(Drop)]
pub(crate) struct BodyCounts {
    entries: Vec<(Part, u32)>,
    /// How many of the backers have a count over 0.
    backers: usize,
}

impl Model for BodyCounts {
    ghost use Rattle.claim_table.specs.ClaimTable.Entries.{AreEntries, Entries};

    ghost Value = { Entries };

    ghost view = { λ b. b.entries.items };

    ghost invariant = { λ b. AreEntries b.entries.items b.backers };
}

impl BodyCounts {
    /// No entry.
    pub(crate) fn new(alloc: Global) -> BodyCounts
        ensures { result ≡ [] }
    {
        BodyCounts {
            entries: Vec::new(alloc),
            backers: 0,
        }
    }

    /// How many of the backers have a count over 0.
    pub(crate) fn backers(&self) -> usize
        ensures those { result ≡ backer_count self.now }
        ensures sorted { IsStrictlySortedBy part_cmp (keys_of self.now) }
    {
        self.backers
    }

    /// The count of a part, where there is an entry for it.
    pub(crate) fn count_of(&self, part: Part) -> Option<u32>
        ensures { result ≡ part_entry self.now part }
    {
        match find(self.entries.as_slice(), part) {
            Some(at) => Some(at.1),
            None => None,
        }
    }

    /// Makes an entry for a part.
    pub(crate) fn enter(&mut self, part: Part) -> Result<(), AllocError>
        ensures entered { OnOk result ((p : PartValue) → same_part part p ≡ true
            → is_some (part_entry self.new p) ≡ true) }
        ensures amounts { (p : PartValue) → or_zero (part_entry self.new p) ≡ or_zero (part_entry self.old p) }
        ensures kept { (p : PartValue) → is_some (part_entry self.old p) ≡ true → is_some (part_entry self.new p) ≡ true }
    {
        match place_of(self.entries.as_slice(), part) {
            Ok(_) => Ok(()),
            Err(place) => Ok(self.entries.insert(place, (part, 0))?),
        }
    }

    /// Counts a part once more.
    pub(crate) fn count(&mut self, part: Part)
        requires entered { is_some (part_entry self.old part) ≡ true }
        requires few { or_zero (part_entry self.old part) < 2 ^ 32 - 1 }
        ensures amounts { (p : PartValue)
            → or_zero (part_entry self.new p) ≡ or_zero (part_entry self.old p) + bit (same_part part p) }
        ensures kept { (p : PartValue) → is_some (part_entry self.new p) ≡ is_some (part_entry self.old p) }
    {
        if let Some((place, count)) = find(self.entries.as_slice(), part) {
            set_count(
                &mut self.entries,
                &mut self.backers,
                place,
                (part, count + 1),
            );
        }
    }

    /// Counts a part once less.
    pub(crate) fn uncount(&mut self, part: Part)
        ensures amounts { (p : PartValue)
            → or_zero (part_entry self.new p) ≡ or_zero (part_entry self.old p) - bit (same_part part p) }
        ensures kept { (p : PartValue) → is_some (part_entry self.new p) ≡ is_some (part_entry self.old p) }
    {
        if let Some((place, count)) = find(self.entries.as_slice(), part) {
            set_count(
                &mut self.entries,
                &mut self.backers,
                place,
                (part, count.saturating_sub(1)),
            );
        }
    }
}

// Puts an entry in the place of the one with the same part.
fn set_count(entries: &mut Vec<(Part, u32)>, backers: &mut usize, place: usize, entry: (Part, u32))
    requires at { IsPlaceOf entries.old.items entry.0 place }
    requires kept { AreEntries entries.old.items backers.old }
    ensures set { entries.new.items ≡ set entries.old.items place entry }
    ensures kept { AreEntries entries.new.items backers.new }
{
    let old = backer_of(entries[place]);
    entries[place] = entry;
    *backers = *backers + backer_of(entry) - old;
}

// One for a backer with a count over 0, and none otherwise.
fn backer_of(entry: (Part, u32)) -> usize
    ensures { result ≡ bit (backs entry) }
{
    usize::from(matches!(entry.0, Part::Backed(_)) && entry.1 > 0)
}

// The place of the entry of a part, and its count.
fn find(entries: &[(Part, u32)], part: Part) -> Option<(usize, u32)>
    requires { IsStrictlySortedBy part_cmp (keys_of entries.now) }
    ensures found { IfSome result (λ at. slice_get entries.now at.0 ≡ Some (part, at.1)) }
    ensures none { IfNone result (part_entry entries.now part ≡ None) }
{
    match place_of(entries, part) {
        Ok(place) => Some((place, entries[place].1)),
        Err(_) => None,
    }
}

// The place of the entry of a part, or the one where it would go.
fn place_of(entries: &[(Part, u32)], part: Part) -> Result<usize, usize>
    requires { IsStrictlySortedBy part_cmp (keys_of entries.now) }
    ensures found { IfOk result (IsPlaceOf entries.now part) }
    ensures absent { IfErr result (IsGapFor entries.now part) }
{
    entries.binary_search_by_key(&part, |&(held, _)| held)
}
