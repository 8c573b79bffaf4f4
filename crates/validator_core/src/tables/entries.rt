//! Entries of the journal, found by the names of their bodies' events and by their claims.
ghost use Rattle.std.specs.Prelude.{◌≡◌, Contains, OnOk, Some, length, slice_get, ◌<◌, ◌++◌, ◌∷◌, [], OnErr};
ghost use Rattle.std.specs.List.{list_any};
ghost use Rattle.std.specs.List.Sorted.{IsStrictlyIncreasing};
ghost use Rattle.escrow.specs.EventIndex.Keys.{numbers_at};
ghost use Rattle.journal.specs.Journal.Replies.{same_claim};
ghost use Rattle.journal.specs.declared.journal.claim.Claim.{Claim as ClaimValue};
ghost use Rattle.journal.specs.declared.journal.entry.Entry.TheVariants.{Took, Heard};
ghost use Rattle.validator_core.specs.Tables.ClaimEntries.{came_at};
ghost use Rattle.validator_core.specs.Tables.Hints.{HasEntriesNamed, KeepsBelow};
ghost use Rattle.validator_core.specs.Tables.Names.{claim_key, name_of as name_of_event};
ghost use Rattle.validator_core.specs.Tables.Rows.{has_claim};
ghost use Rattle.validator_core.specs.Tables.View.{came_with};

use crate::tables::Tables;
use crate::tables::claim_entries::ClaimEntries;
use crate::tables::name::{ClaimKey, Name, name_of};
use escrow::Index;
use event_body::Event;
use journal::{Claim, Entry, Question};
use lists::{Items, length_u32};
use std::alloc::AllocError;

impl Tables {
    /// The numbers of all entries by which bodies with this name came, and perhaps of others, rising: whoever asks compares.
    pub fn told(&self, name: &Name) -> &[u32]
        ensures all { HasEntriesNamed name.now self.now.held self.now.entries result.now }
        ensures rising { IsStrictlyIncreasing result.now }
    {
        self.told.numbers(name)
    }

    /// Whether the claim came with the body of a number.
    pub fn has_come(&self, body: u32, claim: &Claim) -> bool
        ensures { result ≡ list_any (same_claim claim.now) (came_with body self.now.entries) }
    {
        let key = ClaimKey {
            body,
            claim: *claim,
        };
        came_by_either(
            self.journal.entries.as_slice(),
            self.came.few(body),
            self.came.many(&key),
            body,
            claim,
        )
    }

    /// Adds the entry of a body that came with its claims.
    pub fn push_took(
        &mut self,
        reader: u16,
        body: u32,
        claims: Items<Claim>,
    ) -> Result<(), AllocError>
        requires held { body < length self.old.held }
        ensures ok { OnOk result (self.new
            ≡ record self.old { entries = self.old.entries ++ Took reader body claims ∷ [] }) }
        ensures err { OnErr result (self.new ≡ self.old) }
    {
        note_took(
            &mut self.told,
            &mut self.came,
            &self.events[body as usize],
            body,
            claims.as_slice(),
            self.journal.entries.len(),
        )?;
        self.journal.entries.push(Entry::Took {
            reader,
            body,
            claims,
        })?;
        Ok(())
    }

    /// Adds the entry of a verdict.
    pub fn push_heard(
        &mut self,
        reader: u16,
        question: &Question,
        yes: bool,
    ) -> Result<(), AllocError>
        requires held { question.now.body < length self.old.held }
        ensures ok { OnOk result (self.new
            ≡ record self.old {
              entries = self.old.entries
                  ++ Heard reader question.now.body question.now.key question.now.sig yes ∷ [];
            }) }
        ensures err { OnErr result (self.new ≡ self.old) }
    {
        self.journal.entries.push(Entry::Heard {
            reader,
            body: question.body,
            key: question.key,
            sig: question.sig,
            yes,
        })?;
        Ok(())
    }
}

// Whether the claim came with the body of a number by one of these entries or those.
fn came_by_either(entries: &[Entry], few: &[u32], many: &[u32], body: u32, claim: &Claim) -> bool
    ensures { result ≡ list_any (λ i. has_claim body claim.now (slice_get entries.now i)) (few.now ++ many.now) }
{
    came_by_some(entries, few, body, claim) || came_by_some(entries, many, body, claim)
}

// Whether the claim came with the body of a number by one of these entries.
fn came_by_some(entries: &[Entry], numbers: &[u32], body: u32, claim: &Claim) -> bool
    ensures { result ≡ list_any (λ i. has_claim body claim.now (slice_get entries.now i)) numbers.now }
{
    numbers
        .iter()
        .any(|number| is_came_at(entries, *number, body, claim))
}

// Whether the claim came with the body of a number by the entry of a number.
fn is_came_at(entries: &[Entry], number: u32, body: u32, claim: &Claim) -> bool
    ensures { result ≡ has_claim body claim.now (slice_get entries.now number) }
{
    match entries.get(number as usize) {
        Some(entry) => is_came_by(entry, body, claim),
        None => false,
    }
}

// Whether the claim came with the body of a number by an entry.
fn is_came_by(entry: &Entry, sought: u32, claim: &Claim) -> bool
    ensures { result ≡ has_claim sought claim.now (Some entry.now) }
{
    match entry {
        Entry::Took { body, claims, .. } => { *body == sought && claims.as_slice().contains(claim) }
        Entry::Heard { .. } => false,
    }
}

// Adds the number of the entry that comes behind so many, under the name of its body's event and under each of its claims.
fn note_took(
    told: &mut Index<Name>,
    came: &mut ClaimEntries,
    event: &Event,
    body: u32,
    claims: &[Claim],
    count: usize,
) -> Result<(), AllocError>
    ensures told { OnOk result (Contains (numbers_at ⟦<Name as Ord>⟧.cmp told.new (name_of_event event.now)) count) }
    ensures came { OnOk result ((c : ClaimValue) → Contains claims.now c
        → Contains (came_at came.new (claim_key body c)) count) }
    ensures kept_told { KeepsBelow count (numbers_at ⟦<Name as Ord>⟧.cmp told.old)
        (numbers_at ⟦<Name as Ord>⟧.cmp told.new) }
    ensures kept_came { KeepsBelow count (came_at came.old) (came_at came.new) }
{
    let number = length_u32(count)?;
    told.add(name_of(event), number)?;
    came.add(body, claims, number)
}
