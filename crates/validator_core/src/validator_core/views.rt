//! What the accepted events and the bodies show.
ghost use Rattle.std.specs.Prelude.{◌≡◌, ◌<◌, ◌≤◌, List, length, map, filter, All, IfOk};
ghost use Rattle.validator_core.specs.Acceptance.Standing as standing;
ghost use Rattle.validator_core.specs.Acceptance.Standing.{AreSoundTables};
ghost use Rattle.validator_core.specs.Tables.View.{log_of};
ghost use Rattle.journal.specs.declared.journal.body.Body.{Body};
ghost use Rattle.journal.specs.Journal.Conflicts as conflicts;
ghost use Rattle.journal.specs.Journal.Conflicts.{IsConflictList};
ghost use Rattle.journal.specs.Journal.Journals.{NameConflicts, chosen};
ghost use Rattle.journal.specs.Journal.Logs as logs;
ghost use Rattle.validator_core.specs.ValidatorCore.Confluent.{IsSoInAlike};
ghost use Rattle.validator_core.specs.ValidatorCore.View.{accepted_by, base_of, told_of};
ghost use Rattle.validator_core.specs.ValidatorCore.Views.{IsPlaced};

use crate::acceptance::counts;
use crate::tables::Tables;
use crate::validator_core::Core;
use cesr_codes::Prefix;
use event_body::Event;
use journal::Conflict;
use journal_views::{conflict_sets, live};
use lists::{Items, length_u32};
use std::alloc::{AllocError, Global};

impl Core {
    /// The numbers of the live events of an identifier, in order. In whatever order, how often and by however many
    /// readers the same messages came: where each verdict was asked for, none contradicts another, no question is
    /// open, and no two different events have one identifier and number, the log is the same.
    pub fn log(&self, prefix: &Prefix) -> Result<Vec<u32>, AllocError>
        ensures live { IfOk result (λ numbers. chosen self.now.held numbers.items
            ≡ logs.live (accepted_by self.now) prefix.now) }
        ensures held { IfOk result (λ numbers. All (λ n. n < length self.now.held) numbers.items) }
        ensures confluent { IfOk result (λ numbers. IsSoInAlike self.now (λ log. logs.live log prefix.now)
            (chosen self.now.held numbers.items)) }
    {
        live(
            self.alloc,
            self.tables.events(),
            self.tables.log().numbers(),
            prefix,
        )
    }

    /// The conflicts: each place with two or more bodies that stand in the log and are signed, with the numbers of these bodies.
    pub fn conflicts(&self) -> Result<Vec<Conflict>, AllocError>
        ensures { IfOk result (λ found. (sets : List (List Body)) × NameConflicts self.now.held found.items sets
            × IsConflictList self.now.mode (base_of self.now) (told_of self.now) sets) }
    {
        let counted = counted(self.alloc, &self.tables)?;
        let sets = conflict_sets(
            self.alloc,
            self.tables.journal().bodies.as_slice(),
            self.tables.events(),
            counted.as_slice(),
        )?;
        placed(self.alloc, self.tables.events(), sets.as_slice())
    }
}

// The numbers of the bodies that count.
fn counted(alloc: Global, tables: &Tables) -> Result<Vec<u32>, AllocError>
    requires { AreSoundTables tables.now }
    ensures those { IfOk result (λ numbers. chosen tables.now.held numbers.items
        ≡ filter (conflicts.counts (standing.told_of tables.now) (log_of tables.now)) tables.now.held) }
    ensures held { IfOk result (λ numbers. All (λ n. n < length tables.now.held) numbers.items) }
{
    let mut numbers = Vec::new(alloc);
    for place in 0..tables.len() {
        let number = length_u32(place)?;
        if counts(tables, number) {
            numbers.push(number)?;
        }
    }
    Ok(numbers)
}

// The sets, each with its place.
fn placed(alloc: Global, events: &[Event], sets: &[Vec<u32>]) -> Result<Vec<Conflict>, AllocError>
    requires some { All (λ set. 1 ≤ length set.items) sets.now }
    requires held { All (λ set. All (λ n. n < length events.now) set.items) sets.now }
    ensures bodies { IfOk result (λ found. map (λ c. c.bodies) found.items ≡ map (λ set. set.items) sets.now) }
    ensures places { IfOk result (λ found. All (IsPlaced events.now) found.items) }
{
    let mut found = Vec::new(alloc);
    for set in sets {
        let conflict = conflict_of(alloc, events, set.as_slice())?;
        found.push(conflict)?;
    }
    Ok(found)
}

// A set with the place of its first body.
fn conflict_of(alloc: Global, events: &[Event], set: &[u32]) -> Result<Conflict, AllocError>
    requires some { 1 ≤ length set.now }
    requires held { All (λ n. n < length events.now) set.now }
    ensures bodies { IfOk result (λ conflict. conflict.bodies ≡ set.now) }
    ensures place { IfOk result (IsPlaced events.now) }
{
    let event = &events[set[0] as usize];
    let bodies = Items::from_vec(Vec::from_slice(alloc, set)?);
    Ok(Conflict {
        prefix: event.prefix(),
        sn: event.sn(),
        bodies,
    })
}
