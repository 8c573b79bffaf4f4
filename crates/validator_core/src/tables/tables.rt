//! The tables.
ghost use Rattle.std.specs.Prelude.{◌≡◌, length, map, slice_get, take};
ghost use Rattle.std.specs.Option.{option_copied, option_map};
ghost use Rattle.validator_core.specs.Tables.Hints.{IsEscrow};
ghost use Rattle.validator_core.specs.Tables.View.{nothing};

use crate::tables::accepted_log::AcceptedLog;
use crate::tables::claim_entries::ClaimEntries;
use crate::tables::name::{Name, SealKey};
use crate::tables::named_places::NamedPlaces;
use claim_table::ClaimTable;
use escrow::{Index, Waiting};
use event_body::Event;
use journal::Journal;
use json_tree::Text;
use lists::Items;
use std::alloc::Global;
use std::marker::Model;

/// The bodies with their events, the entries, the log of accepted events, the claims whose keys are found, the events that
/// wait, and hints.
#[derive(Drop)]
pub struct Tables {
    pub(crate) alloc: Global,
    pub(crate) journal: Journal,
    /// The event of each body.
    pub(crate) events: Vec<Event>,
    pub(crate) log: AcceptedLog,
    pub(crate) claims: ClaimTable,
    pub(crate) waiting: Waiting,
    /// How many accepted events have left the escrow.
    pub(crate) released: usize,
    /// The numbers of the bodies with a name.
    pub(crate) names: Index<Name>,
    /// The numbers of the entries by which bodies with a name came.
    pub(crate) told: Index<Name>,
    /// The numbers of the entries by which a claim came with a body.
    pub(crate) came: ClaimEntries,
    /// The places in the log of the events with a name.
    pub(crate) accepted: NamedPlaces,
    /// The places in the log of the events that seal a name.
    pub(crate) seals: Index<SealKey>,
    /// Whether two accepted events may have one name.
    pub(crate) clash: bool,
}

impl Model for Tables {
    ghost use Rattle.validator_core.specs.Tables.View.{View};
    ghost use Rattle.json_tree.specs.contracts.tree.Tree as tree;
    ghost use Rattle.std.specs.Coded.{codes};

    ghost Value = { View };

    ghost coded = { Prim.hlevel (codes, tree.the_row.coded) };

    ghost use Rattle.validator_core.specs.Tables.ClaimEntries.{came_at};
    ghost use Rattle.validator_core.specs.Tables.Hints.{AreHinted, IsPending};
    ghost use Rattle.validator_core.specs.Tables.Inside.{are_paired, held_in, view_of};
    ghost use Rattle.validator_core.specs.Tables.NamedPlaces.{places_at};
    ghost use Rattle.escrow.specs.EventIndex.Keys.{numbers_at};

    ghost view = { λ t. view_of t };

    ghost invariant = { λ t. are_paired t × IsPending t.claims
        × AreHinted (held_in t) t.journal.entries t.log.numbers t.released t.waiting
        (numbers_at ⟦<Name as Ord>⟧.cmp t.names) (numbers_at ⟦<Name as Ord>⟧.cmp t.told) (places_at t.accepted)
        (came_at t.came) (numbers_at ⟦<SealKey as Ord>⟧.cmp t.seals) t.clash };
}

impl Tables {
    /// Nothing.
    pub fn new(alloc: Global) -> Tables
        ensures { result ≡ nothing }
    {
        Tables {
            alloc,
            journal: Journal {
                bodies: Items::new(alloc),
                entries: Items::new(alloc),
            },
            events: Vec::new(alloc),
            log: AcceptedLog::new(alloc),
            claims: ClaimTable::new(alloc),
            waiting: Waiting::new(alloc),
            released: 0,
            names: Index::new(alloc),
            told: Index::new(alloc),
            came: ClaimEntries::new(alloc),
            accepted: NamedPlaces::new(alloc),
            seals: Index::new(alloc),
            clash: false,
        }
    }

    /// The journal.
    pub fn journal(&self) -> &Journal
        ensures bodies { result.now.bodies ≡ map (λ b. b.bytes) self.now.held }
        ensures entries { result.now.entries ≡ self.now.entries }
    {
        &self.journal
    }

    /// The journal, for which the tables are given up.
    pub fn into_journal(self) -> Journal
        ensures bodies { result.bodies ≡ map (λ b. b.bytes) self.held }
        ensures entries { result.entries ≡ self.entries }
    {
        let Tables { journal, .. } = self;
        journal
    }

    /// How many bodies there are.
    pub fn len(&self) -> usize
        ensures { result ≡ length self.now.held }
    {
        self.events.len()
    }

    /// The bytes of the body of a number.
    pub fn body(&self, number: u32) -> Option<&[u8]>
        ensures { option_map (λ bytes. bytes.now) result ≡ option_map (λ b. b.bytes) (slice_get self.now.held number) }
    {
        text_at(self.journal.bodies.as_slice(), number)
    }

    /// The event of the body of a number.
    pub fn event(&self, number: u32) -> Option<&Event>
        ensures { option_map (λ event. event.now) result ≡ option_map (λ b. b.event) (slice_get self.now.held number) }
    {
        event_at(self.events.as_slice(), number)
    }

    /// The events of all bodies.
    pub fn events(&self) -> &[Event]
        ensures { result.now ≡ map (λ b. b.event) self.now.held }
    {
        self.events.as_slice()
    }

    /// The log of the accepted events.
    pub fn log(&self) -> &AcceptedLog
        ensures { result.now ≡ self.now.log }
    {
        &self.log
    }

    /// The claims on bodies whose keys are found.
    pub fn claims(&self) -> &ClaimTable
        ensures { result.now ≡ self.now.claims }
    {
        &self.claims
    }

    /// The events that wait, and those that were accepted since the accepted ones last left.
    pub fn waiting(&self) -> &Waiting
        ensures { IsEscrow result.now self.now.held (take self.now.released self.now.log.numbers) }
    {
        &self.waiting
    }
}

// The bytes of the body of a number.
fn text_at(bodies: &[Text], number: u32) -> Option<&[u8]>
    ensures { option_copied result ≡ slice_get bodies.now number }
{
    let body = bodies.get(number as usize)?;
    Some(body.as_slice())
}

/// The event of a number.
pub(crate) fn event_at(events: &[Event], number: u32) -> Option<&Event>
    ensures { option_copied result ≡ slice_get events.now number }
{
    events.get(number as usize)
}
