//! The support of an event by the claims on it.
ghost use Rattle.std.specs.Prelude.{◌<◌, length};
ghost use Rattle.std.specs.Option.{option_copied};
ghost use Rattle.claim_table.specs.ClaimTable.Rows.{has_yes_by};
ghost use Rattle.journal.specs.EventRules.Parts.{parts_by};
ghost use Rattle.journal.specs.Journal.Logs.{same_body};
ghost use Rattle.journal.proofs.JournalLemmas.Different.{Differ};
ghost use Rattle.validator_core.specs.Acceptance.Differences.{Differ-prop};
ghost use Rattle.validator_core.specs.Acceptance.Entries.{claims_of, says_in};

use crate::acceptance::signed_entries::{is_opened, is_signed};
use crate::tables::Tables;
use event_body::Event;
use journal::{Support, witness, witness_count};
use key_state::KeyState;

/// What the claims on the event of a number add up to behind a state, found by going over the entries by which they came.
#[derive(Drop)]
pub(crate) struct EntrySupport<'a> {
    pub(crate) tables: &'a Tables,
    /// The entries by which claims on the event came, and perhaps others.
    pub(crate) entries: &'a [u32],
    pub(crate) number: u32,
    pub(crate) state: Option<&'a KeyState>,
    pub(crate) event: &'a Event,
    ghost held: { number < length tables.now.held },
    ghost differ: { Differ same_body tables.now.held } by { Differ-prop tables.now.held },
}

impl<'a> Support for EntrySupport<'a> {
    ghost has = { λ s. parts_by (says_in s.tables.now.claims.rows s.number)
        (has_yes_by s.tables.now.claims.rows s.number) (option_copied s.state) s.event.now
        (claims_of s.tables.now s.entries.now s.number) };

    fn has_index(&self, index: u16) -> bool {
        is_signed(self, index)
    }

    fn reveals(&self, place: u16) -> bool {
        is_opened(self, place)
    }

    fn backs(&self, place: u16) -> bool {
        match witness(self.state, self.event, usize::from(place)) {
            Some(key) => self.tables.claims().has_yes_by(self.number, &key),
            None => false,
        }
    }

    fn most_backers(&self) -> u64 {
        witness_count(self.state, self.event) as u64
    }
}
