//! The claims on bodies: raised where their keys are found, and the verdicts on them.
ghost use Rattle.std.specs.Prelude.{◌≡◌, ◌≢◌, ◌<◌, true, None, Some, OnOk, OnErr, length, slice_get};
ghost use Rattle.std.specs.Option.{option_copied};
ghost use Rattle.claim_table.specs.ClaimTable.Rows as rows;
ghost use Rattle.claim_table.specs.declared.claim_table.signature.Signature.{Signature as SignatureValue};
ghost use Rattle.validator_core.specs.Tables.Raised.{Raises, RaisesSome, claims_at, state_there};
ghost use Rattle.validator_core.specs.Tables.View.{with_claims};
ghost use Rattle.journal.specs.Journal.History.{claims_on};
ghost use Rattle.journal.specs.Journal.Journals.{told_by};
ghost use Rattle.journal.specs.Journal.Logs.{same_body};
ghost use Rattle.journal.specs.declared.journal.body.Body.{Body};
ghost use Rattle.journal.proofs.JournalLemmas.Different.{Differ};
ghost use Rattle.key_state.specs.Kept.{IsKept};

use crate::tables::Tables;
use crate::tables::accepted_log::AcceptedLog;
use crate::tables::entry_claims::{claims_by, raise_claims_by, raise_entries};
use crate::tables::name::name_of;
use claim_table::Signature;
use journal::Claim;
use key_state::KeyState;
use std::alloc::AllocError;

impl Tables {
    /// The claims that came by an entry and stand on the body of a number.
    pub fn claims_by(&self, entry: u32, number: u32) -> &[Claim]
        requires differ { Differ same_body self.now.held }
        ensures { (b : Body) → slice_get self.now.held number ≡ Some b
            → result.now ≡ claims_at self.now.held b (slice_get self.now.entries entry) }
    {
        claims_by(
            self.events.as_slice(),
            self.journal.entries.as_slice().get(entry as usize),
            number,
        )
    }

    /// Raises the claims on the body of a number that came with one entry, behind the state at a place of the log (an inception
    /// is behind none). After an error some of them are raised.
    pub fn raise_entry(
        &mut self,
        number: u32,
        entry: u32,
        state: Option<u32>,
    ) -> Result<(), AllocError>
        requires held { number < length self.old.held }
        requires differ { Differ same_body self.old.held }
        requires kept { (b : Body) → slice_get self.old.held number ≡ Some b → IsKept b.event }
        ensures ok { OnOk result ((b : Body) → slice_get self.old.held number ≡ Some b
            → Raises number (state_there state self.old.log.states) b.event
            (claims_at self.old.held b (slice_get self.old.entries entry)) self.old self.new) }
        ensures err { OnErr result (RaisesSome number self.old self.new) }
    {
        raise_claims_by(
            &mut self.claims,
            self.events.as_slice(),
            self.journal.entries.as_slice().get(entry as usize),
            number,
            state_at(&self.log, state),
        )
    }

    /// Raises all claims on the body of a number, behind the state at a place of the log (an inception is behind none). After an
    /// error some of them are raised.
    pub fn raise_body(&mut self, number: u32, state: Option<u32>) -> Result<(), AllocError>
        requires held { number < length self.old.held }
        requires differ { Differ same_body self.old.held }
        requires kept { (b : Body) → slice_get self.old.held number ≡ Some b → IsKept b.event }
        ensures ok { OnOk result ((b : Body) → slice_get self.old.held number ≡ Some b
            → Raises number (state_there state self.old.log.states) b.event
            (claims_on (told_by self.old.held self.old.entries) b) self.old self.new) }
        ensures err { OnErr result (RaisesSome number self.old self.new) }
    {
        let name = name_of(&self.events[number as usize]);
        raise_entries(
            &mut self.claims,
            self.events.as_slice(),
            self.journal.entries.as_slice(),
            self.told.numbers(&name),
            number,
            state_at(&self.log, state),
        )
    }

    /// Sets the verdict of a signature that is raised and has none. It takes no memory, and may be taken back by `unhear` until
    /// `close`.
    pub fn hear(&mut self, signature: &Signature, verdict: bool)
        requires raised { rows.is_raised self.old.claims.rows signature.now ≡ true }
        requires open_still { rows.verdict_of self.old.claims.rows signature.now ≡ None }
        requires idle { self.old.claims.pending ≡ None }
        ensures heard { self.new ≡ with_claims
            (record { rows = rows.heard signature.now verdict self.old.claims.rows; pending = Some signature.now })
            self.old }
        ensures back { rows.unheard signature.now self.new.claims.rows ≡ self.old.claims.rows }
    {
        self.claims.hear(signature, verdict);
    }

    /// Takes the verdict of the pending signature back. It takes no memory.
    pub fn unhear(&mut self)
        requires { self.old.claims.pending ≢ None }
        ensures { (s : SignatureValue) → self.old.claims.pending ≡ Some s
            → self.new ≡ with_claims (record { rows = rows.unheard s self.old.claims.rows; pending = None }) self.old }
    {
        self.claims.unhear();
    }

    /// Closes the question of the pending signature: its verdict stays. It takes no memory.
    pub fn close(&mut self)
        ensures { self.new ≡ with_claims (record { rows = self.old.claims.rows; pending = None }) self.old }
    {
        self.claims.close();
    }
}

// The state at a place of the log, where one is given.
fn state_at(log: &AcceptedLog, place: Option<u32>) -> Option<&KeyState>
    ensures { option_copied result ≡ state_there place log.now.states }
{
    log.state(place?)
}
