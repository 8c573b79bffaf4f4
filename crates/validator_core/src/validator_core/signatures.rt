//! The good signatures on bodies.
ghost use Rattle.std.specs.Prelude.{◌≡◌, ◌++◌, ℕ, List, IfOk, OnOk, Some, filter_map, slice_get};
ghost use Rattle.std.specs.Option.{option_copied};
ghost use Rattle.validator_core.specs.Acceptance.Standing as standing;
ghost use Rattle.validator_core.specs.Acceptance.Standing.{AreSoundTables};
ghost use Rattle.validator_core.specs.Tables.View.{body_of, log_of};
ghost use Rattle.validator_core.specs.ValidatorCore.Signatures.{good_claim, good_in, good_on, good_under};
ghost use Rattle.validator_core.specs.ValidatorCore.View.{accepted_by, told_of};
ghost use Rattle.journal.specs.Journal.Readiness.{good_sigs};
ghost use Rattle.journal.specs.declared.journal.body.Body.{Body};
ghost use Rattle.key_state.specs.Exposure.{own_rules};
ghost use Rattle.validator_core.specs.Acceptance.Entries.{says_in, yes_of};

use crate::acceptance::{Footing, footing_of};
use crate::tables::{Tables, name_of};
use crate::validator_core::Core;
use cesr_codes::{IndexedSig, Key, Sig};
use claim_table::Signature;
use event_body::Event;
use journal::{Claim, claimed_key};
use key_state::KeyState;
use std::alloc::{AllocError, Global};

impl Core {
    /// The controller's signatures on the body of a number that have a yes verdict, in order of coming; one that came more
    /// than once comes so often. There are none where the body doesn't stand in the log. Only the entries by which bodies
    /// with the name of its event came are gone over.
    pub fn good_signatures(&self, number: u32) -> Result<Vec<IndexedSig>, AllocError>
        ensures { IfOk result (λ sigs. (b : Body) → slice_get self.now.held number ≡ Some b
            → sigs.items ≡ good_on self.now b) }
    {
        signatures_on(self.alloc, &self.tables, number)
    }

    /// The controller's signatures that have a yes verdict on the event at a place of the accepted ones, by the state under
    /// which it was accepted, in order of coming; one that came more than once comes so often.
    pub fn signatures_at(&self, place: usize) -> Result<Vec<IndexedSig>, AllocError>
        ensures { IfOk result (λ sigs. (b : Body) → slice_get (accepted_by self.now) place ≡ Some b
            → sigs.items ≡ good_under (told_of self.now) (accepted_by self.now) b) }
    {
        signatures_under(self.alloc, &self.tables, place)
    }
}

// The good signatures on the event at a place of the log, by the state under which it was accepted.
fn signatures_under(
    alloc: Global,
    tables: &Tables,
    place: usize,
) -> Result<Vec<IndexedSig>, AllocError>
    requires { AreSoundTables tables.now }
    ensures { IfOk result (λ sigs. (b : Body) → slice_get (log_of tables.now) place ≡ Some b
        → sigs.items ≡ good_under (standing.told_of tables.now) (log_of tables.now) b) }
{
    let Some(number) = number_at(tables.log().numbers(), place) else {
        return Ok(Vec::new(alloc));
    };
    let Some(event) = tables.event(number) else {
        return Ok(Vec::new(alloc));
    };
    let state = tables.log().state_before(place, event);
    signatures_behind(alloc, tables, number, event, state)
}

/// The number at a place.
pub(crate) fn number_at(numbers: &[u32], place: usize) -> Option<u32>
    ensures { result ≡ slice_get numbers.now place }
{
    numbers.get(place).copied()
}

// The good signatures on the body of a number, where it stands.
fn signatures_on(alloc: Global, tables: &Tables, number: u32) -> Result<Vec<IndexedSig>, AllocError>
    requires { AreSoundTables tables.now }
    ensures { IfOk result (λ sigs. (b : Body) → slice_get tables.now.held number ≡ Some b
        → sigs.items ≡ good_in (standing.told_of tables.now) (log_of tables.now) b) }
{
    let Some(event) = tables.event(number) else {
        return Ok(Vec::new(alloc));
    };
    match footing_of(tables, event) {
        Some(Footing::Inception) => signatures_behind(alloc, tables, number, event, None),
        Some(Footing::Behind(place)) => {
            signatures_behind(alloc, tables, number, event, tables.log().state(place))
        }
        None => Ok(Vec::new(alloc)),
    }
}

// The good signatures on the event of a number, behind a state (an inception is behind none).
fn signatures_behind(
    alloc: Global,
    tables: &Tables,
    number: u32,
    event: &Event,
    state: Option<&KeyState>,
) -> Result<Vec<IndexedSig>, AllocError>
    requires { AreSoundTables tables.now }
    ensures { IfOk result (λ sigs. (bytes : List ℕ)
        → slice_get tables.now.held number ≡ Some (body_of bytes event.now)
        → sigs.items ≡ good_sigs (standing.told_of tables.now) (option_copied state.entry) (body_of bytes event.now)) }
{
    let mut found = Vec::new(alloc);
    let entries = tables.told(&name_of(event));
    for entry in entries {
        let claims = tables.claims_by(*entry, number);
        add_good(&mut found, tables, number, event, state, claims)?;
    }
    Ok(found)
}

// Adds the good signatures among claims on the event of a number.
fn add_good(
    found: &mut Vec<IndexedSig>,
    tables: &Tables,
    number: u32,
    event: &Event,
    state: Option<&KeyState>,
    claims: &[Claim],
) -> Result<(), AllocError>
    ensures { OnOk result (found.new.items ≡ found.old.items
        ++ filter_map (good_claim (says_in tables.now.claims.rows number)
        (own_rules (option_copied state.entry) event.now)) claims.now) }
{
    for claim in claims {
        if let Some(sig) = good_signature(tables, number, event, state, claim) {
            found.push(sig)?;
        }
    }
    Ok(())
}

// The controller's signature of a claim on the event of a number, where its verdict is yes.
fn good_signature(
    tables: &Tables,
    number: u32,
    event: &Event,
    state: Option<&KeyState>,
    claim: &Claim,
) -> Option<IndexedSig>
    ensures { result ≡ good_claim (says_in tables.now.claims.rows number)
        (own_rules (option_copied state.entry) event.now) claim.now }
{
    let Claim::Controller(sig) = claim else {
        return None;
    };
    let key = claimed_key(state, event, claim)?;
    if says_yes(tables, number, &key, &sig.sig) {
        Some(*sig)
    } else {
        None
    }
}

// Whether the verdict on a key's signature on the body of a number is yes.
fn says_yes(tables: &Tables, number: u32, key: &Key, sig: &Sig) -> bool
    ensures { result ≡ says_in tables.now.claims.rows number key.now sig.now }
{
    let signature = Signature {
        body: number,
        key: *key,
        sig: *sig,
    };
    is_yes(tables.claims().verdict(&signature))
}

// Whether it is a verdict of yes.
fn is_yes(verdict: Option<Option<bool>>) -> bool
    ensures { result ≡ yes_of verdict }
{
    verdict == Some(Some(true))
}
