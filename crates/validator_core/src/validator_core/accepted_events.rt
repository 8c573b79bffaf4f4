//! Accepted events, by their places, and the numbers of bodies.
ghost use Rattle.std.specs.Prelude.{◌≡◌, ◌==◌, IfNone, IfSome, Some, ℕ, false, position, slice_get};
ghost use Rattle.validator_core.specs.Acceptance.Standing.{AreSoundTables};
ghost use Rattle.validator_core.specs.Tables.View.{body_of, log_of};
ghost use Rattle.event_body.specs.EventBody.Judging.{SpellsEvent};
ghost use Rattle.journal.specs.EventRules.Additions.{is_number};
ghost use Rattle.validator_core.specs.ValidatorCore.Signatures.{is_witness_under, opens_under};
ghost use Rattle.validator_core.specs.ValidatorCore.View.{accepted_by};
ghost use Rattle.journal.specs.Journal.Logs.{is_in};
ghost use Rattle.journal.specs.declared.journal.body.Body.{Body};

use crate::tables::Tables;
use crate::validator_core::Core;
use crate::validator_core::signatures::number_at;
use cesr_codes::{IndexedSig, Key};
use event_body::Event;
use journal::{has_witness, reveal_of};

impl Core {
    /// The number of the body with these bytes, which spell the event; none where it isn't held. It takes no memory.
    pub fn number_of(&self, body: &[u8], event: &Event) -> Option<u32>
        requires { SpellsEvent event.now body.now }
        ensures some { IfSome result (λ n. slice_get self.now.held n ≡ Some (body_of body.now event.now)) }
        ensures none { IfNone result (is_in self.now.held (body_of body.now event.now) ≡ false) }
    {
        self.tables.number_of(body, event)
    }

    /// The first place of a number among the accepted ones. It takes no memory.
    pub fn place_of(&self, number: u32) -> Option<usize>
        ensures { result ≡ position (λ n. n == number) self.now.accepted }
    {
        let place = self.tables.place_of(number)?;
        Some(place as usize)
    }

    /// Whether a key is among the own witnesses of the event at a place of the accepted ones, by the state under which it was
    /// accepted. It takes no memory.
    pub fn is_witness_at(&self, place: usize, key: &Key) -> bool
        ensures { (b : Body) → slice_get (accepted_by self.now) place ≡ Some b
            → result ≡ is_witness_under (accepted_by self.now) b key.now }
    {
        is_witness_in(&self.tables, place, key)
    }

    /// The place of the commitment that a signature on the event at a place of the accepted ones opens, by the state under which
    /// the event was accepted; none where it opens none. It takes no memory.
    pub fn reveal_at(&self, place: usize, sig: &IndexedSig) -> Option<u16>
        ensures { (b : Body) → slice_get (accepted_by self.now) place ≡ Some b → (n : ℕ)
            → is_number result n ≡ opens_under (accepted_by self.now) b n sig.now }
    {
        reveal_in(&self.tables, place, sig)
    }
}

// The place of the commitment that a signature on the event at a place of the log opens.
fn reveal_in(tables: &Tables, place: usize, sig: &IndexedSig) -> Option<u16>
    requires { AreSoundTables tables.now }
    ensures { (b : Body) → slice_get (log_of tables.now) place ≡ Some b → (n : ℕ)
        → is_number result n ≡ opens_under (log_of tables.now) b n sig.now }
{
    let Some(number) = number_at(tables.log().numbers(), place) else {
        return None;
    };
    let Some(event) = tables.event(number) else {
        return None;
    };
    reveal_of(tables.log().state_before(place, event), event, sig)
}

// Whether a key is among the own witnesses of the event at a place of the log.
fn is_witness_in(tables: &Tables, place: usize, key: &Key) -> bool
    requires { AreSoundTables tables.now }
    ensures { (b : Body) → slice_get (log_of tables.now) place ≡ Some b
        → result ≡ is_witness_under (log_of tables.now) b key.now }
{
    let Some(number) = number_at(tables.log().numbers(), place) else {
        return false;
    };
    let Some(event) = tables.event(number) else {
        return false;
    };
    has_witness(tables.log().state_before(place, event), event, key)
}
