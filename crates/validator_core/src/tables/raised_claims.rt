//! Claims, raised in a table of claims.
ghost use Rattle.std.specs.Prelude.{◌≡◌, ◌∷◌, [], OnOk, OnErr};
ghost use Rattle.std.specs.Option.{option_copied};
ghost use Rattle.key_state.specs.Kept.{IsKept};
ghost use Rattle.validator_core.specs.Tables.RaisedRows.{RaisesRows, RaisesSomeRows};

use claim_table::{ClaimTable, Claimed, Parts};
use event_body::Event;
use journal::{Additions, Claim, claimed_key, claimed_sig};
use key_state::KeyState;
use std::alloc::AllocError;

/// Raises claims on the event of a number, behind a state, where their keys are found. After an error some of them are raised.
pub(crate) fn raise_claims(
    claims: &mut ClaimTable,
    number: u32,
    state: Option<&KeyState>,
    event: &Event,
    came: &[Claim],
) -> Result<(), AllocError>
    requires kept { IsKept event.now }
    ensures ok { OnOk result (RaisesRows number (option_copied state.entry) event.now came.now claims.old claims.new) }
    ensures err { OnErr result (RaisesSomeRows number claims.old claims.new) }
{
    for claim in came {
        raise_claim(claims, number, state, event, claim)?;
    }
    Ok(())
}

// Raises a claim on an event, where its key is found.
fn raise_claim(
    claims: &mut ClaimTable,
    number: u32,
    state: Option<&KeyState>,
    event: &Event,
    claim: &Claim,
) -> Result<(), AllocError>
    requires kept { IsKept event.now }
    ensures ok { OnOk result (RaisesRows number (option_copied state.entry) event.now (claim.now ∷ []) claims.old
        claims.new) }
    ensures err { OnErr result (claims.new ≡ claims.old) }
{
    let Some(key) = claimed_key(state, event, claim) else {
        return Ok(());
    };
    let added = Additions::of(state, event, claim, &key);
    claims.raise(Claimed {
        body: number,
        key,
        sig: claimed_sig(claim),
        parts: Parts {
            index: added.index,
            reveal: added.reveal,
            backer: added.backer,
        },
    })
}
