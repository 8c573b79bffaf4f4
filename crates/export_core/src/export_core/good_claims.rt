//! The claims on an event that are sent.
ghost use Rattle.std.specs.Prelude.{◌≡◌, IfOk, filter};
ghost use Rattle.export_core.specs.ExportCore.GoodClaims.{is_good_by};
ghost use Rattle.export_core.specs.ExportLaws.Export as export;
ghost use Rattle.journal.specs.Journal.Replies as replies;
ghost use Rattle.journal.specs.Journal.Replies.{same_claim};
ghost use Rattle.key_state.specs.Same.{distinct};

use crate::export_core::signers::Signers;
use claim_table::Signature;
use journal::{Claim, claimed_sig};
use std::alloc::{AllocError, Global};
use std::collections::BTreeSet;

/// The claims on the event of a number that have a yes, each at its first coming.
pub(crate) fn good_claims(
    alloc: Global,
    good: &BTreeSet<Signature>,
    signers: &Signers,
    number: u32,
    claims: &[Claim],
) -> Result<Vec<Claim>, AllocError>
    ensures { IfOk result (λ found. found.items
        ≡ distinct same_claim (filter (is_good_by good.now signers.now number) claims.now)) }
{
    let passed: Vec<Claim> = claims
        .iter()
        .copied()
        .filter(|claim| is_good(good, signers, number, claim))
        .collect(alloc)?;
    first_comings(alloc, passed.as_slice())
}

// Each claim at its first coming.
fn first_comings(alloc: Global, claims: &[Claim]) -> Result<Vec<Claim>, AllocError>
    ensures { IfOk result (λ firsts. firsts.items ≡ distinct same_claim claims.now) }
{
    let mut seen = BTreeSet::new(alloc);
    let mut firsts = Vec::new(alloc);
    for claim in claims {
        if seen.insert(*claim)? {
            firsts.push(*claim)?;
        }
    }
    Ok(firsts)
}

// Whether the claim on the event of a number has a yes.
fn is_good(good: &BTreeSet<Signature>, signers: &Signers, number: u32, claim: &Claim) -> bool
    ensures { result ≡ is_good_by good.now signers.now number claim.now }
{
    let Some(key) = signers.claimed_key(claim) else {
        return false;
    };
    good.contains(&Signature {
        body: number,
        key,
        sig: claimed_sig(claim),
    })
}

/// The controller's claims, then those of witnesses by index, then those with keys of their own.
pub(crate) fn ordered(alloc: Global, claims: &[Claim]) -> Result<Vec<Claim>, AllocError>
    ensures { IfOk result (λ all. all.items ≡ export.ordered claims.now) }
{
    let mut behind = witness_claims(alloc, claims)?;
    let couples = couple_claims(alloc, claims)?;
    behind.extend_from_slice(couples.as_slice())?;
    let mut all = held_claims(alloc, claims)?;
    all.extend_from_slice(behind.as_slice())?;
    Ok(all)
}

fn held_claims(alloc: Global, claims: &[Claim]) -> Result<Vec<Claim>, AllocError>
    ensures { IfOk result (λ those. those.items ≡ filter replies.is_held claims.now) }
{
    claims.iter().copied().filter(is_held).collect(alloc)
}

fn witness_claims(alloc: Global, claims: &[Claim]) -> Result<Vec<Claim>, AllocError>
    ensures { IfOk result (λ those. those.items ≡ filter export.is_witness claims.now) }
{
    claims.iter().copied().filter(is_witness).collect(alloc)
}

fn couple_claims(alloc: Global, claims: &[Claim]) -> Result<Vec<Claim>, AllocError>
    ensures { IfOk result (λ those. those.items ≡ filter export.is_couple claims.now) }
{
    claims.iter().copied().filter(is_couple).collect(alloc)
}

fn is_held(claim: &Claim) -> bool
    ensures { result ≡ replies.is_held claim.now }
{
    matches!(claim, Claim::Controller(_))
}

fn is_witness(claim: &Claim) -> bool
    ensures { result ≡ export.is_witness claim.now }
{
    matches!(claim, Claim::Witness(_))
}

fn is_couple(claim: &Claim) -> bool
    ensures { result ≡ export.is_couple claim.now }
{
    matches!(claim, Claim::Couple(_, _))
}
