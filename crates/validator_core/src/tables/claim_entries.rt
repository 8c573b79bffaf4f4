//! The entries by which claims came with bodies.
ghost use Rattle.std.specs.Prelude.{◌≡◌, ℕ, [], true, Contains, IfOk, OnOk};
ghost use Rattle.std.specs.List.Sorted.{IsStrictlyIncreasing};
ghost use Rattle.claim_table.specs.ClaimTable.Hinted.{few_at};
ghost use Rattle.escrow.specs.EventIndex.Keys.{numbers_at};
ghost use Rattle.journal.specs.declared.journal.claim.Claim.{Claim as ClaimValue};
ghost use Rattle.validator_core.specs.Tables.ClaimEntries.{came_at};
ghost use Rattle.validator_core.specs.Tables.Hints.{KeepsBelow};
ghost use Rattle.validator_core.specs.Tables.Names.{claim_key};

use crate::tables::name::ClaimKey;
use claim_table::BodyNumbers;
use escrow::Index;
use journal::Claim;
use std::alloc::{AllocError, Global};

// With so many claims an entry is gone over where a claim is looked for.
const FEW: usize = 8;

/// For a claim that came with a body the numbers of entries, among which are those by which it came: hints, as those of an
/// [`Index`].
///
/// The first few entries of a body are hints at each of its claims where they have few claims, and these have no key here: mostly
/// a body comes once.
#[derive(Drop)]
pub(crate) struct ClaimEntries {
    few: BodyNumbers,
    many: Index<ClaimKey>,
}

impl ClaimEntries {
    /// No numbers.
    pub(crate) fn new(alloc: Global) -> ClaimEntries
        ensures { (q : ClaimKey) → came_at result q ≡ [] }
    {
        ClaimEntries {
            few: BodyNumbers::new(alloc),
            many: Index::new(alloc),
        }
    }

    /// Adds the number of the entry that comes next, by which these claims came with the body of a number. The lesser numbers
    /// stay, after an error too.
    pub(crate) fn add(&mut self, body: u32, claims: &[Claim], number: u32) -> Result<(), AllocError>
        ensures added { OnOk result ((c : ClaimValue) → Contains claims.now c
            → Contains (came_at self.new (claim_key body c)) number) }
        ensures kept { KeepsBelow number (came_at self.old) (came_at self.new) }
    {
        if add_few(&mut self.few, body, claims.len(), number)? {
            return Ok(());
        }
        add_claims(&mut self.many, body, claims, number)
    }

    /// The hints at each claim on a body, rising.
    pub(crate) fn few(&self, body: u32) -> &[u32]
        ensures those { result.now ≡ few_at self.now.few body }
        ensures rising { IsStrictlyIncreasing result.now }
    {
        self.few.numbers(body)
    }

    /// Further hints at a claim, rising.
    pub(crate) fn many(&self, key: &ClaimKey) -> &[u32]
        ensures those { result.now ≡ numbers_at ⟦<ClaimKey as Ord>⟧.cmp self.now.many key.now }
        ensures rising { IsStrictlyIncreasing result.now }
    {
        self.many.numbers(key)
    }
}

// Adds the number of an entry with so many claims where these and the entries of the body are few, and answers whether it is
// among them now.
fn add_few(few: &mut BodyNumbers, body: u32, claims: usize, number: u32) -> Result<bool, AllocError>
    ensures added { IfOk result (λ among. among ≡ true → Contains (few_at few.new body) number) }
    ensures kept { (b n : ℕ) → Contains (few_at few.old b) n → Contains (few_at few.new b) n }
{
    if claims > FEW {
        return Ok(false);
    }
    few.add(body, number)
}

// Adds the number of an entry under each of its claims.
fn add_claims(
    many: &mut Index<ClaimKey>,
    body: u32,
    claims: &[Claim],
    number: u32,
) -> Result<(), AllocError>
    ensures added { OnOk result ((c : ClaimValue) → Contains claims.now c
        → Contains (numbers_at ⟦<ClaimKey as Ord>⟧.cmp many.new (claim_key body c)) number) }
    ensures kept { KeepsBelow number (numbers_at ⟦<ClaimKey as Ord>⟧.cmp many.old)
        (numbers_at ⟦<ClaimKey as Ord>⟧.cmp many.new) }
{
    for claim in claims {
        let key = ClaimKey {
            body,
            claim: *claim,
        };
        many.add(key, number)?;
    }
    Ok(())
}
