//! The claims of a message, as a group of each kind.
ghost use Rattle.std.specs.Prelude.{◌≡◌, ◌≤◌, ◌++◌, All, IfOk, OnOk, filter, flat_map, length, map};
ghost use Rattle.cesr_codes.specs.declared.key.KeyCode.TheVariants.{Fixed};
ghost use Rattle.cesr_codes.specs.Indexed.{IsIndexed};
ghost use Rattle.cesr_stream.specs.Written.{IsCouple, item_text};
ghost use Rattle.export_core.specs.ExportLaws.Export.{is_couple, is_witness};
ghost use Rattle.export_core.specs.ExportCore.Messages.{IsFixed, claim_of, couple_group, held_group, witness_group};
ghost use Rattle.journal.specs.Journal.Replies.{is_held};
ghost use Rattle.journal.specs.declared.journal.claim.Claim.TheVariants.{Controller, Witness};

use cesr_codes::{IndexedSig, Key, Sig};
use cesr_stream::{Couple, Group, Item};
use journal::Claim;
use journal_views::StreamText;
use lists::Items;
use std::alloc::{AllocError, Global};

/// The controller's signatures among the claims.
pub(crate) fn held_sigs(alloc: Global, claims: &[Claim]) -> Result<Vec<IndexedSig>, AllocError>
    ensures are { IfOk result (λ sigs. map (λ s. Controller s) sigs.items ≡ filter is_held claims.now) }
    ensures few { IfOk result (λ sigs. length sigs.items ≤ length claims.now) }
    ensures raw { IfOk result (λ sigs. All IsIndexed sigs.items) }
{
    let mut sigs = Vec::new(alloc);
    for claim in claims {
        if let Claim::Controller(sig) = claim {
            is_indexed(*sig);
            sigs.push(*sig)?;
        }
    }
    Ok(sigs)
}

/// Puts the controller's signatures as a group, where there are some.
pub(crate) fn put_held(sigs: Vec<IndexedSig>, text: &mut StreamText) -> Result<(), AllocError>
    requires { length sigs.items ≤ 1024 }
    ensures { OnOk result (text.new.bytes.items ≡ text.old.bytes.items ++ flat_map item_text (held_group sigs.items)) }
{
    if sigs.is_empty() {
        return Ok(());
    }
    text.put_item(&Item::Group(Group::Controller(Items::from_vec(sigs))))
}

/// The signatures of witnesses by their indices among the claims.
pub(crate) fn witness_sigs(alloc: Global, claims: &[Claim]) -> Result<Vec<IndexedSig>, AllocError>
    ensures are { IfOk result (λ sigs. map (λ s. Witness s) sigs.items ≡ filter is_witness claims.now) }
    ensures few { IfOk result (λ sigs. length sigs.items ≤ length claims.now) }
    ensures raw { IfOk result (λ sigs. All IsIndexed sigs.items) }
{
    let mut sigs = Vec::new(alloc);
    for claim in claims {
        if let Claim::Witness(sig) = claim {
            is_indexed(*sig);
            sigs.push(*sig)?;
        }
    }
    Ok(sigs)
}

/// Puts the signatures of witnesses by their indices as a group, where there are some.
pub(crate) fn put_witness(sigs: Vec<IndexedSig>, text: &mut StreamText) -> Result<(), AllocError>
    requires { length sigs.items ≤ 1024 }
    ensures { OnOk result (text.new.bytes.items ≡ text.old.bytes.items
        ++ flat_map item_text (witness_group sigs.items)) }
{
    if sigs.is_empty() {
        return Ok(());
    }
    text.put_item(&Item::Group(Group::Witness(Items::from_vec(sigs))))
}

/// The witnesses' signatures with their keys.
pub(crate) fn couples_of(alloc: Global, claims: &[Claim]) -> Result<Vec<Couple>, AllocError>
    requires { All IsFixed claims.now }
    ensures are { IfOk result (λ couples. map claim_of couples.items ≡ filter is_couple claims.now) }
    ensures few { IfOk result (λ couples. length couples.items ≤ length claims.now) }
    ensures raw { IfOk result (λ couples. All IsCouple couples.items) }
{
    let mut couples = Vec::new(alloc);
    for claim in claims {
        if let Claim::Couple(key, sig) = claim {
            couples.push(couple(*key, *sig))?;
        }
    }
    Ok(couples)
}

/// Puts couples as a group, where there are some.
pub(crate) fn put_couples(couples: Vec<Couple>, text: &mut StreamText) -> Result<(), AllocError>
    requires { length couples.items ≤ 1024 }
    ensures { OnOk result (text.new.bytes.items ≡ text.old.bytes.items
        ++ flat_map item_text (couple_group couples.items)) }
{
    if couples.is_empty() {
        return Ok(());
    }
    text.put_item(&Item::Group(Group::Couples(Items::from_vec(couples))))
}

// A key that can't be rotated, with its signature.
fn couple(key: Key, sig: Sig) -> Couple
    requires { key.code ≡ Fixed }
    ensures key { result.key ≡ key }
    ensures sig { result.sig ≡ sig }
    ensures raw { IsCouple result }
{
    Couple { key, sig }
}

// The raw bytes of a signature are bytes, which a proof learns where the value is read.
fn is_indexed(_sig: IndexedSig)
    ensures { IsIndexed _sig }
{}
