//! Event seals as values.
ghost use Rattle.std.specs.Prelude.{◌≡◌, ◌++◌, ◌∷◌, [], IfOk, OnOk};
ghost use Rattle.std.specs.List.{AllByRecursion};
ghost use Rattle.json_tree.specs.Spelling.{IsJson};
ghost use Rattle.controller_core.specs.ControllerCore.Plans as plans;

use event_body::{Event, digest_tree, number_tree, prefix_tree};
use json_tree::{Member, Tree};
use lists::Items;
use std::alloc::{AllocError, Global};

/// The anchors of an event that seals another one alone.
pub(crate) fn seal_anchor(alloc: Global, event: &Event) -> Result<Items<Tree>, AllocError>
    ensures seal { IfOk result (λ anchors. anchors ≡ plans.seal_of event.now ∷ []) }
    ensures json { IfOk result (AllByRecursion IsJson) }
{
    let mut anchors = Items::new(alloc);
    anchors.push(event_seal(alloc, event)?)?;
    Ok(anchors)
}

// The event seal of an event: an object of its identifier, its number and its digest (KERI, event seals).
#[tactic(auto, unfolding(crate::specs::ControllerCore::Plans::seal_of), using(crate::proofs::ControllerCoreLemmas::Seals::seal_json))]
fn event_seal(alloc: Global, event: &Event) -> Result<Tree, AllocError>
    ensures seal { IfOk result (λ seal. seal ≡ plans.seal_of event.now) }
    ensures json { IfOk result IsJson }
{
    let mut members = Items::new(alloc);
    push_member(
        alloc,
        &mut members,
        b'i',
        prefix_tree(alloc, &event.prefix())?,
    )?;
    push_member(alloc, &mut members, b's', number_tree(alloc, event.sn())?)?;
    push_member(
        alloc,
        &mut members,
        b'd',
        digest_tree(alloc, &event.said())?,
    )?;
    Ok(Tree::Object(members))
}

// Adds a member with a name of one letter.
fn push_member(
    alloc: Global,
    members: &mut Items<Member>,
    letter: u8,
    value: Tree,
) -> Result<(), AllocError>
    ensures { OnOk result (members.new ≡ members.old ++ record { name = letter ∷ []; value = value } ∷ []) }
{
    let name = Items::from_vec(vec![in alloc; letter]?);
    members.push(Member { name, value })?;
    Ok(())
}
