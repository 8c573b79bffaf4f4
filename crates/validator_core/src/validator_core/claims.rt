//! The claims of messages.
ghost use Rattle.std.specs.Prelude.{◌≡◌, ◌++◌, map, IfOk, OnOk};
ghost use Rattle.journal.specs.declared.journal.claim.Claim.TheVariants.{Controller, Witness, Couple as CoupleClaim};
ghost use Rattle.journal.specs.Journal.Replies as replies;

use cesr_codes::IndexedSig;
use cesr_stream::{Couple, Group, Message};
use journal::Claim;
use lists::Items;
use std::alloc::{AllocError, Global};

/// The claims of a message, in order.
pub fn claims_of(alloc: Global, message: &Message) -> Result<Items<Claim>, AllocError>
    ensures { IfOk result (λ claims. claims ≡ replies.claims_of message.now) }
{
    let mut claims = Items::new(alloc);
    for group in message.groups.as_slice() {
        add_group(&mut claims, group)?;
    }
    Ok(claims)
}

// Adds the claims of a group.
fn add_group(claims: &mut Items<Claim>, group: &Group) -> Result<(), AllocError>
    ensures { OnOk result (claims.new ≡ claims.old ++ replies.claims_of_group group.now) }
{
    match group {
        Group::Controller(sigs) => add_held(claims, sigs.as_slice()),
        Group::Witness(sigs) => add_witness(claims, sigs.as_slice()),
        Group::Couples(couples) => add_couples(claims, couples.as_slice()),
        Group::FirstSeen(_) | Group::Anchor(_) => Ok(()),
    }
}

fn add_held(claims: &mut Items<Claim>, sigs: &[IndexedSig]) -> Result<(), AllocError>
    ensures { OnOk result (claims.new ≡ claims.old ++ map (λ s. Controller s) sigs.now) }
{
    for sig in sigs {
        claims.push(Claim::Controller(*sig))?;
    }
    Ok(())
}

fn add_witness(claims: &mut Items<Claim>, sigs: &[IndexedSig]) -> Result<(), AllocError>
    ensures { OnOk result (claims.new ≡ claims.old ++ map (λ s. Witness s) sigs.now) }
{
    for sig in sigs {
        claims.push(Claim::Witness(*sig))?;
    }
    Ok(())
}

fn add_couples(claims: &mut Items<Claim>, couples: &[Couple]) -> Result<(), AllocError>
    ensures { OnOk result (claims.new ≡ claims.old ++ map (λ c. CoupleClaim c.key c.sig) couples.now) }
{
    for couple in couples {
        claims.push(Claim::Couple(couple.key, couple.sig))?;
    }
    Ok(())
}
