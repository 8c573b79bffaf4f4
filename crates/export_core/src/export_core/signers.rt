//! Who signs an event.
ghost use Rattle.std.specs.Prelude.{◌≡◌, IfOk};
ghost use Rattle.std.specs.Option.{option_copied};
ghost use Rattle.export_core.specs.ExportCore.Signers.{keys_behind, own_signers, rules_by, signers_in};
ghost use Rattle.journal.specs.Journal.History as history;

use cesr_codes::Key;
use event_body::Event;
use journal::Claim;
use key_state::{has_key, list_behind};
use lists::{Items, copy_items};
use std::alloc::{AllocError, Global};

/// The keys that sign an event, and its witnesses.
#[derive(Drop)]
pub(crate) struct Signers {
    pub(crate) keys: Items<Key>,
    pub(crate) witnesses: Items<Key>,
}

impl Signers {
    /// Those of an event behind another of its identifier, where there is one.
    pub(crate) fn behind(
        alloc: Global,
        before: Option<&Signers>,
        event: &Event,
    ) -> Result<Signers, AllocError>
        ensures { IfOk result (λ own. own ≡ own_signers (signers_in (option_copied before.entry)) event.now) }
    {
        let keys = keys_behind(alloc, keys_in(before), event)?;
        let witnesses = list_behind(alloc, witnesses_in(before), event)?;
        Ok(Signers { keys, witnesses })
    }

    /// The key of a claim on the event: that of its index among the keys or the witnesses, or its own where it is a witness.
    pub(crate) fn claimed_key(&self, claim: &Claim) -> Option<Key>
        ensures { result ≡ history.claimed_key (rules_by self.now) claim.now }
    {
        match claim {
            Claim::Controller(sig) => self.keys.as_slice().get(usize::from(sig.index)).copied(),
            Claim::Witness(sig) => self
                .witnesses
                .as_slice()
                .get(usize::from(sig.index))
                .copied(),
            Claim::Couple(key, _) => {
                if has_key(self.witnesses.as_slice(), key) {
                    Some(*key)
                } else {
                    None
                }
            }
        }
    }
}

// The keys behind an event, where these are before it.
fn keys_behind(alloc: Global, before: &[Key], event: &Event) -> Result<Items<Key>, AllocError>
    ensures { IfOk result (λ keys. keys ≡ keys_behind before.now event.now) }
{
    match event {
        Event::Icp(event) | Event::Dip(event) => copy_items(&event.keys, alloc),
        Event::Rot(event) | Event::Drt(event) => copy_items(&event.keys, alloc),
        Event::Ixn(_) | Event::Rct(_) => Ok(Items::from_vec(Vec::from_slice(alloc, before)?)),
    }
}

// The keys, where there are some.
fn keys_in(before: Option<&Signers>) -> &[Key]
    ensures { result.now ≡ (signers_in (option_copied before.entry)).keys }
{
    match before {
        Some(signers) => signers.keys.as_slice(),
        None => &[],
    }
}

// The witnesses, where there are some.
fn witnesses_in(before: Option<&Signers>) -> &[Key]
    ensures { result.now ≡ (signers_in (option_copied before.entry)).witnesses }
{
    match before {
        Some(signers) => signers.witnesses.as_slice(),
        None => &[],
    }
}
