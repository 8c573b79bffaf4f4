//! Signers in memory.
ghost use Rattle.std.specs.Prelude.{◌≡◌, ◌∷◌, [], Some};

use crate::rehearsal::rehearse;
use crate::{Failed, Signer, Signing};
use cesr_codes::{Key, Sig};
use lists::Items;
use std::alloc::{AllocError, Global};

/// A signer in memory, which gives the rehearsal's signatures and tells all.
#[derive(Drop)]
pub struct MemSigner {
    alloc: Global,
    signings: Items<Signing>,
    failing: Items<u64>,
    calls: u64,
    faults: u64,
}

impl MemSigner {
    ghost use Rattle.std.specs.Prelude.{◌++◌, OnErr, OnOk};
    ghost use Rattle.keri_outside.specs.Asked.{signing};
    ghost use Rattle.keri_outside.specs.Memory.{signer_faults, signer_failing, signer_signings};

    /// A signer that wasn't asked yet. Its signings of the numbers in `failing`, counted from 0, fail, and so does one
    /// for which there is no memory.
    pub fn new(alloc: Global, failing: Items<u64>) -> MemSigner
        ensures signings { signer_signings result ≡ Some [] }
        ensures faults { signer_faults result ≡ 0 }
        ensures failing { signer_failing result ≡ failing }
    {
        MemSigner {
            alloc,
            signings: Items::new(alloc),
            failing,
            calls: 0,
            faults: 0,
        }
    }

    // Keeps what is asked.
    fn keep(&mut self, key: &Key, body: &[u8]) -> Result<(), AllocError>
        ensures kept { OnOk result (self.new.signings ≡ self.old.signings ++ signing key.now body.now ∷ []) }
        ensures not_kept { OnErr result (self.new.signings ≡ self.old.signings) }
        ensures same { self.new.faults ≡ self.old.faults }
    {
        let body = Items::from_vec(Vec::from_slice(self.alloc, body)?);
        self.signings.push(Signing { key: *key, body })?;
        Ok(())
    }
}

impl Signer for MemSigner {
    ghost use Rattle.keri_outside.specs.Memory.{signer_gives, signer_faults, signer_signings};

    ghost gives = { signer_gives };

    ghost signings = { signer_signings };

    ghost faults = { signer_faults };

    fn sign(&mut self, key: &Key, body: &[u8]) -> Result<Sig, Failed> {
        let call = self.calls;
        self.calls = self.calls.saturating_add(1);
        if self.failing.as_slice().contains(&call) || self.keep(key, body).is_err() {
            self.faults = self.faults.saturating_add(1);
            return Err(Failed);
        }
        Ok(rehearse(key, body))
    }
}
