//! Verifiers in memory.
ghost use Rattle.std.specs.Prelude.{◌≡◌, ◌∷◌, [], Some};

use crate::{Failed, Inquiry, VerdictRule, Verifier};
use cesr_codes::{Key, Sig};
use lists::Items;
use std::alloc::{AllocError, Global};

/// A verifier in memory, which tells all.
#[derive(Drop)]
pub struct MemVerifier {
    alloc: Global,
    rule: VerdictRule,
    inquiries: Items<Inquiry>,
    failing: Items<u64>,
    calls: u64,
    faults: u64,
}

impl MemVerifier {
    ghost use Rattle.std.specs.Prelude.{◌++◌, OnErr, OnOk};
    ghost use Rattle.keri_outside.specs.Asked.{inquiry};
    ghost use Rattle.keri_outside.specs.Memory.{verifier_says, verifier_faults, verifier_failing, verifier_inquiries};
    ghost use Rattle.keri_outside.specs.Verdicts.{told_verdict};

    /// A verifier by the rule that wasn't asked yet. Its asks of the numbers in `failing`, counted from 0, fail, and so
    /// does one for which there is no memory.
    pub fn new(alloc: Global, rule: VerdictRule, failing: Items<u64>) -> MemVerifier
        ensures says { verifier_says result ≡ told_verdict rule }
        ensures inquiries { verifier_inquiries result ≡ Some [] }
        ensures faults { verifier_faults result ≡ 0 }
        ensures failing { verifier_failing result ≡ failing }
    {
        MemVerifier {
            alloc,
            rule,
            inquiries: Items::new(alloc),
            failing,
            calls: 0,
            faults: 0,
        }
    }

    // Keeps what is asked.
    fn keep(&mut self, key: &Key, body: &[u8], sig: &Sig) -> Result<(), AllocError>
        ensures kept { OnOk result (self.new.inquiries ≡ self.old.inquiries ++ inquiry key.now body.now sig.now ∷ []) }
        ensures not_kept { OnErr result (self.new.inquiries ≡ self.old.inquiries) }
        ensures faults { self.new.faults ≡ self.old.faults }
        ensures rule { self.new.rule ≡ self.old.rule }
    {
        let body = Items::from_vec(Vec::from_slice(self.alloc, body)?);
        self.inquiries.push(Inquiry {
            key: *key,
            body,
            sig: *sig,
        })?;
        Ok(())
    }
}

impl Verifier for MemVerifier {
    ghost use Rattle.keri_outside.specs.Memory.{verifier_says, verifier_faults, verifier_inquiries};

    ghost says = { verifier_says };

    ghost inquiries = { verifier_inquiries };

    ghost faults = { verifier_faults };

    fn ask(&mut self, key: &Key, body: &[u8], sig: &Sig) -> Result<bool, Failed> {
        let call = self.calls;
        self.calls = self.calls.saturating_add(1);
        if self.failing.as_slice().contains(&call) || self.keep(key, body, sig).is_err() {
            self.faults = self.faults.saturating_add(1);
            return Err(Failed);
        }
        Ok(self.rule.verdict(key, body, sig))
    }
}
