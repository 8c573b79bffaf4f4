//! A link to a helper.
ghost use Rattle.std.specs.Prelude.{◌≡◌};

use crate::Wanted;
use crate::field::read_field;
use crate::question::put_question;
use cesr_codes::{Key, Sig, of_text};
use keri_outside::{Failed, Signer, Sink, Source, Verifier};

/// A verifier and a signer that asks a helper: questions go to the sink, and answers come from the source. It doesn't tell
/// what it says or was asked; beside what each verifier and each signer promises, `ask` and `sign` say of the bytes what was put and
/// read. Once a link has failed it is out of step with the helper, so then it fails without asking.
#[derive(Drop)]
pub struct Link<S, K> {
    source: S,
    sink: K,
    faults: u64,
}

impl<S: Source, K: Sink> Link<S, K> {
    ghost use Rattle.std.specs.Prelude.{◌+◌, ◌-◌, ◌^◌, ◌≤◌, min, length, OnOk, IfErr};
    ghost use Rattle.lists.specs.KeriSpecs.Causes.{HasCause};
    ghost use Rattle.verifier_link.specs.Questions.{question};
    ghost use Rattle.verifier_link.specs.Exchanges.{Fetches};
    ghost use Rattle.verifier_link.specs.Sides.{link_faults, link_shown};
    ghost use Rattle.keri_outside.specs.Shown.{source_shown, sink_shown};

    /// A link that wasn't asked yet.
    pub fn new(source: S, sink: K) -> Link<S, K>
        ensures { link_shown S.left S.faults K.written K.faults result
            ≡ record {
              source = source_shown S.left S.faults source;
              sink = sink_shown K.written K.faults sink;
              faults = 0;
            } }
    {
        Link {
            source,
            sink,
            faults: 0,
        }
    }

    // Puts a question and reads the bytes of its answer.
    fn fetch(&mut self, wanted: &Wanted, body: &[u8], answer: &mut [u8]) -> Result<(), Failed>
        requires { length body.now ≤ 65535 }
        ensures fetches { Fetches (question wanted.now body.now)
            (link_shown S.left S.faults K.written K.faults self.old)
            (link_shown S.left S.faults K.written K.faults self.new) answer.new result }
        ensures size { length answer.new ≡ length answer.old }
        ensures cause { HasCause (link_faults self.old) (link_faults self.new) result }
    {
        if self.faults > 0 {
            return Err(self.fail());
        }
        if put_question(&mut self.sink, wanted, body).is_err() {
            return Err(self.fail());
        }
        if read_field(&mut self.source, answer).is_err() {
            return Err(self.fail());
        }
        Ok(())
    }

    // Counts a failure.
    fn fail(&mut self) -> Failed
        ensures { self.new ≡ record self.old { faults = min (self.old.faults + 1) (2 ^ 64 - 1) } }
    {
        self.faults = self.faults.saturating_add(1);
        Failed
    }
}

impl<S: Source, K: Sink> Verifier for Link<S, K> {
    ghost use Rattle.std.specs.Prelude.{◌≤◌, None, length};
    ghost use Rattle.lists.specs.KeriSpecs.Causes.{HasCause};
    ghost use Rattle.verifier_link.specs.Answers.{SaysVerdict};
    ghost use Rattle.verifier_link.specs.Exchanges.{Exchanges};
    ghost use Rattle.verifier_link.specs.Questions.{verdict_question};
    ghost use Rattle.verifier_link.specs.Sides.{link_faults, link_shown};

    ghost says = { λ _ _ _ _. None };

    ghost inquiries = { λ _. None };

    ghost faults = { link_faults };

    fn ask(&mut self, key: &Key, body: &[u8], sig: &Sig) -> Result<bool, Failed>
        requires { length body.now ≤ 65535 }

        // The question was put and the bytes read say the verdict, or a fault came.
        ensures exchanges { Exchanges SaysVerdict (verdict_question key.now body.now sig.now)
            (link_shown S.left S.faults K.written K.faults self.old)
            (link_shown S.left S.faults K.written K.faults self.new) result }
        ensures cause { HasCause (link_faults self.old) (link_faults self.new) result }
    {
        let mut answer = [0u8; 1];
        self.fetch(&Wanted::Verdict(*key, *sig), body, &mut answer)?;
        match answer {
            [b'Y'] => Ok(true),
            [b'N'] => Ok(false),
            _ => Err(self.fail()),
        }
    }
}

impl<S: Source, K: Sink> Signer for Link<S, K> {
    ghost use Rattle.std.specs.Prelude.{◌≤◌, None, length};
    ghost use Rattle.lists.specs.KeriSpecs.Causes.{HasCause};
    ghost use Rattle.verifier_link.specs.Answers.{SaysSig};
    ghost use Rattle.verifier_link.specs.Exchanges.{Exchanges};
    ghost use Rattle.verifier_link.specs.Questions.{signing_question};
    ghost use Rattle.verifier_link.specs.Sides.{link_faults, link_shown};

    ghost gives = { λ _ _ _. None };

    ghost signings = { λ _. None };

    ghost faults = { link_faults };

    fn sign(&mut self, key: &Key, body: &[u8]) -> Result<Sig, Failed>
        requires { length body.now ≤ 65535 }

        // The question was put and the bytes read are the signature, or a fault came.
        ensures exchanges { Exchanges SaysSig (signing_question key.now body.now)
            (link_shown S.left S.faults K.written K.faults self.old)
            (link_shown S.left S.faults K.written K.faults self.new) result }
        ensures cause { HasCause (link_faults self.old) (link_faults self.new) result }
    {
        let mut answer = [0u8; 88];
        self.fetch(&Wanted::Signature(*key), body, &mut answer)?;
        match of_text::<Sig>(&answer) {
            Some(sig) => Ok(sig),
            None => Err(self.fail()),
        }
    }
}
