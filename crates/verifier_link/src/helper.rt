//! Helpers.

use crate::Link;
use cesr_codes::{Key, Sig};
use keri_outside::{Failed, Rehearsal, Signer, Sink, Source, Verifier};

/// What gives verdicts and signatures. The rehearsal tells those that it gives, and a program doesn't; of the bytes that a
/// program is asked and answers `ask` and `sign` say what a link's do.
#[derive(Drop)]
pub enum Helper<S, K, P> {
    /// The rehearsal.
    Rehearsal(Rehearsal),
    /// A program, asked over a link, and the process in which it runs, which is let go behind the link.
    Program(Link<S, K>, P),
}

impl<S: Source, K: Sink, P> Verifier for Helper<S, K, P> {
    ghost use Rattle.std.specs.Prelude.{◌≡◌, ◌≤◌, IfOk, IfSome, None, length};
    ghost use Rattle.lists.specs.KeriSpecs.Causes.{HasCause};
    ghost use Rattle.keri_outside.specs.Rehearsal.{is_rehearsed};
    ghost use Rattle.verifier_link.specs.Answers.{SaysVerdict};
    ghost use Rattle.verifier_link.specs.Helpers.{IsAnswered, helper_faults, helper_says, helper_shown};
    ghost use Rattle.verifier_link.specs.Questions.{verdict_question};

    ghost says = { helper_says };

    ghost inquiries = { λ _. None };

    ghost faults = { helper_faults };

    fn ask(&mut self, key: &Key, body: &[u8], sig: &Sig) -> Result<bool, Failed>
        requires { length body.now ≤ 65535 }

        // It is the rehearsal's verdict, or the program's, which was asked for over the link.
        ensures answered { IsAnswered SaysVerdict (is_rehearsed key.now body.now sig.now)
            (verdict_question key.now body.now sig.now) (helper_shown S.left S.faults K.written K.faults self.old)
            (helper_shown S.left S.faults K.written K.faults self.new) result }
        ensures verdict { IfOk result (λ yes. IfSome (helper_says self.old key.now body.now sig.now)
            (λ told. yes ≡ told)) }
        ensures same { helper_says self.new ≡ helper_says self.old }
        ensures cause { HasCause (helper_faults self.old) (helper_faults self.new) result }
    {
        match self {
            Helper::Rehearsal(rehearsal) => rehearsal.ask(key, body, sig),
            Helper::Program(link, _) => link.ask(key, body, sig),
        }
    }
}

impl<S: Source, K: Sink, P> Signer for Helper<S, K, P> {
    ghost use Rattle.std.specs.Prelude.{◌≡◌, ◌≤◌, IfOk, IfSome, None, length};
    ghost use Rattle.lists.specs.KeriSpecs.Causes.{HasCause};
    ghost use Rattle.keri_outside.specs.Rehearsal.{rehearsed};
    ghost use Rattle.verifier_link.specs.Answers.{SaysSig};
    ghost use Rattle.verifier_link.specs.Helpers.{IsAnswered, helper_faults, helper_gives, helper_shown};
    ghost use Rattle.verifier_link.specs.Questions.{signing_question};

    ghost gives = { helper_gives };

    ghost signings = { λ _. None };

    ghost faults = { helper_faults };

    fn sign(&mut self, key: &Key, body: &[u8]) -> Result<Sig, Failed>
        requires { length body.now ≤ 65535 }

        // It is the rehearsal's signature, or the program's, which was asked for over the link.
        ensures answered { IsAnswered SaysSig (rehearsed key.now body.now) (signing_question key.now body.now)
            (helper_shown S.left S.faults K.written K.faults self.old)
            (helper_shown S.left S.faults K.written K.faults self.new) result }
        ensures signature { IfOk result (λ sig. IfSome (helper_gives self.old key.now body.now) (λ told. sig ≡ told)) }
        ensures same { helper_gives self.new ≡ helper_gives self.old }
        ensures cause { HasCause (helper_faults self.old) (helper_faults self.new) result }
    {
        match self {
            Helper::Rehearsal(rehearsal) => rehearsal.sign(key, body),
            Helper::Program(link, _) => link.sign(key, body),
        }
    }
}
