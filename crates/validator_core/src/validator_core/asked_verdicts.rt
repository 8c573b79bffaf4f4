//! Verdicts that are asked for and noted.
ghost use Rattle.std.specs.Prelude.{◌≡◌, ◌<◌, IfErr, IfOk, OnErr, OnOk};
ghost use Rattle.lists.specs.KeriSpecs.Causes.{Rose};
ghost use Rattle.validator_core.specs.ValidatorCore.Verdicts.{AsksAbout, IsFaultOf, IsOpen, IsSaid, Notes};
ghost use Rattle.validator_core.specs.ValidatorCore.View.{unheard_of};

use crate::validator_core::Core;
use journal::Question;
use keri_outside::{Failed, Steps, Verifier};
use std::alloc::AllocError;

/// Why no verdict on a question is noted.
#[derive(Clone, Copy, PartialEq, Eq, Debug)]
pub enum VerdictFault {
    /// The verifier failed.
    VerifierFault,
    /// There was no memory.
    OutOfMemory,
}

impl Core {
    /// Asks a verifier an open question, and notes what it says, as the first reader's. Of the waiting events it looks at those
    /// that `answer` looks at.
    pub fn ask<V: Verifier>(
        &mut self,
        verifier: &mut V,
        question: &Question,
        steps: &mut Steps,
    ) -> Result<bool, VerdictFault>
        requires { IsOpen self.old question.now }
        ensures said { IfOk result (IsSaid (V.says verifier.old) self.old question.now) }
        ensures noted { IfOk result (λ yes. Notes self.old question.now yes self.new) }
        ensures fewer { OnOk result (unheard_of self.new < unheard_of self.old) }
        ensures asked { AsksAbout (V.inquiries verifier.old) (V.inquiries verifier.new) self.old question.now result }
        ensures same { V.says verifier.new ≡ V.says verifier.old }
        ensures none_failed { OnOk result (V.faults verifier.new ≡ V.faults verifier.old) }
        ensures fault { IfErr result (IsFaultOf (V.faults verifier.old) (V.faults verifier.new)) }
        ensures err { OnErr result (self.new ≡ self.old) }
    {
        match self.verdict(verifier, question) {
            Ok(yes) => match self.note(question, yes, steps) {
                Ok(()) => Ok(yes),
                Err(AllocError) => Err(VerdictFault::OutOfMemory),
            },
            Err(Failed) => Err(VerdictFault::VerifierFault),
        }
    }

    // What the verifier says of a question.
    fn verdict<V: Verifier>(&self, verifier: &mut V, question: &Question) -> Result<bool, Failed>
        requires { IsOpen self.now question.now }
        ensures said { IfOk result (IsSaid (V.says verifier.old) self.now question.now) }
        ensures asked { AsksAbout (V.inquiries verifier.old) (V.inquiries verifier.new) self.now question.now result }
        ensures same { V.says verifier.new ≡ V.says verifier.old }
        ensures none_failed { OnOk result (V.faults verifier.new ≡ V.faults verifier.old) }
        ensures fault { OnErr result (Rose (V.faults verifier.old) (V.faults verifier.new)) }
    {
        let Some(body) = self.body(question.body) else {
            unreachable!()
        };
        verifier.ask(&question.key, body, &question.sig)
    }

    // Notes the verdict on an open question, which is open no more.
    fn note(&mut self, question: &Question, yes: bool, steps: &mut Steps) -> Result<(), AllocError>
        requires { IsOpen self.old question.now }
        ensures fewer { OnOk result (unheard_of self.new < unheard_of self.old) }
        ensures noted { OnOk result (Notes self.old question.now yes self.new) }
        ensures err { OnErr result (self.new ≡ self.old) }
    {
        match self.answer(0, question, yes, steps) {
            Ok(_) => Ok(()),
            Err(AllocError) => Err(AllocError),
        }
    }
}
