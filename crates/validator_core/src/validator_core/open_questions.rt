//! Questions, and the verdicts that are noted.
ghost use Rattle.std.specs.Prelude.{◌≡◌, ◌<◌, ℕ, None, Some, IfOk, OnErr, if◌then◌else◌, slice_get};
ghost use Rattle.std.specs.Option.{option_map};
ghost use Rattle.claim_table.specs.ClaimTable.Rows.{is_raised, open_rows, verdict_of};
ghost use Rattle.claim_table.specs.ClaimTable.Table.{AreBelow};
ghost use Rattle.journal.specs.declared.journal.question.Noted.TheVariants.{New};
ghost use Rattle.journal.specs.Journal.Journals.{Names};
ghost use Rattle.journal.specs.Journal.Questions.{next_question};
ghost use Rattle.validator_core.specs.TableChanges.Entries.{signature_asked};
ghost use Rattle.validator_core.specs.ValidatorCore.Calls.{TakesVerdict, question_of};
ghost use Rattle.validator_core.specs.ValidatorCore.Looks.{LooksByVerdict};
ghost use Rattle.validator_core.specs.ValidatorCore.View.{base_of, told_of, unheard_of};

use crate::tables::Tables;
use crate::validator_core::Core;
use crate::validator_core::whole_entries::add_verdict;
use claim_table::{ClaimTable, Signature};
use journal::{Noted, Question};
use keri_outside::Steps;
use std::alloc::AllocError;

impl Core {
    /// The open question of a number modulo their count, or none where none is open. It takes no memory.
    pub fn next_question(&self, skip: u32) -> Option<Question>
        ensures { Names self.now.held result (next_question self.now.mode (base_of self.now) (told_of self.now) skip) }
    {
        let claims = self.tables.claims();
        let count = claims.open_count();
        if count == 0 {
            return None;
        }
        question_at(claims, skip as usize % count)
    }

    /// Notes what the verifier of a reader says of a question. Of the waiting events it looks at those with the digest of the
    /// question's body, and at those behind an event that it accepts.
    pub fn answer(
        &mut self,
        reader: u16,
        question: &Question,
        yes: bool,
        steps: &mut Steps,
    ) -> Result<Noted, AllocError>
        ensures answers { IfOk result (λ noted. TakesVerdict self.old reader question.now yes noted self.new) }
        ensures fewer { IfOk result (λ noted. noted ≡ New → unheard_of self.new < unheard_of self.old) }
        ensures few { IfOk result (λ noted. LooksByVerdict self.old question.now noted self.new steps.old steps.new) }
        ensures err { OnErr result (self.new ≡ self.old) }
    {
        match verdict_on(&self.tables, question) {
            None => Ok(Noted::Unasked),
            Some(Some(_)) => Ok(Noted::Known),
            Some(None) => {
                add_verdict(
                    self.alloc,
                    &mut self.tables,
                    self.mode,
                    reader,
                    question,
                    yes,
                    steps,
                )?;
                Ok(Noted::New)
            }
        }
    }
}

// The open question of a number.
fn question_at(claims: &ClaimTable, place: usize) -> Option<Question>
    requires { claims.now.pending ≡ None }
    ensures { (bodies : ℕ) → AreBelow bodies claims.now.rows
        → result ≡ option_map question_of (slice_get (open_rows bodies claims.now.rows) place) }
{
    let signature = claims.open_question(place)?;
    Some(Question {
        body: signature.body,
        key: signature.key,
        sig: signature.sig,
    })
}

// The verdict on the signature that a question names, where the signature is raised.
fn verdict_on(tables: &Tables, question: &Question) -> Option<Option<bool>>
    ensures { result ≡ (if is_raised tables.now.claims.rows (signature_asked question.now) then Some
        (verdict_of tables.now.claims.rows (signature_asked question.now)) else None) }
{
    let signature = Signature {
        body: question.body,
        key: question.key,
        sig: question.sig,
    };
    tables.claims().verdict(&signature)
}
