//! Bodies that are taken.
ghost use Rattle.std.specs.Prelude.{◌≡◌, ◌<◌, false, length, slice_get, IfOk, OnErr, Some, if◌then◌else◌};
ghost use Rattle.std.specs.List.{list_all, list_any};
ghost use Rattle.validator_core.specs.Acceptance.Standing.{IsHeld};
ghost use Rattle.validator_core.specs.Tables.View.{body_of, came_with};
ghost use Rattle.journal.specs.declared.journal.body.Body.{Body as BodyValue};
ghost use Rattle.journal.specs.declared.journal.reply.Reply.TheVariants.{Again, Taken};
ghost use Rattle.journal.specs.Journal.Logs.{is_in};
ghost use Rattle.journal.specs.Journal.Replies.{same_claim};
ghost use Rattle.validator_core.specs.ValidatorCore.Calls.{TakesBody};
ghost use Rattle.validator_core.specs.ValidatorCore.Looks.{LooksByReply};

use crate::tables::Tables;
use crate::validator_core::Core;
use crate::validator_core::whole_entries::{add_body, add_claims};
use event_body::Event;
use journal::{Body, Claim, Reply};
use json_tree::Text;
use keri_outside::Steps;
use lists::{Items, copy_items};
use std::alloc::AllocError;

impl Core {
    /// Takes a body, which spells the event, with its claims: what is said of it, by the reader of a number. Of the waiting
    /// events it looks at those with the digest that the body names, and at those behind an event that it accepts.
    pub fn take_event(
        &mut self,
        reader: u16,
        body: &Text,
        event: Event,
        claims: Items<Claim>,
        steps: &mut Steps,
    ) -> Result<Reply, AllocError>
        requires held { IsHeld (body_of body.now event) }
        ensures takes { IfOk result (λ reply. TakesBody self.old reader (body_of body.now event) claims reply self.new) }
        ensures few { IfOk result (λ reply. LooksByReply self.old (body_of body.now event) reply self.new
            steps.old steps.new) }
        ensures err { OnErr result (self.new ≡ self.old) }
    {
        match self.tables.number_of(body.as_slice(), &event) {
            Some(number) => {
                drop(event);
                self.take_claims(reader, number, claims, steps)
            }
            None => self.take_body(reader, body, event, claims, steps),
        }
    }

    // Takes claims on the body of a number.
    fn take_claims(
        &mut self,
        reader: u16,
        number: u32,
        claims: Items<Claim>,
        steps: &mut Steps,
    ) -> Result<Reply, AllocError>
        requires held { number < length self.old.held }
        ensures takes { IfOk result (λ reply. (b : BodyValue) → slice_get self.old.held number ≡ Some b
            → TakesBody self.old reader b claims reply self.new) }
        ensures few { IfOk result (λ reply. (b : BodyValue) → slice_get self.old.held number ≡ Some b
            → LooksByReply self.old b reply self.new steps.old steps.new) }
        ensures err { OnErr result (self.new ≡ self.old) }
    {
        let count = claims.len();
        if self.tally.is_spent(self.limits, count) {
            return Ok(Reply::LimitReached);
        }
        let again = have_come(&self.tables, number, claims.as_slice());
        add_claims(
            self.alloc,
            &mut self.tables,
            self.mode,
            reader,
            number,
            claims,
            steps,
        )?;
        self.tally = self.tally.with(0, count);
        Ok(reply_by(again))
    }

    // Takes a body that isn't held, with its claims.
    fn take_body(
        &mut self,
        reader: u16,
        body: &Text,
        event: Event,
        claims: Items<Claim>,
        steps: &mut Steps,
    ) -> Result<Reply, AllocError>
        requires held { IsHeld (body_of body.now event) }
        requires outside { is_in self.old.held (body_of body.now event) ≡ false }
        ensures takes { IfOk result (λ reply. TakesBody self.old reader (body_of body.now event) claims reply self.new) }
        ensures few { IfOk result (λ reply. LooksByReply self.old (body_of body.now event) reply self.new
            steps.old steps.new) }
        ensures err { OnErr result (self.new ≡ self.old) }
    {
        let count = claims.len();
        let size = body.len();
        if self.tally.lacks_room(self.limits, size, count) {
            drop(event);
            return Ok(Reply::LimitReached);
        }
        let Ok(bytes) = copy_items(body, self.alloc) else {
            drop(event);
            return Err(AllocError);
        };
        add_body(
            self.alloc,
            &mut self.tables,
            self.mode,
            reader,
            Body { bytes, event },
            claims,
            steps,
        )?;
        self.tally = self.tally.with(size, count);
        Ok(Reply::Taken)
    }
}

// The reply to a body that is held.
fn reply_by(again: bool) -> Reply
    ensures { result ≡ (if again then Again else Taken) }
{
    if again { Reply::Again } else { Reply::Taken }
}

// Whether each of the claims came with the body of a number.
fn have_come(tables: &Tables, number: u32, claims: &[Claim]) -> bool
    ensures { result ≡ list_all (λ c. list_any (same_claim c) (came_with number tables.now.entries)) claims.now }
{
    claims.iter().all(|claim| tables.has_come(number, claim))
}
