//! Messages that are judged and taken.
ghost use Rattle.std.specs.Prelude.{◌≡◌, IfOk, Ok, OnErr};
ghost use Rattle.validator_core.specs.ValidatorCore.MessageCalls.{LooksByMessage, TakesMessage};
ghost use Rattle.validator_core.specs.ValidatorCore.Messages.{JudgesMessage};

use crate::validator_core::Core;
use crate::validator_core::claims::claims_of;
use crate::validator_core::judgement::judge_message;
use cesr_stream::Message;
use event_body::Event;
use journal::Reply;
use keri_outside::Steps;
use std::alloc::AllocError;

impl Core {
    /// Takes a message: what is said of it, by the reader of a number. Of the waiting events it looks at those with the digest
    /// that the body names, and at those behind an event that it accepts.
    pub fn take(
        &mut self,
        reader: u16,
        message: &Message,
        steps: &mut Steps,
    ) -> Result<Reply, AllocError>
        ensures takes { IfOk result (λ reply. TakesMessage self.old reader message.now reply self.new) }
        ensures few { IfOk result (λ reply. LooksByMessage self.old message.now reply self.new steps.old steps.new) }
        ensures err { OnErr result (self.new ≡ self.old) }
    {
        let event = match judge_message(self.alloc, message)? {
            Ok(event) => event,
            Err(reason) => return Ok(Reply::Refused(reason)),
        };
        self.take_judged(reader, message, event, steps)
    }

    /// Takes a message that isn't refused, and has this event, which `judge_message` found. It looks at the waiting events as
    /// `take` does.
    pub fn take_judged(
        &mut self,
        reader: u16,
        message: &Message,
        event: Event,
        steps: &mut Steps,
    ) -> Result<Reply, AllocError>
        requires judged { JudgesMessage message.now (Ok event) }
        ensures takes { IfOk result (λ reply. TakesMessage self.old reader message.now reply self.new) }
        ensures few { IfOk result (λ reply. LooksByMessage self.old message.now reply self.new steps.old steps.new) }
        ensures err { OnErr result (self.new ≡ self.old) }
    {
        let claims = claims_of(self.alloc, message)?;
        self.take_event(reader, &message.body, event, claims, steps)
    }
}
