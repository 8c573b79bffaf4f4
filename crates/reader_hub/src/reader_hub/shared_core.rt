//! The core under the lock: it stands for what it was told.
ghost use Rattle.std.specs.Prelude.{◌≡◌, [], IfOk, IsSome, OnErr, Some, option_map, slice_get};
ghost use Rattle.journal.specs.Journal.Accepted.{accepted};
ghost use Rattle.journal.specs.Journal.History.{bodies};
ghost use Rattle.journal.specs.Journal.Journals.{AnswersOn, Names};
ghost use Rattle.journal.specs.Journal.Logs.{state};
ghost use Rattle.journal.specs.Journal.Questions.{next_question};
ghost use Rattle.validator_core.specs.ValidatorCore.Messages.{JudgesMessage};
ghost use Rattle.validator_core.specs.ValidatorCore.View.{told_of};
ghost use Rattle.reader_hub.specs.declared.reader_hub.extent.Extent.TheVariants.{First, All as Every};
ghost use Rattle.reader_hub.specs.ReaderHub.Hubs.{HasBytes, IsAsked, TakesOver};

use crate::reader_hub::handed_out::HandedOut;
use crate::reader_hub::{Asked, CoreHead, Extent, Telling};
use cesr_codes::Prefix;
use cesr_stream::Message;
use event_body::Event;
use journal::{Noted, Question, Reason, Reply};
use keri_outside::Steps;
use key_state::KeyState;
use lists::CopyValue;
use std::alloc::{AllocError, Global};
use turn_lock::Replayed;
use validator_core::Core;

/// A core that began with nothing.
#[derive(Drop)]
pub struct SharedCore {
    pub(crate) core: Core,
    pub(crate) handed: HandedOut,
    ghost no_base: { core.base ≡ 0 },
}

impl Replayed for SharedCore {
    ghost use Rattle.journal.specs.Journal.Feeds.{reader_of};
    ghost use Rattle.validator_core.specs.ValidatorCore.View.{told_of};
    ghost use Rattle.reader_hub.specs.ReaderHub.Hubs.{head_of};

    type Entry = Telling;

    type Head = CoreHead;

    ghost entries = { λ s. told_of s.core };

    ghost head = { λ s. head_of s.core };

    ghost names = { reader_of };

    fn count(&self) -> u64 {
        self.core.journal().entries.len() as u64
    }
}

impl SharedCore {
    ghost use Rattle.reader_hub.specs.ReaderHub.Hubs.{head_of};

    /// Takes a message that was judged so: where it is refused, nothing is told.
    pub(crate) fn take(
        &mut self,
        reader: u16,
        message: &Message,
        judged: Result<Event, Reason>,
    ) -> Result<Reply, AllocError>
        requires judged { JudgesMessage message.now judged }
        ensures head { head_of self.new.core ≡ head_of self.old.core }
        ensures takes { IfOk result (λ reply. TakesOver self.old.core.limits (told_of self.old.core) reader message.now
            reply (told_of self.new.core)) }
        ensures err { OnErr result (told_of self.new.core ≡ told_of self.old.core) }
    {
        let event = match judged {
            Ok(event) => event,
            Err(reason) => return Ok(Reply::Refused(reason)),
        };
        let mut steps = Steps::new();
        let reply = self.core.take_judged(reader, message, event, &mut steps)?;
        Ok(reply)
    }

    /// An open question, with a copy of its body, which the reader is handed: the first one, where that is asked for; else
    /// one that no reader was handed, where one is found among the first, and else, where all are asked for, any. None
    /// where there is none to that extent.
    pub(crate) fn ask(
        &mut self,
        alloc: Global,
        reader: u16,
        extent: Extent,
    ) -> Result<Option<Asked>, AllocError>
        ensures head { head_of self.new.core ≡ head_of self.old.core }
        ensures same { told_of self.new.core ≡ told_of self.old.core }
        ensures asks { IfOk result (λ answer. IsAsked self.old.core.mode (told_of self.old.core) answer extent) }
    {
        self.handed.take_back(reader);
        let Some(skip) = self.next_place(reader, extent) else {
            return Ok(None);
        };
        let answer = self.question(alloc, skip)?;
        if let Some(Asked { question, .. }) = &answer {
            self.handed.hand(reader, *question)?;
        }
        Ok(answer)
    }

    // The number of the open question that a reader is handed, or of none where none is open.
    fn next_place(&self, reader: u16, extent: Extent) -> Option<u32>
        ensures first { extent ≡ First → result ≡ Some 0 }
        ensures all { extent ≡ Every → IsSome result }
    {
        match extent {
            Extent::First => Some(0),
            Extent::Free => self.free_place(),
            Extent::All => match self.free_place() {
                Some(skip) => Some(skip),
                None => Some(u32::from(reader)),
            },
        }
    }

    // The number of an open question that no reader was handed, or of none where none is open. As many are looked at as
    // were handed out, and one more, the last of these first: those before it are mostly the ones that were handed out.
    fn free_place(&self) -> Option<u32> {
        let count = self.handed.count();
        for tried in 0..count.saturating_add(1) {
            let skip = count.saturating_sub(tried);
            match self.core.next_question(skip) {
                Some(question) if self.handed.has(&question) => {}
                _ => return Some(skip),
            }
        }
        None
    }

    // The open question of a number modulo their count, with a copy of its body.
    fn question(&self, alloc: Global, skip: u32) -> Result<Option<Asked>, AllocError>
        ensures names { IfOk result (λ answer. Names (bodies [] (told_of self.now.core))
            (option_map (λ a. a.question) answer) (next_question self.now.core.mode [] (told_of self.now.core) skip)) }
        ensures bytes { IfOk result (λ answer. HasBytes (bodies [] (told_of self.now.core)) answer) }
    {
        self.core.sound();
        let Some(question) = self.core.next_question(skip) else {
            return Ok(None);
        };
        let Some(body) = self.core.body(question.body) else {
            unreachable!()
        };
        let bytes = Vec::from_slice(alloc, body)?;
        Ok(Some(Asked { question, bytes }))
    }

    /// Notes a verdict of a reader on a question, which it was handed, if any.
    pub(crate) fn answer(
        &mut self,
        reader: u16,
        question: &Question,
        yes: bool,
    ) -> Result<Noted, AllocError>
        ensures head { head_of self.new.core ≡ head_of self.old.core }
        ensures answers { IfOk result (λ noted. AnswersOn self.old.core.mode [] (told_of self.old.core) reader
            (slice_get (bodies [] (told_of self.old.core)) question.now.body) question.now yes noted
            (told_of self.new.core)) }
        ensures err { OnErr result (told_of self.new.core ≡ told_of self.old.core) }
    {
        self.core.sound();
        let mut steps = Steps::new();
        let noted = self.core.answer(reader, question, yes, &mut steps)?;
        self.handed.take_back(reader);
        Ok(noted)
    }

    /// A copy of the state of an identifier, where it has an accepted event.
    pub(crate) fn state_of(
        &self,
        alloc: Global,
        prefix: &Prefix,
    ) -> Result<Option<KeyState>, AllocError>
        ensures { IfOk result (λ found. found
            ≡ state (accepted self.now.core.mode [] (told_of self.now.core)) prefix.now) }
    {
        match self.core.state(prefix) {
            Some(state) => Ok(Some(state.copy(alloc)?)),
            None => Ok(None),
        }
    }
}
