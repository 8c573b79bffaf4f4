//! The hub: a core under a lock.
ghost use Rattle.std.specs.Prelude.{◌≡◌, ◌<◌, ◌≤◌, ◌^◌, [], ◌∷◌, map, IfOk, IfErr, IsOk};
ghost use Rattle.std.specs.List.{AllByRecursion};
ghost use Rattle.journal.specs.Journal.Feeds.{reader_of};
ghost use Rattle.turn_lock.specs.Known.{first_pass, after_split, split_from};
ghost use Rattle.validator_core.specs.ValidatorCore.View.{told_of};
ghost use Rattle.reader_hub.specs.ReaderHub.Hubs.{TakesAt, AsksAt, AnswersAt, StateAt, Stops, head_of};
ghost use Rattle.reader_hub.specs.ReaderHub.Closing.{AreAll, ClosesAll};

use crate::reader_hub::handed_out::HandedOut;
use crate::reader_hub::{Asked, Extent, HubFault, Pass, SharedCore};
use cesr_codes::Prefix;
use cesr_stream::Message;
use journal::{Noted, Question, Reply};
use key_state::KeyState;
use std::alloc::{AllocError, Global};
use std::sync::Wait;
use turn_lock::{Spent, Turn};
use validator_core::{Core, judge_message};

/// A core that several readers share. Each call that is given `rt` waits for its turn, and takes one; it takes none
/// where all turns were taken, or where there is no memory to judge a message. What it answers is the core's answer over
/// what the core was told by then, and that begins with all that the pass has seen.
#[derive(Drop)]
pub struct Hub {
    turn: Turn<SharedCore>,
}

impl Hub {
    ghost use Rattle.turn_lock.specs.Locks.{limit_of, known, IsPassOf};

    /// A hub over a core that was told nothing, for so many turns, and its first pass, whose number is 0.
    pub fn new(alloc: Global, core: Core, turns: u64) -> Result<(Hub, Pass), AllocError>
        requires untold { told_of core ≡ [] }
        requires no_base { core.base ≡ 0 }
        requires limit { turns ≤ 2 ^ 62 }
        ensures pass { IfOk result (λ h. IsPassOf h.0.turn h.1) }
        ensures limit { IfOk result (λ h. limit_of h.0.turn ≡ turns) }
        ensures first { IfOk result (λ h. known h.1 ≡ first_pass (head_of core)) }
    {
        let handed = HandedOut::new(alloc);
        let (turn, pass) = Turn::new(alloc, SharedCore { core, handed }, turns)?;
        Ok((Hub { turn }, pass))
    }

    /// A further pass, split from the first one, with the next number. It takes no memory.
    pub fn split(&self, pass: &mut Pass) -> Result<Pass, AllocError>
        requires pass { IsPassOf self.now.turn pass.old }
        requires first { (known pass.old).number ≡ 0 }
        requires room { (known pass.old).splits < 65535 }
        ensures pass { IsPassOf self.now.turn pass.new }
        ensures succeeds { IsOk result }
        ensures split { known pass.new ≡ after_split (known pass.old) }
        ensures given { IfOk result (λ p. IsPassOf self.now.turn p) }
        ensures knows { IfOk result (λ p. known p ≡ split_from (known pass.old)) }
    {
        self.turn.split(pass)
    }

    /// Takes a message, as the reader of the pass. It is judged before the turn, so that readers judge theirs side by
    /// side. One that is refused takes a turn too, and tells nothing. Nor is one told for which the journal has no room:
    /// its reply is `LimitReached`.
    pub fn take<W: Wait>(
        &self,
        rt: &W,
        alloc: Global,
        pass: &mut Pass,
        message: &Message,
    ) -> Result<Reply, HubFault>
        requires pass { IsPassOf self.now.turn pass.old }
        ensures pass { IsPassOf self.now.turn pass.new }
        ensures takes { IfOk result (λ reply. TakesAt (limit_of self.now.turn) (known pass.old) message.now reply
            (known pass.new)) }
        ensures stops { IfErr result (λ fault. Stops (limit_of self.now.turn) (known pass.old) fault (known pass.new)) }
    {
        let Ok(judged) = judge_message(alloc, message) else {
            return Err(HubFault::OutOfMemory);
        };
        let number = pass.number();
        match self
            .turn
            .with_turn(rt, pass, |core| core.take(number, message, judged))
        {
            Ok(Ok(reply)) => Ok(reply),
            Ok(Err(AllocError)) => Err(HubFault::OutOfMemory),
            Err(Spent { turns }) => Err(HubFault::Spent(turns)),
        }
    }

    /// An open question with its body. `First` gives the first one. `Free` gives one that no other reader was handed and
    /// has yet to answer, where there is one; `All` gives such a one first, and else any. Under `First` and `All` none is
    /// given only where none is open; under `Free` nothing is promised of that.
    pub fn next_question<W: Wait>(
        &self,
        rt: &W,
        alloc: Global,
        pass: &mut Pass,
        extent: Extent,
    ) -> Result<Option<Asked>, HubFault>
        requires pass { IsPassOf self.now.turn pass.old }
        ensures pass { IsPassOf self.now.turn pass.new }
        ensures asks { IfOk result (λ answer. AsksAt (limit_of self.now.turn) (known pass.old) extent answer
            (known pass.new)) }
        ensures stops { IfErr result (λ fault. Stops (limit_of self.now.turn) (known pass.old) fault (known pass.new)) }
    {
        let reader = pass.number();
        match self
            .turn
            .with_turn(rt, pass, |core| core.ask(alloc, reader, extent))
        {
            Ok(Ok(answer)) => Ok(answer),
            Ok(Err(AllocError)) => Err(HubFault::OutOfMemory),
            Err(Spent { turns }) => Err(HubFault::Spent(turns)),
        }
    }

    /// Notes what the verifier of the pass's reader says of a question.
    pub fn answer<W: Wait>(
        &self,
        rt: &W,
        pass: &mut Pass,
        question: &Question,
        yes: bool,
    ) -> Result<Noted, HubFault>
        requires pass { IsPassOf self.now.turn pass.old }
        ensures pass { IsPassOf self.now.turn pass.new }
        ensures answers { IfOk result (λ noted. AnswersAt (limit_of self.now.turn) (known pass.old) question.now yes noted
            (known pass.new)) }
        ensures stops { IfErr result (λ fault. Stops (limit_of self.now.turn) (known pass.old) fault (known pass.new)) }
    {
        let number = pass.number();
        match self
            .turn
            .with_turn(rt, pass, |core| core.answer(number, question, yes))
        {
            Ok(Ok(noted)) => Ok(noted),
            Ok(Err(AllocError)) => Err(HubFault::OutOfMemory),
            Err(Spent { turns }) => Err(HubFault::Spent(turns)),
        }
    }

    /// The state of an identifier, where it has an accepted event.
    pub fn state<W: Wait>(
        &self,
        rt: &W,
        alloc: Global,
        pass: &mut Pass,
        prefix: &Prefix,
    ) -> Result<Option<KeyState>, HubFault>
        requires pass { IsPassOf self.now.turn pass.old }
        ensures pass { IsPassOf self.now.turn pass.new }
        ensures state { IfOk result (λ found. StateAt (limit_of self.now.turn) (known pass.old) prefix.now found
            (known pass.new)) }
        ensures stops { IfErr result (λ fault. Stops (limit_of self.now.turn) (known pass.old) fault (known pass.new)) }
    {
        match self
            .turn
            .with_turn(rt, pass, |core| core.state_of(alloc, prefix))
        {
            Ok(Ok(found)) => Ok(found),
            Ok(Err(AllocError)) => Err(HubFault::OutOfMemory),
            Err(Spent { turns }) => Err(HubFault::Spent(turns)),
        }
    }

    /// The core, for which all passes are given up: none may be left out. It takes no memory.
    pub fn close(self, pass: Pass, others: Vec<Pass>) -> Core
        requires pass { IsPassOf self.turn pass }
        requires others { AllByRecursion (λ p. IsPassOf self.turn p) others.items }
        requires all { AreAll (known pass ∷ map (λ p. known p) others.items) }
        ensures no_base { result.base ≡ 0 }
        ensures closed { ClosesAll told_of head_of reader_of (known pass) (map (λ p. known p) others.items) result }
    {
        let mut pass = pass;
        for other in others {
            self.turn.join(&mut pass, other);
        }
        let Hub { turn } = self;
        let SharedCore { core, .. } = turn.close(pass);
        core
    }
}
