//! The lock.
ghost use Rattle.std.specs.Prelude.{◌≡◌, ℕ, ◌+◌, ◌*◌, ◌^◌, ◌<◌, ◌≤◌, List, [], IfOk, IfErr, OnErr, IfSome, IfNone, IsOk, length, max};
ghost use Rattle.turn_lock.specs.declared.stage.Stage.TheVariants.{Turning, In};
ghost use Rattle.turn_lock.specs.Steps.{IsIdle, IsLive, Tried, ended_view};
ghost use Rattle.turn_lock.specs.Known.{known_of, first_pass, after_spent, after_split, split_from, IsJoined, IsWhole};
ghost use Rattle.turn_lock.specs.Passes.{AppendsAtMostOne, Turned, Closes};
ghost use Rattle.turn_lock.specs.Performs.{Performed};

use crate::attempt::Attempt;
use crate::history_values::Replayed;
use crate::pass::Pass;
use crate::rule::{LockSeat, LockTable};
use crate::spent::Spent;
use crate::steps::{Compare, GiveBack, Look, Seats, TakeTurn, ValueIn, ValueOut};
use atomic_table::{Refused, Table};
use std::alloc::{AllocError, Global};
use std::snapshot::Snapshot;
use std::sync::Wait;
use std::thread;

/// A lock round a value. Its passes take turns at it, one at a time.
#[derive(Drop)]
pub struct Turn<V: Replayed> {
    table: LockTable<V>,
    limit: u64,
    ghost one: { (table.shared.table_id.words ≡ 1) × (table.shared.table_id.slots ≡ 1) },
    ghost few: { limit ≤ 2 ^ 62 },
}

impl<V: Replayed + Drop> Turn<V> {
    ghost use Rattle.turn_lock.specs.Locks.{limit_of, known, IsPassOf};

    /// A lock for so many turns, and its first pass, whose number is 0.
    pub fn new(alloc: Global, value: V, turns: u64) -> Result<(Turn<V>, Pass<V>), AllocError>
        requires limit { turns ≤ 2 ^ 62 }
        requires empty { V.entries value ≡ [] }
        ensures pass { IfOk result (λ t. IsPassOf t.0 t.1) }
        ensures limit { IfOk result (λ t. limit_of t.0 ≡ turns) }
        ensures first { IfOk result (λ t. known t.1 ≡ first_pass (V.head value)) }
    {
        let key = Snapshot::of(&value);
        let mut slots = Vec::with_capacity(alloc, 1)?;
        slots.push_reserved(value);
        match Table::new(alloc, &[0], slots, &key) {
            Ok((table, seat)) => {
                let turn = Turn {
                    table,
                    limit: turns,
                };
                let pass = Pass {
                    seat,
                    front: 0,
                    number: 0,
                    past: 0,
                    splits: 0,
                    turns: 0,
                };
                Ok((turn, pass))
            }
            Err(Refused { slots: _ }) => Err(AllocError),
        }
    }

    /// Waits for the turn, and calls `act` once.
    pub fn with_turn<F: FnOnce(&mut V) -> R, R, W: Wait>(
        &self,
        rt: &W,
        pass: &mut Pass<V>,
        act: F,
    ) -> Result<R, Spent>
        requires pass { IsPassOf self.now pass.old }
        requires act { AppendsAtMostOne V.entries V.head V.names F.FnOnce act (known pass.old) }
        ensures pass { IsPassOf self.now pass.new }

        // One turn was taken, in which `act` met a history that goes on from what the pass had
        // seen, and appended one entry or none.
        ensures turned { IfOk result (λ r.
            Turned V.entries V.head V.names F.FnOnce act
            (limit_of self.now) (known pass.old) r (known pass.new)) }

        // Just where all turns of the lock were taken: so many are past, and all else is as before.
        ensures limit { IfErr result (λ s. s.turns ≡ limit_of self.now) }
        ensures reached { OnErr result ((known pass.old).past ≤ limit_of self.now) }
        ensures spent { OnErr result (known pass.new ≡ after_spent (known pass.old) (limit_of self.now)) }
    {
        let Pass {
            seat,
            front,
            past,
            turns,
            ..
        } = pass;
        let Some(taken) = self.acquire(rt, seat) else {
            *past = self.limit;
            return Err(Spent { turns: self.limit });
        };
        let (result, count) = self.perform(seat, act);
        self.release(seat, taken);
        *front = count;
        *past = taken + 1;
        *turns += 1;
        Ok(result)
    }

    /// A further pass, split from the first one, with the next number. It takes no memory.
    pub fn split(&self, pass: &mut Pass<V>) -> Result<Pass<V>, AllocError>
        requires pass { IsPassOf self.now pass.old }
        requires first { (known pass.old).number ≡ 0 }
        requires room { (known pass.old).splits < 65535 }
        ensures pass { IsPassOf self.now pass.new }
        ensures succeeds { IsOk result }
        ensures split { known pass.new ≡ after_split (known pass.old) }
        ensures given { IfOk result (λ p. IsPassOf self.now p) }
        ensures knows { IfOk result (λ p. known p ≡ split_from (known pass.old)) }
    {
        let Pass {
            seat,
            front,
            past,
            splits,
            ..
        } = pass;
        let seat = self.table.shared.split_seat::<Seats>(seat);
        *splits += 1;
        Ok(Pass {
            seat,
            front: *front,
            number: *splits,
            past: *past,
            splits: 0,
            turns: 0,
        })
    }

    /// Joins the other pass into this one.
    pub fn join(&self, pass: &mut Pass<V>, other: Pass<V>)
        requires pass { IsPassOf self.now pass.old }
        requires other { IsPassOf self.now other }
        ensures pass { IsPassOf self.now pass.new }
        ensures joined { IsJoined (known pass.old) (known other) (known pass.new) }
    {
        let Pass {
            seat: other_seat,
            front: other_front,
            number: _,
            past: other_past,
            splits: other_splits,
            turns: other_turns,
        } = other;
        let Pass {
            seat,
            front,
            past,
            splits,
            turns,
            ..
        } = pass;
        self.merge(seat, other_seat);
        *front = (*front).max(other_front);
        *past = (*past).max(other_past);
        *splits = (*splits).max(other_splits);
        *turns = (*turns).saturating_add(other_turns);
    }

    /// Gives the value back to the pass into which all others were joined.
    pub fn close(self, pass: Pass<V>) -> V
        requires pass { IsPassOf self pass }
        requires whole { IsWhole (known pass) }
        ensures closed { Closes V.entries V.head V.names (known pass) result }
    {
        let Turn { table, limit: _ } = self;
        let Pass {
            seat,
            front: _,
            number: _,
            past: _,
            splits: _,
            turns: _,
        } = pass;
        let mut closed = table.close_with(seat);
        let value = closed.take(0);
        closed.free();
        value
    }

    // One try for the turn.
    fn attempt(&self, seat: &mut LockSeat<V>) -> Attempt
        requires lock { seat.old.table_id ≡ self.now.table.shared.table_id }
        requires idle { IsIdle seat.old.me }
        requires live { IsLive seat.old.me.0 }
        ensures lock { seat.new.table_id ≡ seat.old.table_id }
        ensures tried { Tried self.now.limit seat.old.me seat.new.me result }
    {
        let last = 2 * self.limit;
        let found = self.table.shared.load::<Look>(seat, 0);
        if found == last {
            return Attempt::Spent;
        }
        // A word beyond `last` is never found. The rule doesn't say so, and to wait is right then.
        if found > last || found % 2 == 1 {
            return Attempt::Busy;
        }
        let shared = &self.table.shared;
        let held = shared.compare_exchange::<TakeTurn>(seat, 0, found, found + 1);
        if held == found {
            Attempt::Turn(found / 2)
        } else {
            Attempt::Busy
        }
    }

    // How many turns were taken before this one, or nothing where all were.
    fn acquire<W: Wait>(&self, rt: &W, seat: &mut LockSeat<V>) -> Option<u64>
        requires lock { seat.old.table_id ≡ self.now.table.shared.table_id }
        requires idle { IsIdle seat.old.me }
        requires live { IsLive seat.old.me.0 }
        ensures lock { seat.new.table_id ≡ seat.old.table_id }
        ensures turn { IfSome result (λ n. Tried self.now.limit seat.old.me seat.new.me (Attempt.Turn n)) }
        ensures spent { IfNone result (Tried self.now.limit seat.old.me seat.new.me Attempt.Spent) }
    {
        for _ in rt.forever() {
            match self.attempt(seat) {
                Attempt::Turn(taken) => return Some(taken),
                Attempt::Spent => return None,
                Attempt::Busy => thread::yield_now(),
            }
        }
        unreachable!()
    }

    // Calls `act` on the value between value out and value in, and counts what it left.
    fn perform<F: FnOnce(&mut V) -> R, R>(&self, seat: &mut LockSeat<V>, act: F) -> (R, u64)
        requires lock { seat.old.table_id ≡ self.now.table.shared.table_id }
        requires turning { (seat.old.me.1 ≡ []) × (seat.old.me.0.stage ≡ Turning) }
        requires live { IsLive seat.old.me.0 }
        requires act { AppendsAtMostOne V.entries V.head V.names F.FnOnce act (known_of seat.old.me.0) }
        ensures lock { seat.new.table_id ≡ seat.old.table_id }
        ensures performed { Performed V.entries V.head V.names F.FnOnce act
            seat.old.me.0 result.0 result.1 seat.new.me }
    {
        self.table.shared.load::<ValueOut>(seat, 0);
        let value = seat.slot_mut(&self.table.shared, 0);
        let result = act(value);
        let count = value.count();
        self.table.shared.load::<ValueIn>(seat, 0);
        (result, count)
    }

    // Gives the turn back, which was the next one after `taken` others.
    fn release(&self, seat: &mut LockSeat<V>, taken: u64)
        requires lock { seat.old.table_id ≡ self.now.table.shared.table_id }
        requires live { IsLive seat.old.me.0 }
        requires home { (es : List V.Entry) × (seat.old.me.0.stage ≡ In es) }
        requires taken { (taken ≡ seat.old.me.0.past) × (taken < 2 ^ 62) }
        ensures lock { seat.new.table_id ≡ seat.old.table_id }
        ensures given { (es : List V.Entry) → seat.old.me.0.stage ≡ In es
            → seat.new.me ≡ (ended_view seat.old.me.0 es, seat.old.me.1) }
    {
        self.table.shared.store::<GiveBack>(seat, 0, 2 * taken + 2);
    }

    // Joins a seat into another, and compares what the two have seen.
    fn merge(&self, seat: &mut LockSeat<V>, other: LockSeat<V>)
        requires lock { seat.old.table_id ≡ self.now.table.shared.table_id }
        requires other { other.table_id ≡ self.now.table.shared.table_id }
        requires idle { IsIdle seat.old.me × IsIdle other.me }
        requires live { IsLive seat.old.me.0 }
        ensures lock { seat.new.table_id ≡ seat.old.table_id }
        ensures idle { IsIdle seat.new.me }
        ensures live { IsLive seat.new.me.0 }
        ensures front { length seat.new.me.0.seen ≡ max (length seat.old.me.0.seen) (length other.me.0.seen) }
        ensures turns { seat.new.me.0.turns < 2 ^ 63 }
        ensures joined { IsJoined (known_of seat.old.me.0) (known_of other.me.0) (known_of seat.new.me.0) }
    {
        self.table.shared.join_seat::<Seats>(seat, other);
        self.table.shared.load::<Compare>(seat, 0);
    }
}
