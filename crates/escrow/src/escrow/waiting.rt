//! The events that wait.
ghost use Rattle.std.specs.Prelude.{◌≡◌, ◌+◌, ◌-◌, ◌^◌, ◌↔◌, ℕ, min, None, Some, OnOk, OnErr, Contains, if◌then◌else◌, ◌==◌};
ghost use Rattle.std.specs.List.Sorted.{IsStrictlyIncreasing};
ghost use Rattle.std.specs.Option.{option_map};
ghost use Rattle.escrow.specs.Escrow.Escrow.{Waits, held, room_for};

use crate::escrow::digest_numbers::DigestNumbers;
use crate::escrow::{Room, Waiter};
use cesr_codes::Digest;
use indexmap::IndexMap;
use keri_outside::Steps;
use std::alloc::{AllocError, Global};
use std::marker::Model;

/// The events that wait, by their numbers, and the room that is kept for one more. No call goes over all of them.
#[derive(Drop)]
pub struct Waiting {
    waiters: IndexMap<u32, Waiter>,
    /// The numbers of the events by the digest of the event before each.
    by_prior: DigestNumbers,
    /// The numbers of the events by their own digests.
    by_said: DigestNumbers,
    room: Option<Room>,
}

impl Model for Waiting {
    ghost use Rattle.std.specs.Prelude.{nat_eq, Some};
    ghost use Rattle.std.specs.Coded.{codes};
    ghost use Rattle.std.specs.FinMap.{code, from_entries};
    ghost use Rattle.indexmap.specs.IndexMap.{get, spare};
    ghost use Rattle.escrow.specs.Escrow.Escrow.{Escrow};
    ghost use Rattle.escrow.specs.Escrow.Tables.{HasNumbers, HasRoom, numbers_at, room_at};

    ghost Value = { Escrow };

    ghost coded = { Prim.hlevel (codes, code) };

    ghost view = { λ w. record { waiters = from_entries w.waiters.entries; room = w.room } };

    ghost invariant = { λ w.
        HasNumbers (λ v. v.prior) (get nat_eq w.waiters) (numbers_at w.by_prior)
        × HasNumbers (λ v. Some v.said) (get nat_eq w.waiters) (numbers_at w.by_said)
        × HasRoom w.room (spare w.waiters) (room_at w.by_prior) (room_at w.by_said) };
}

impl Waiting {
    /// No event waits, and there is room for none.
    pub fn new(alloc: Global) -> Waiting
        ensures waiters { (n : ℕ) → held n result ≡ None }
        ensures room { result.room ≡ None }
    {
        Waiting {
            waiters: IndexMap::new(alloc),
            by_prior: DigestNumbers::new(alloc),
            by_said: DigestNumbers::new(alloc),
            room: None,
        }
    }

    /// Makes room for one event with the prior and the digest of this one, and for no other. After an error the room is as
    /// before.
    pub fn reserve(&mut self, waiter: &Waiter) -> Result<(), AllocError>
        ensures ok { OnOk result (self.new ≡ record self.old { room = Some (room_for waiter.now) }) }
        ensures err { OnErr result (self.new ≡ self.old) }
    {
        self.waiters.reserve(1)?;
        self.by_prior.reserve(waiter.prior)?;
        self.by_said.reserve(Some(waiter.said))?;
        self.room = Some(Room {
            prior: waiter.prior,
            said: waiter.said,
        });
        Ok(())
    }

    /// Adds the event for which there is room. It takes no memory, and no room is left.
    pub fn put(&mut self, waiter: Waiter)
        requires room { self.old.room ≡ Some (room_for waiter) }
        requires new { held waiter.number self.old ≡ None }
        ensures waiters { (n : ℕ) → held n self.new ≡ (if n == waiter.number then Some waiter else held n self.old) }
        ensures room { self.new.room ≡ None }
    {
        let number = waiter.number;
        self.by_prior.insert(waiter.prior, number);
        self.by_said.insert(Some(waiter.said), number);
        self.waiters.insert(number, waiter).unwrap();
        self.room = None;
    }

    /// Hands out the event of a number.
    pub fn take(&mut self, number: u32) -> Option<Waiter>
        ensures found { result ≡ held number self.old }
        ensures waiters { (n : ℕ) → held n self.new ≡ (if n == number then None else held n self.old) }
        ensures room { self.new.room ≡ self.old.room }
    {
        let waiter = self.waiters.swap_remove(&number)?;
        self.by_prior.remove(waiter.prior, number);
        self.by_said.remove(Some(waiter.said), number);
        self.by_prior
            .let_go(waiter.prior, Room::prior_of(self.room));
        self.by_said
            .let_go(Some(waiter.said), Room::said_of(self.room));
        Some(waiter)
    }

    /// The event of a number. It counts one step.
    pub fn look(&self, number: u32, steps: &mut Steps) -> Option<&Waiter>
        ensures found { option_map (λ w. w.now) result ≡ held number self.now }
        ensures step { steps.new ≡ min (steps.old + 1) (2 ^ 64 - 1) }
    {
        steps.tick();
        self.waiters.get(&number)
    }

    /// The numbers of the events behind the one with this digest, rising.
    pub fn woken_by(&self, said: &Digest) -> &[u32]
        ensures those { (n : ℕ) → Contains result.now n ↔ Waits n (λ w. w.prior ≡ Some said.now) self.now }
        ensures rising { IsStrictlyIncreasing result.now }
    {
        self.by_prior.numbers(said)
    }

    /// The numbers of the events with this digest, rising.
    pub fn named(&self, said: &Digest) -> &[u32]
        ensures those { (n : ℕ) → Contains result.now n ↔ Waits n (λ w. w.said ≡ said.now) self.now }
        ensures rising { IsStrictlyIncreasing result.now }
    {
        self.by_said.numbers(said)
    }
}
