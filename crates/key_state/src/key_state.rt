//! What is known of an identifier's keys.
ghost use Rattle.std.specs.Prelude.{◌≡◌, ◌+◌, ◌-◌, ◌<◌, ◌≤◌, length, Some};
ghost use Rattle.key_state.specs.Heads.{head_sn, head_said};

use cesr_codes::{Digest, Key, Prefix};
use json_tree::Text;
use lists::{CopyValue, Items, copy_items};
use sith::Threshold;
use std::alloc::{AllocError, Global};
use std::marker::Model;

/// What the events of an identifier say of its keys.
#[derive(Drop, PartialEq, Debug)]
pub struct KeyState {
    pub prefix: Prefix,
    /// The sequence number of the last establishment event.
    pub est_sn: u64,
    /// The digests of the live events from the last establishment event to the head.
    pub since: Items<Digest>,
    pub keys: Items<Key>,
    /// How many of the signing keys, or which of them, must sign.
    pub kt: Threshold,
    /// Digests of the next rotation's keys. Where there are none, no event may follow.
    pub next: Items<Digest>,
    /// The threshold of the next rotation's keys.
    pub nt: Threshold,
    /// The witnesses.
    pub list: Items<Key>,
    /// How many witnesses must have signed a receipt.
    pub toad: u64,
    pub traits: Items<Text>,
    pub delegator: Option<Prefix>,
}

impl Model for KeyState {
    ghost use Rattle.key_state.specs.States.{State, IsState};

    ghost Value = { State };

    ghost view = { λ s. record {
      prefix = s.prefix;
      est_sn = s.est_sn;
      since = s.since;
      keys = s.keys;
      kt = s.kt;
      next = s.next;
      nt = s.nt;
      list = s.list;
      toad = s.toad;
      traits = s.traits;
      delegator = s.delegator;
    } };

    ghost invariant = { λ s. IsState (record {
      prefix = s.prefix;
      est_sn = s.est_sn;
      since = s.since;
      keys = s.keys;
      kt = s.kt;
      next = s.next;
      nt = s.nt;
      list = s.list;
      toad = s.toad;
      traits = s.traits;
      delegator = s.delegator;
    }) };

    ghost inverse = { λ s. record {
      prefix = s.prefix;
      est_sn = s.est_sn;
      since = s.since;
      keys = s.keys;
      kt = s.kt;
      next = s.next;
      nt = s.nt;
      list = s.list;
      toad = s.toad;
      traits = s.traits;
      delegator = s.delegator;
    } };
}

impl KeyState {
    /// The sequence number of the head. It takes no memory.
    pub fn sn(&self) -> u64
        ensures { result ≡ head_sn self.now }
    {
        self.sn_at(self.since.len())
    }

    /// The sequence number of a live event, counted from 1, which is the last establishment event.
    pub(crate) fn sn_at(&self, place: usize) -> u64
        requires some { 0 < place }
        requires live { place ≤ length self.now.since }
        ensures { result ≡ self.now.est_sn + (place - 1) }
    {
        self.est_sn + (place as u64 - 1)
    }

    /// The digest of the head. It takes no memory.
    pub fn said(&self) -> Digest
        ensures { Some result ≡ head_said self.now }
    {
        let since = self.since.as_slice();
        since[since.len() - 1]
    }
}

impl CopyValue for KeyState {
    fn copy(&self, alloc: Global) -> Result<KeyState, AllocError> {
        Ok(KeyState {
            prefix: self.prefix,
            est_sn: self.est_sn,
            since: copy_items(&self.since, alloc)?,
            keys: copy_items(&self.keys, alloc)?,
            next: copy_items(&self.next, alloc)?,
            list: copy_items(&self.list, alloc)?,
            toad: self.toad,
            traits: self.traits.copy(alloc)?,
            delegator: self.delegator,
            kt: self.kt.copy(alloc)?,
            nt: self.nt.copy(alloc)?,
        })
    }
}
