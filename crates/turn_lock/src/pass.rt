//! A pass of a lock.
ghost use Rattle.std.specs.Prelude.{◌≡◌, length};
ghost use Rattle.turn_lock.specs.Steps.{IsIdle, IsLive};

use crate::history_values::Replayed;
use crate::rule::LockSeat;

/// The right to take turns at a lock, and what its holder has learnt there: a beginning of the history, and a share
/// of it under its number. One that is dropped keeps its lock from being closed.
#[derive(Drop)]
pub struct Pass<V: Replayed> {
    pub(crate) seat: LockSeat<V>,
    pub(crate) front: u64,
    pub(crate) number: u16,
    pub(crate) past: u64,
    pub(crate) splits: u16,
    pub(crate) turns: u64,
    ghost idle: { IsIdle seat.me },
    ghost live: { IsLive seat.me.0 },
    ghost seen: { front ≡ length seat.me.0.seen },
    ghost numbers: { (number ≡ seat.me.0.number) × (past ≡ seat.me.0.past) × (splits ≡ seat.me.0.splits) × (turns ≡ seat.me.0.turns) },
}

impl<V: Replayed> Pass<V> {
    ghost use Rattle.turn_lock.specs.Locks.{known};

    /// The length of the history that the pass has seen.
    pub fn front(&self) -> u64
        ensures { result ≡ length (known self.now).seen }
    {
        self.front
    }

    /// The number that the entries of its turns name.
    pub fn number(&self) -> u16
        ensures { result ≡ (known self.now).number }
    {
        self.number
    }

    /// So many turns of the lock, at least, were taken.
    pub fn past(&self) -> u64
        ensures { result ≡ (known self.now).past }
    {
        self.past
    }

    /// How many turns it took, and the passes joined into it.
    pub fn turns(&self) -> u64
        ensures { result ≡ (known self.now).turns }
    {
        self.turns
    }
}
