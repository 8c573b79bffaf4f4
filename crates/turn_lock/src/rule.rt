//! The lock as a table of one word and one slot, and the rule that each step keeps.
ghost use Rattle.turn_lock.specs.Rule.{IsLock};
ghost use Rattle.turn_lock.specs.Steps.{first_view};

use crate::history_values::Replayed;
use crate::view::View;
use atomic_table::{Seat, Table, TableRule};
use std::alloc::Global;
use std::snapshot::Snapshot;

/// The word is 2n while the value is home after n turns, and 2n + 1 while a seat has the next one.
pub(crate) struct TurnRule;

impl<V: Replayed> TableRule<V, View<V::Entry, V::Head>, Snapshot<V>> for TurnRule {
    ghost holds = { λ first. IsLock V.entries V.head V.names (V.head first.value) };

    ghost first = { λ first. first_view (V.head first.value) };
}

pub(crate) type LockTable<V> = Table<
    V,
    View<<V as Replayed>::Entry, <V as Replayed>::Head>,
    Snapshot<V>,
    TurnRule,
    Global,
>;

pub(crate) type LockSeat<V> = Seat<V, View<<V as Replayed>::Entry, <V as Replayed>::Head>>;
