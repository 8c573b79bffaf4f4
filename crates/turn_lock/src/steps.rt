//! The seven kinds of step at the lock, and what each tells its seat: a load, which looks or compares, taking the turn,
//! value out, value in, giving the turn back, splitting a seat and joining a seat. There is no other.
ghost use Rattle.turn_lock.specs.Steps.{Looked, Compared, TookTurn, TookValueOut, PutValueIn, GaveBack, left_view, right_view, joined_view, gone_view};

use crate::history_values::Replayed;
use crate::view::View;
use atomic_table::{Join, Play, Split};

/// A load that notes how many turns were taken.
pub(crate) struct Look;

impl<V: Replayed> Play<V, View<V::Entry, V::Head>> for Look {
    ghost then = { Looked };
}

/// A load after a join, that compares the two beginnings and notes nothing.
pub(crate) struct Compare;

impl<V: Replayed> Play<V, View<V::Entry, V::Head>> for Compare {
    ghost then = { Compared };
}

/// From 2n to 2n + 1.
pub(crate) struct TakeTurn;

impl<V: Replayed> Play<V, View<V::Entry, V::Head>> for TakeTurn {
    ghost then = { TookTurn };
}

/// A load under the turn, at which the value goes to the seat.
pub(crate) struct ValueOut;

impl<V: Replayed> Play<V, View<V::Entry, V::Head>> for ValueOut {
    ghost then = { TookValueOut V.entries V.head };
}

/// A load under the turn, at which the value goes home.
pub(crate) struct ValueIn;

impl<V: Replayed> Play<V, View<V::Entry, V::Head>> for ValueIn {
    ghost then = { PutValueIn V.entries };
}

/// From 2n + 1 to 2n + 2: the one step at which the history grows.
pub(crate) struct GiveBack;

impl<V: Replayed> Play<V, View<V::Entry, V::Head>> for GiveBack {
    ghost then = { GaveBack };
}

/// One seat becomes two, and two become one.
pub(crate) struct Seats;

impl<E, H> Split<View<E, H>> for Seats {
    ghost left = { left_view };

    ghost right = { right_view };
}

impl<E, H> Join<View<E, H>> for Seats {
    ghost both = { joined_view };

    ghost spent = { gone_view };
}
