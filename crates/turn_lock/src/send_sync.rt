//! A lock may be shared by threads, and a lock or a pass may go to another one, where its value may.
use crate::history_values::Replayed;
use crate::pass::Pass;
use crate::turn::Turn;

fn needs_send<T: Send>(_value: &T) {}

fn needs_sync<T: Sync>(_value: &T) {}

fn turn_is_send_and_sync<V: Replayed + Send>(turn: &Turn<V>) {
    needs_send(turn);
    needs_sync(turn);
}

fn pass_is_send<V: Replayed + Send>(pass: &Pass<V>) {
    needs_send(pass);
}
