//! A small caller of the lock: threads that write notes under it.
ghost use Rattle.std.specs.Prelude.{◌≡◌, [], List};
ghost use Rattle.turn_lock.specs.Known.{OwnsAlone};
ghost use Rattle.turn_lock.specs.Locks.{known, IsPassOf};
ghost use Rattle.turn_lock.specs.declared.tests.notes.Note.{Note};

mod notes;

use crate::{Pass, Spent, Turn};
use notes::{Note, Notes};
use std::sync::Wait;
use std::test::Fail;
use std::thread;

/// Writes the texts 0, 1, 2 and so on, as far as turns and memory last.
fn write<W: Wait>(rt: &W, turn: &Turn<Notes>, mut pass: Pass<Notes>, count: u64) -> Pass<Notes>
    requires pass { IsPassOf turn.now pass }
    requires own { OwnsAlone (known pass) [] }
    ensures pass { IsPassOf turn.now result }
    ensures own { (es : List Note) × OwnsAlone (known result) es }
    ensures same { ((known result).number ≡ (known pass).number) × ((known result).splits ≡ (known pass).splits) }
{
    let by = pass.number();
    for text in 0..count {
        match turn.with_turn(rt, &mut pass, |notes| notes.add(Note { by, text })) {
            Ok(Ok(())) => {}
            _ => break,
        }
    }
    pass
}

#[test]
fn each_thread_finds_its_notes_in_its_order(rt: HostRuntime) -> Result<(), Fail> {
    let (turn, mut one) = Turn::new(rt.alloc(), Notes::new(rt.alloc(), 7), 2000)?;
    let two = turn.split(&mut one)?;
    let lock = &turn;
    let (mut one, two) = thread::join(
        &rt,
        || write(&rt, lock, one, 1000),
        || write(&rt, lock, two, 1000),
    );
    assert_eq!(rt; (one.turns(), two.turns()), (1000, 1000));
    turn.join(&mut one, two);
    assert_eq!(rt; one.turns(), 2000);
    let notes = turn.close(one);
    assert_eq!(rt; (notes.title, notes.list.len()), (7, 2000));
    for by in 0..2u16 {
        let its = notes.list.iter().filter(|note| note.by == by);
        assert!(rt; its.map(|note| note.text).eq(0..1000), "the notes of {by}");
    }
    Ok(())
}

#[test]
fn no_turn_is_given_past_the_limit(rt: HostRuntime) -> Result<(), Fail> {
    let (turn, mut one) = Turn::new(rt.alloc(), Notes::new(rt.alloc(), 7), 3)?;
    let two = turn.split(&mut one)?;
    let mut one = write(&rt, &turn, one, 1);
    let read = turn.with_turn(&rt, &mut one, |notes| notes.list.len());
    assert!(rt; matches!(read, Ok(1)));
    assert_eq!(rt;
        (one.number(), one.front(), one.past(), one.turns()),
        (0, 1, 2, 2)
    );

    let two = write(&rt, &turn, two, 9);
    assert_eq!(rt;
        (two.number(), two.front(), two.past(), two.turns()),
        (1, 2, 3, 1)
    );
    let spent = turn.with_turn(&rt, &mut one, |notes| notes.list.len());
    assert!(rt; matches!(spent, Err(Spent { turns: 3 })));
    assert_eq!(rt; (one.front(), one.past(), one.turns()), (1, 3, 2));

    turn.join(&mut one, two);
    assert_eq!(rt; (one.front(), one.past(), one.turns()), (2, 3, 3));
    assert_eq!(rt; turn.close(one).list.len(), 2);
    Ok(())
}
