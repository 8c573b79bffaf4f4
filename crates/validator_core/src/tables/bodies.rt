//! Bodies, found by the names of their events.
ghost use Rattle.std.specs.Prelude.{◌≡◌, ◌<◌, ◌++◌, ◌∷◌, [], ℕ, false, find, length, Contains, IfOk, IfNone, IfSome, OnOk, OnErr, None, Some, slice_get, vec_len, vec_capacity};
ghost use Rattle.std.specs.List.Sorted.{IsStrictlyIncreasing};
ghost use Rattle.event_body.specs.EventBody.Judging.{SpellsEvent};
ghost use Rattle.escrow.specs.EventIndex.Keys.{numbers_at};
ghost use Rattle.escrow.specs.Escrow.Escrow.{held as held_by};
ghost use Rattle.journal.specs.Journal.Logs.{is_in};
ghost use Rattle.journal.specs.declared.journal.body.Body.{Body as BodyValue};
ghost use Rattle.validator_core.specs.Tables.Hints.{HasBodiesNamed, KeepsBelow};
ghost use Rattle.validator_core.specs.Tables.Names.{name_of as name_of_event};
ghost use Rattle.validator_core.specs.Tables.Rows.{is_text, placed, waiter_for};
ghost use Rattle.validator_core.specs.Tables.View.{body_of, waiter_of as waiter};

use crate::tables::Tables;
use crate::tables::name::{Name, name_of};
use escrow::{Index, Waiter, Waiting};
use event_body::{Event, one_event};
use journal::Body;
use json_tree::Text;
use lists::{CopyValue, Items, length_u32};
use std::alloc::AllocError;

impl Tables {
    /// The numbers of all bodies with this name, and perhaps of others, rising: whoever asks compares.
    pub fn named(&self, name: &Name) -> &[u32]
        ensures all { HasBodiesNamed name.now self.now.held result.now }
        ensures rising { IsStrictlyIncreasing result.now }
    {
        self.names.numbers(name)
    }

    /// The number of the body with these bytes, which spell the event.
    pub fn number_of(&self, bytes: &[u8], event: &Event) -> Option<u32>
        requires spelled { SpellsEvent event.now bytes.now }
        requires all_spelled { (n : ℕ) (b : BodyValue) → slice_get self.now.held n ≡ Some b → SpellsEvent b.event b.bytes }
        ensures some { IfSome result (λ n. slice_get self.now.held n ≡ Some (body_of bytes.now event.now)) }
        ensures none { IfNone result (is_in self.now.held (body_of bytes.now event.now) ≡ false) }
    {
        one_event();
        let name = name_of(event);
        number_among(
            self.journal.bodies.as_slice(),
            self.names.numbers(&name),
            bytes,
        )
    }

    /// Adds a body that isn't held, and hands out its number. An event waits from then on.
    pub fn push_body(&mut self, body: Body) -> Result<u32, AllocError>
        ensures number { IfOk result (λ n. n ≡ length self.old.held) }
        ensures ok { OnOk result (self.new ≡ record self.old { held = self.old.held ++ body ∷ [] }) }
        ensures err { OnErr result (self.new ≡ self.old) }
    {
        push_next(
            &mut self.journal.bodies,
            &mut self.events,
            &mut self.waiting,
            &mut self.names,
            body,
        )
    }
}

// The first of the numbers whose body has these bytes.
fn number_among(bodies: &[Text], numbers: &[u32], bytes: &[u8]) -> Option<u32>
    ensures { result ≡ find (λ n. is_text bytes.now (slice_get bodies.now n)) numbers.now }
{
    numbers
        .iter()
        .copied()
        .find(|number| has_bytes(bodies, *number, bytes))
}

// Whether the body of a number has these bytes.
fn has_bytes(bodies: &[Text], number: u32, bytes: &[u8]) -> bool
    ensures { result ≡ is_text bytes.now (slice_get bodies.now number) }
{
    match bodies.get(number as usize) {
        Some(body) => body.as_slice() == bytes,
        None => false,
    }
}

// Adds the body that comes next, and hands out its number. An event waits from then on.
fn push_next(
    bodies: &mut Items<Text>,
    events: &mut Vec<Event>,
    waiting: &mut Waiting,
    names: &mut Index<Name>,
    body: Body,
) -> Result<u32, AllocError>
    requires new { held_by (length events.old.items) waiting.old ≡ None }
    ensures number { IfOk result (λ n. n ≡ length events.old.items) }
    ensures few { OnOk result (length events.old.items < 4294967296) }
    ensures ok { OnOk result (bodies.new ≡ bodies.old ++ body.bytes ∷ []) }
    ensures pushed { OnOk result (events.new.items ≡ events.old.items ++ body.event ∷ []) }
    ensures waits { OnOk result ((n : ℕ)
        → held_by n waiting.new ≡ placed (waiter_for (length events.old.items) body.event) n (held_by n waiting.old)) }
    ensures named { OnOk result (Contains (numbers_at ⟦<Name as Ord>⟧.cmp names.new (name_of_event body.event))
        (length events.old.items)) }
    ensures kept { KeepsBelow (length events.old.items) (numbers_at ⟦<Name as Ord>⟧.cmp names.old)
        (numbers_at ⟦<Name as Ord>⟧.cmp names.new) }
    ensures err { OnErr result (bodies.new ≡ bodies.old) }
    ensures same { OnErr result (events.new.items ≡ events.old.items) }
    ensures waits_on { OnErr result ((n : ℕ) → held_by n waiting.new ≡ held_by n waiting.old) }
{
    let Body { bytes, event } = body;
    let number = note_body(events, names, &event)?;
    let count = bodies.len();
    bodies.push(bytes)?;
    if let Err(error) = note_waiter(waiting, number, &event) {
        drop(event);
        bodies.truncate(count);
        return Err(error);
    }
    events.push_reserved(event);
    Ok(number)
}

// Makes room for the event of the body that comes next, and adds its number under the event's name.
fn note_body(
    events: &mut Vec<Event>,
    names: &mut Index<Name>,
    event: &Event,
) -> Result<u32, AllocError>
    ensures next { IfOk result (λ n. n ≡ length events.old.items) }
    ensures few { OnOk result (length events.old.items < 4294967296) }
    ensures room { OnOk result (vec_len events.new < vec_capacity events.new) }
    ensures same { events.new.items ≡ events.old.items }
    ensures named { OnOk result (Contains (numbers_at ⟦<Name as Ord>⟧.cmp names.new (name_of_event event.now))
        (length events.old.items)) }
    ensures kept { KeepsBelow (length events.old.items) (numbers_at ⟦<Name as Ord>⟧.cmp names.old)
        (numbers_at ⟦<Name as Ord>⟧.cmp names.new) }
{
    events.reserve(1)?;
    let number = length_u32(events.len())?;
    names.add(name_of(event), number)?;
    Ok(number)
}

// An event waits under a number from then on.
fn note_waiter(waiting: &mut Waiting, number: u32, event: &Event) -> Result<(), AllocError>
    requires new { held_by number waiting.old ≡ None }
    ensures waits { OnOk result ((n : ℕ)
        → held_by n waiting.new ≡ placed (waiter_for number event.now) n (held_by n waiting.old)) }
    ensures same { OnErr result ((n : ℕ) → held_by n waiting.new ≡ held_by n waiting.old) }
{
    if event.is_receipt() {
        return Ok(());
    }
    let waiter = waiter_of(number, event);
    waiting.reserve(&waiter)?;
    waiting.put(waiter);
    Ok(())
}

// An event that waits, by the number of its body.
fn waiter_of(number: u32, event: &Event) -> Waiter
    ensures { result ≡ waiter number event.now }
{
    Waiter {
        number,
        prior: event.prior(),
        said: event.said(),
    }
}
