//! The sets of conflicting bodies.
ghost use Rattle.std.specs.Prelude.{◌≡◌, ◌<◌, ◌↔◌, ◌++◌, [], ℕ, false, List, length, map, bytes_eq, IfOk, OnOk, All, AllPairs, Contains};
ghost use Rattle.std.specs.declared.cmp.Ordering.TheVariants.{Less};
ghost use Rattle.journal.specs.declared.journal.body.Body.{Body};
ghost use Rattle.journal.specs.Journal.Conflicts.{AreConflicts};
ghost use Rattle.journal.specs.Journal.Journals.{chosen};
ghost use Rattle.journal_views.specs.JournalViews.Groups.{as_set, cut, is_apart};
ghost use Rattle.journal_views.specs.JournalViews.Bodies.{AreBodiesOf};
ghost use Rattle.journal_views.specs.JournalViews.Rankings.{number_cmp, number_place};

use crate::journal_views::places::{event_order, number_order, prefix_texts};
use event_body::Event;
use json_tree::Text;
use std::alloc::{AllocError, Global};
use std::mem;

/// The numbers of the bodies in conflict among the counted ones: a set for each place with two or more bodies, in the
/// order of places, and each set in byte order.
pub fn conflict_sets(
    alloc: Global,
    bodies: &[Text],
    events: &[Event],
    counted: &[u32],
) -> Result<Vec<Vec<u32>>, AllocError>
    requires paired { length bodies.now ≡ length events.now }
    requires held { All (λ n. n < length bodies.now) counted.now }
    requires differ { AllPairs (λ x y. bytes_eq x y ≡ false) bodies.now }
    ensures conflicts { (held : List Body) → AreBodiesOf bodies.now events.now held
        → IfOk result (λ sets. AreConflicts (chosen held counted.now) (map (λ set. chosen held set.items) sets.items)) }
    ensures held { IfOk result (λ sets. All (λ set. All (λ n. n < length bodies.now) set.items) sets.items) }
{
    let numbers = in_order(alloc, bodies, events, counted)?;
    sets_of(alloc, events, numbers.as_slice())
}

// The numbers in the order of their bodies, each once.
fn in_order(
    alloc: Global,
    bodies: &[Text],
    events: &[Event],
    counted: &[u32],
) -> Result<Vec<u32>, AllocError>
    requires held { All (λ n. n < length bodies.now) counted.now }
    ensures rising { IfOk result (λ numbers. AllPairs (λ m n. number_cmp bodies.now events.now m n ≡ Less)
        numbers.items) }
    ensures same { IfOk result (λ numbers. (n : ℕ) → Contains numbers.items n ↔ Contains counted.now n) }
    ensures held { IfOk result (λ numbers. All (λ n. n < length bodies.now) numbers.items) }
{
    let mut numbers = Vec::from_slice(alloc, counted)?;
    let texts = prefix_texts(alloc, events)?;
    let texts = texts.as_slice();
    numbers.sort_by(|first, second| number_order(texts, bodies, events, *first, *second))?;
    numbers.dedup();
    Ok(numbers)
}

// The numbers, cut where the place changes: the groups of two or more.
fn sets_of(alloc: Global, events: &[Event], numbers: &[u32]) -> Result<Vec<Vec<u32>>, AllocError>
    ensures { IfOk result (λ sets. map (λ set. set.items) sets.items ≡ cut (number_place events.now) [] numbers.now) }
{
    let mut sets = Vec::new(alloc);
    let mut group = Vec::new(alloc);
    for place in 0..numbers.len() {
        let number = numbers[place];
        if is_elsewhere(events, group.as_slice(), number) {
            let whole = mem::replace(&mut group, Vec::new(alloc));
            close(&mut sets, whole)?;
        }
        group.push(number)?;
    }
    close(&mut sets, group)?;
    Ok(sets)
}

// Whether the event of the number is at another place than those of the group.
fn is_elsewhere(events: &[Event], group: &[u32], number: u32) -> bool
    ensures { result ≡ is_apart (number_place events.now) group.now number }
{
    match group.first() {
        Some(first) => event_order(events, *first, number).is_ne(),
        None => false,
    }
}

// Keeps a group of two or more as a set.
fn close(sets: &mut Vec<Vec<u32>>, group: Vec<u32>) -> Result<(), AllocError>
    ensures { OnOk result (map (λ set. set.items) sets.new.items ≡ map (λ set. set.items) sets.old.items
        ++ as_set group.items) }
{
    if group.len() >= 2 {
        sets.push(group)?;
    }
    Ok(())
}
