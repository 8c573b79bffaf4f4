//! The live events of an identifier.
ghost use Rattle.std.specs.Prelude.{◌≡◌, ◌<◌, List, length, map, nat_lt, filter, IfOk, All, AllPairs};
ghost use Rattle.event_body.specs.EventBody.Events as said;
ghost use Rattle.journal.specs.declared.journal.body.Body.{Body};
ghost use Rattle.journal.specs.Journal.Journals.{chosen};
ghost use Rattle.journal.specs.Journal.Logs as logs;
ghost use Rattle.journal_views.specs.JournalViews.Rises.{sn_at};
ghost use Rattle.key_state.specs.Same.{same_prefix};

use cesr_codes::Prefix;
use event_body::Event;
use std::alloc::{AllocError, Global};

/// The numbers of the live events of an identifier among the accepted ones, in order: an event takes the place of
/// those from its number on.
pub fn live(
    alloc: Global,
    events: &[Event],
    accepted: &[u32],
    prefix: &Prefix,
) -> Result<Vec<u32>, AllocError>
    requires { All (λ n. n < length events.now) accepted.now }
    ensures live { (held : List Body) → map (λ b. b.event) held ≡ events.now
        → IfOk result (λ numbers. chosen held numbers.items ≡ logs.live (chosen held accepted.now) prefix.now) }
    ensures held { IfOk result (λ numbers. All (λ n. n < length events.now) numbers.items) }
{
    let mut numbers = Vec::new(alloc);
    for place in 0..accepted.len() {
        let number = accepted[place];
        let event = &events[number as usize];
        if is_of(event, prefix) {
            drop_superseded(events, &mut numbers, event.sn());
            numbers.push(number)?;
        }
    }
    Ok(numbers)
}

// Drops the numbers of the events that one of this number takes the place of: they stand at the end.
fn drop_superseded(events: &[Event], numbers: &mut Vec<u32>, sn: u64)
    requires { AllPairs (λ m n. sn_at events.now m < sn_at events.now n) numbers.old.items }
    ensures { numbers.new.items ≡ filter (λ n. nat_lt (sn_at events.now n) sn) numbers.old.items }
{
    let kept = numbers
        .as_slice()
        .partition_point(|number| is_below(events, *number, sn));
    numbers.truncate(kept);
}

// Whether the event is in the log of the identifier.
fn is_of(event: &Event, prefix: &Prefix) -> bool
    ensures { result ≡ same_prefix (said.prefix_of event.now) prefix.now }
{
    event.prefix() == *prefix
}

// Whether the event of the number stands below a number of its log; none stands at 0.
fn is_below(events: &[Event], number: u32, sn: u64) -> bool
    ensures { result ≡ nat_lt (sn_at events.now number) sn }
{
    let at = match events.get(number as usize) {
        Some(event) => event.sn(),
        None => 0,
    };
    at < sn
}
