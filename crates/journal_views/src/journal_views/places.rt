//! The order of bodies by their places, and within a place by their bytes.
ghost use Rattle.std.specs.Prelude.{◌≡◌, Some, map, slice_get, IfOk};
ghost use Rattle.std.specs.Cmp.Lexicographic.{slice_cmp};
ghost use Rattle.cesr_codes.specs.Spelling.{prefix_text};
ghost use Rattle.event_body.specs.EventBody.Events as said;
ghost use Rattle.journal.specs.Journal.Conflicts as conflicts;
ghost use Rattle.journal.specs.Journal.Conflicts.{text_cmp, prior_text};
ghost use Rattle.journal_views.specs.JournalViews.Rankings.{event_cmp, listed, log_cmp, number_place, of_event, spelled_cmp};

use cesr_codes::{Digest, Prefix};
use event_body::Event;
use json_tree::Text;
use std::alloc::{AllocError, Global};
use std::cmp::Ordering;

/// How the bodies of two numbers are ordered, by the texts of the events' identifiers; the numbers of one body by themselves, and
/// those of none first.
#[tactic(auto, unfolding(crate::specs::JournalViews::Rankings::spelled_cmp))]
pub(crate) fn number_order(
    texts: &[[u8; 44]],
    bodies: &[Text],
    events: &[Event],
    first: u32,
    second: u32,
) -> Ordering
    ensures { result ≡ spelled_cmp texts.now bodies.now events.now first second }
{
    let by_log = match text_order(texts, first, second) {
        Ordering::Equal => log_order(events, first, second),
        order => order,
    };
    let by_body = match by_log {
        Ordering::Equal => bytes_order(bodies, first, second),
        order => order,
    };
    by_body.then(first.cmp(&second))
}

/// The texts of the identifiers of events.
pub(crate) fn prefix_texts(alloc: Global, events: &[Event]) -> Result<Vec<[u8; 44]>, AllocError>
    ensures { IfOk result (λ texts. texts.items ≡ map (λ e. prefix_text (said.prefix_of e)) events.now) }
{
    let mut texts = Vec::with_capacity(alloc, events.len())?;
    for event in events {
        texts.push(text_of(event.prefix()))?;
    }
    Ok(texts)
}

// The text of a prefix.
fn text_of(prefix: Prefix) -> [u8; 44]
    ensures { result ≡ prefix_text prefix }
{
    let mut text = [0; 44];
    prefix.write(&mut text);
    text
}

// By the texts of the identifiers.
fn text_order(texts: &[[u8; 44]], first: u32, second: u32) -> Ordering
    ensures { result ≡ slice_cmp text_cmp (listed (slice_get texts.now first)) (listed (slice_get texts.now second)) }
{
    match (texts.get(first as usize), texts.get(second as usize)) {
        (Some(first), Some(second)) => first.as_slice().cmp(second.as_slice()),
        (None, Some(_)) => Ordering::Less,
        (Some(_), None) => Ordering::Greater,
        (None, None) => Ordering::Equal,
    }
}

// By the places of the events in a log.
fn log_order(events: &[Event], first: u32, second: u32) -> Ordering
    ensures { result ≡ slice_cmp log_cmp (listed (slice_get events.now first)) (listed (slice_get events.now second)) }
{
    match (events.get(first as usize), events.get(second as usize)) {
        (Some(first), Some(second)) => order_in_log(first, second),
        (None, Some(_)) => Ordering::Less,
        (Some(_), None) => Ordering::Greater,
        (None, None) => Ordering::Equal,
    }
}

/// By the places of the events.
pub(crate) fn event_order(events: &[Event], first: u32, second: u32) -> Ordering
    ensures { result ≡ number_place events.now first second }
{
    match (events.get(first as usize), events.get(second as usize)) {
        (Some(first), Some(second)) => place_order(first, second),
        (None, Some(_)) => Ordering::Less,
        (Some(_), None) => Ordering::Greater,
        (None, None) => Ordering::Equal,
    }
}

// By the bytes of the bodies.
fn bytes_order(bodies: &[Text], first: u32, second: u32) -> Ordering
    ensures { result ≡ slice_cmp text_cmp (listed (slice_get bodies.now first)) (listed (slice_get bodies.now second)) }
{
    match (bodies.get(first as usize), bodies.get(second as usize)) {
        (Some(first), Some(second)) => first.as_slice().cmp(second.as_slice()),
        (None, Some(_)) => Ordering::Less,
        (Some(_), None) => Ordering::Greater,
        (None, None) => Ordering::Equal,
    }
}

// How places are ordered: by the text of the identifier, the number, the text of the digest of the event before
// (none first), and establishment events before interactions.
#[tactic(auto, unfolding(journal::specs::Journal::Conflicts::place_cmp))]
fn place_order(first: &Event, second: &Event) -> Ordering
    ensures { result ≡ event_cmp first.now second.now }
{
    match prefix_order(first.prefix(), second.prefix()) {
        Ordering::Equal => order_in_log(first, second),
        order => order,
    }
}

// How places of one identifier are ordered.
fn order_in_log(first: &Event, second: &Event) -> Ordering
    ensures { result ≡ log_cmp first.now second.now }
{
    match first.sn().cmp(&second.sn()) {
        Ordering::Equal => prior_order(first.prior(), second.prior()).then(sort_of(first).cmp(
            &sort_of(second),
        )),
        order => order,
    }
}

// Bodies mostly come log by log, so the texts of one prefix aren't spelled.
fn prefix_order(first: Prefix, second: Prefix) -> Ordering
    ensures { result ≡ text_cmp (prefix_text first) (prefix_text second) }
{
    if first == second {
        return Ordering::Equal;
    }
    let mut first_text = [0; 44];
    let mut second_text = [0; 44];
    first.write(&mut first_text);
    second.write(&mut second_text);
    first_text.cmp(&second_text)
}

fn prior_order(first: Option<Digest>, second: Option<Digest>) -> Ordering
    ensures { result ≡ text_cmp (prior_text first) (prior_text second) }
{
    match (first, second) {
        (Some(first), Some(second)) => digest_order(first, second),
        (None, Some(_)) => Ordering::Less,
        (Some(_), None) => Ordering::Greater,
        (None, None) => Ordering::Equal,
    }
}

fn digest_order(first: Digest, second: Digest) -> Ordering
    ensures { result ≡ text_cmp (prior_text (Some first)) (prior_text (Some second)) }
{
    let mut first_text = [0; 44];
    let mut second_text = [0; 44];
    first.write(&mut first_text);
    second.write(&mut second_text);
    first_text.cmp(&second_text)
}

// 0 for an establishment event, 1 for an interaction.
fn sort_of(event: &Event) -> u8
    ensures { result ≡ conflicts.sort_of (of_event event.now) }
{
    if matches!(event, Event::Ixn(_)) { 1 } else { 0 }
}
