//! The commands that read links to a core, and write of it.
ghost use Rattle.std.specs.Prelude.{◌≡◌, ◌≤◌, ◌∷◌, [], None, Some, IfOk, IfSome, OnErr, is_none, length, map};
ghost use Rattle.lists.specs.KeriSpecs.Shown.{HasNone};
ghost use Rattle.run_status.specs.RunOutside.Makings.{AreMakings};
ghost use Rattle.run_status.specs.RunOutside.Shown.{making};
ghost use Rattle.run_status.specs.declared.run_outside.making.MakingKind.TheVariants.{Verifier as VerifierKind};
ghost use Rattle.run_status.specs.RunStatus.Readers.{source_seen};
ghost use Rattle.run_status.specs.RunStatus.Status.{nothing_besides};
ghost use Rattle.run_status.specs.RunRecord.NoJournal.{no_journal};
ghost use Rattle.std.specs.Vec.{vec_capacity};
ghost use Rattle.keri_roles.specs.CoreRoles.LinksShown.{IsOverLinks, ProvidesLinks, TakesLinks};
ghost use Rattle.keri_roles.specs.CoreRoles.Work.{links_at};

use crate::core_roles::core_text::CoreText;
use crate::core_roles::outcome::{LinkedOutcome, Outcome};
use crate::core_roles::over_core::outcome_of;
use crate::core_roles::works::Works;
use journal::Mode;
use keri_outside::Door;
use reader_hub::{AnySeats, Providers};
use run_status::{Besides, Outside, Taken, nothing_told, take_links};
use std::alloc::{AllocError, Global};
use std::sync::Wait;
use std::thread::Threads;
use validator_core::Core;

/// What is read to a core: links, each with a verifier of the helper.
#[derive(Clone, Copy)]
pub struct LinkWords<'a> {
    pub helper: &'a str,
    pub address: &'a str,
    pub count: u16,
}

// The door, where it was made, and the links that came at it.
#[derive(Drop)]
struct TakenAt<S: Drop, K: Drop, D> {
    door: Option<D>,
    taken: Taken<S, K>,
}

/// Takes links at a door, and reads them to one core of this mode, each with a verifier of the helper of its own, and makes the text.
/// At `Err` there was no memory to begin with, and nothing was made.
pub(crate) fn over_links<R: Threads + Wait + Sync, O: Outside, T: CoreText>(
    rt: &R,
    alloc: Global,
    mode: Mode,
    text: &T,
    words: LinkWords<'_>,
    outside: &mut O,
) -> Result<LinkedOutcome<O::Source, O::Verifier, O::Door, <O::Door as Door>::Sink>, AllocError>
    requires mode { mode ≡ T.wants }
    requires few { words.count ≤ 64 }
    ensures done { IfOk result (λ linked. IsOverLinks mode (T.is_text text.now) T.finds
        words.entry.helper.now words.entry.address.now words.entry.count
        (⟦<O as Works>⟧.links linked) (⟦<O as Works>⟧.work outside.old outside.new linked.outcome)) }
    ensures none_made { OnErr result (O.shown outside.new ≡ O.shown outside.old) }
    ensures sink { O.sink outside.new ≡ O.sink outside.old }
{
    let LinkWords {
        helper,
        address,
        count,
    } = words;
    let count = usize::from(count);
    let limits = outside.limits();
    let sources = Vec::with_capacity(alloc, count)?;
    let sinks = Vec::with_capacity(alloc, count)?;
    let room = Vec::with_capacity(alloc, count)?;
    let TakenAt { door, taken } = take_at(address, count, sources, sinks, outside);
    let Taken {
        sources,
        sinks,
        failed,
    } = taken;
    let core = Core::new(alloc, mode, limits);
    let outcome = match AnySeats::new(alloc, core, limits, sources.len() as u16) {
        Ok(seats) => {
            let providers = provide_links(sources, helper, room, outside);
            let ran = seats.read(rt, alloc, outside.gate(), providers);
            outcome_of(alloc, text, failed, ran)
        }
        Err(AllocError) => unseated(alloc, failed),
    };
    Ok(LinkedOutcome {
        outcome,
        door,
        sinks,
    })
}

// Makes the door, and takes links at it. There is room for as many as are wanted.
fn take_at<O: Outside>(
    address: &str,
    count: usize,
    sources: Vec<O::Source>,
    sinks: Vec<<O::Door as Door>::Sink>,
    outside: &mut O,
) -> TakenAt<O::Source, <O::Door as Door>::Sink, O::Door>
    requires no_sources_yet { sources.items ≡ [] }
    requires no_sinks_yet { sinks.items ≡ [] }
    requires room { count ≤ vec_capacity sources }
    requires sink_room { count ≤ vec_capacity sinks }
    ensures taken { TakesLinks address.now count
        (map (source_seen O.Source.left O.Source.faults O.Verifier.says O.Verifier.inquiries O.Verifier.faults)
        result.taken.sources.items)
        (links_at O.Door.left O.Door.faults O.Door.Sink.written O.Door.Sink.faults
        result.door result.taken.sinks.items result.taken.failed)
        (O.shown outside.old) (O.shown outside.new) }
    ensures few { length result.taken.sources.items ≤ count }
    ensures sink { O.sink outside.new ≡ O.sink outside.old }
{
    let Ok(mut door) = outside.door(address) else {
        let taken = Taken {
            sources,
            sinks,
            failed: true,
        };
        return TakenAt { door: None, taken };
    };
    let taken = take_links(&mut door, count, sources, sinks);
    TakenAt {
        door: Some(door),
        taken,
    }
}

// Makes a verifier of the helper for each link. There is room for as many.
fn provide_links<O: Outside>(
    sources: Vec<O::Source>,
    helper: &str,
    room: Vec<Providers<O::Source, O::Verifier>>,
    outside: &mut O,
) -> Vec<Providers<O::Source, O::Verifier>>
    requires none_yet { room.items ≡ [] }
    requires room { length sources.items ≤ vec_capacity room }
    ensures provided { ProvidesLinks helper.now
        (map (source_seen O.Source.left O.Source.faults O.Verifier.says O.Verifier.inquiries O.Verifier.faults)
        sources.items)
        (map ⟦<O as Works>⟧.given result.items) (O.shown outside.old) (O.shown outside.new) }
    ensures count { length result.items ≡ length sources.items }
    ensures sink { O.sink outside.new ≡ O.sink outside.old }
{
    let mut providers = room;
    for source in sources {
        let made = provide_link(source, helper, outside);
        providers.push(made).unwrap();
    }
    providers
}

// Makes a verifier of the helper for a link.
fn provide_link<O: Outside>(
    source: O::Source,
    helper: &str,
    outside: &mut O,
) -> Providers<O::Source, O::Verifier>
    ensures source { result.source ≡ Some source }
    ensures makes { AreMakings (making VerifierKind helper.now (is_none result.verifier) ∷ [])
        (O.shown outside.old) (O.shown outside.new) }
    ensures says { IfSome result.verifier (λ verifier.
        O.Verifier.says verifier ≡ (O.shown outside.old).says helper.now) }
    ensures unasked { IfSome result.verifier (λ verifier. HasNone (O.Verifier.inquiries verifier)) }
    ensures unfailed { IfSome result.verifier (λ verifier. O.Verifier.faults verifier ≡ 0) }
    ensures same { (O.shown outside.new).says ≡ (O.shown outside.old).says }
    ensures sink { O.sink outside.new ≡ O.sink outside.old }
{
    let verifier = outside.verifier(helper).ok();
    Providers {
        source: Some(source),
        verifier,
    }
}

// What a command comes to where there is no memory for the readers of the links that came.
fn unseated<S, V>(alloc: Global, failed: bool) -> Outcome<S, V>
    ensures readers { result.readers.items ≡ [] }
    ensures journal { result.journal ≡ no_journal }
    ensures owed { result.owed ≡ None }
    ensures besides { result.besides ≡ record nothing_besides { door_failed = failed } }
{
    Outcome {
        readers: Vec::new(alloc),
        journal: nothing_told(alloc),
        owed: None,
        besides: Besides {
            door_failed: failed,
            ..Besides::nothing()
        },
    }
}
