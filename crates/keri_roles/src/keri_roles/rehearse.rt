//! `rehearse`: answers the questions on standard input by the rehearsal.
ghost use Rattle.std.specs.Prelude.{◌≡◌, ◌<◌, [], codes};
ghost use Rattle.std.specs.Vec.{vec_capacity};
ghost use Rattle.verifier_link.specs.Serving.{IsServed};
ghost use Rattle.keri_roles.specs.KeriRoles.Rehearsed.{IsRehearsed, ServesInput};
ghost use Rattle.keri_roles.specs.KeriRoles.Rehearsed as specs;
ghost use Rattle.keri_roles.specs.CoreRoles.Work.{MakesSource};

use crate::keri_roles::serves::Serves;
use crate::keri_roles::{Close, Done, ReaderEnd, Runs};
use keri_outside::{Failed, Limits};
use lists::Items;
use run_status::{Outside, nothing_told};
use std::alloc::Global;
use verifier_link::{Served, serve_rehearsal};

/// Serves standard input until it ends. The readers have room for the one that there is.
pub(crate) fn rehearse<O: Outside>(
    alloc: Global,
    readers: Vec<ReaderEnd<O::Source, O::Verifier>>,
    outside: &mut O,
) -> Done<O>
    requires none_yet { readers.items ≡ [] }
    requires room { 0 < vec_capacity readers }
    ensures rehearsed { IsRehearsed (⟦<O as Runs>⟧.run outside.old outside.new result) }
    ensures no_second { result.second ≡ None }
{
    let mut readers = readers;
    let limits = outside.limits();
    let (source, served) = serve_input(alloc, limits, outside);
    let end = ReaderEnd {
        source,
        verifier: None,
        refused: Vec::new(alloc),
        seen: Items::new(alloc),
        close: serving_close(served),
    };
    readers.push(end).unwrap();
    Done {
        status: serving_status(served),
        journal: nothing_told(alloc),
        readers,
        signer: None,
        disk: None,
        old: None,
        door: None,
        sinks: Vec::new(alloc),
        second: None,
    }
}

// Opens standard input and serves it, where it could be opened.
fn serve_input<O: Outside>(
    alloc: Global,
    limits: Limits,
    outside: &mut O,
) -> (Option<O::Source>, Served)
    ensures makes { MakesSource (codes "-") result.0 (O.shown outside.old) (O.shown outside.new) }
    ensures serves { ServesInput limits (⟦<O as Serves>⟧.serving outside.old outside.new result.0) result.1 }
{
    match outside.source("-") {
        Ok(source) => {
            let mut source = source;
            let served = serve(alloc, &mut source, limits, outside);
            (Some(source), served)
        }
        Err(Failed) => (None, Served::ReadFault),
    }
}

// Serves the source, and writes to the sink of the outside.
fn serve<O: Outside>(
    alloc: Global,
    source: &mut O::Source,
    limits: Limits,
    outside: &mut O,
) -> Served
    ensures serves { IsServed limits.stream_bytes (⟦<O as Serves>⟧.sides source.old outside.old)
        (⟦<O as Serves>⟧.sides source.new outside.new) result }
    ensures shown { O.shown outside.new ≡ O.shown outside.old }
{
    serve_rehearsal(alloc, source, outside.out(), limits)
}

// The end of serving as a reader's close.
fn serving_close(served: Served) -> Close
    ensures { result ≡ specs.serving_close served }
{
    match served {
        Served::End => Close::End,
        Served::Malformed(place) => Close::Malformed(place),
        Served::ReadFault => Close::ReadFault,
        Served::WriteFault => Close::WriteFault,
        Served::LimitReached => Close::LimitReached,
        Served::OutOfMemory => Close::OutOfMemory,
    }
}

// The status by how the serving ended.
fn serving_status(served: Served) -> u8
    ensures { result ≡ specs.serving_status served }
{
    match served {
        Served::End => 0,
        Served::Malformed(_) => 3,
        Served::ReadFault => 5,
        Served::WriteFault => 6,
        Served::LimitReached => 9,
        Served::OutOfMemory => 10,
    }
}
