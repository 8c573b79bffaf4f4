//! Links that a witness serves, one after another.
ghost use Rattle.std.specs.Prelude.{◌≡◌, ◌≤◌, [], false, true};
ghost use Rattle.std.specs.Vec.{vec_capacity};
ghost use Rattle.lists.specs.KeriSpecs.Shown.{HasNone};
ghost use Rattle.witness_core.specs.WitnessRole.ServedLinks.{IsServedBy, ServesComingBy};
ghost use Rattle.witness_core.specs.WitnessLink.Closes.{asks_next as asks_next_by};

use crate::witness_link::{LinkEnd, ServiceView, asks_next, serve_link};
use crate::witness_role::links_kept::LinksKept;
use crate::witness_role::viewed::{ServiceOf, Viewed};
use keri_outside::{Caller, Door, Failed, Limits};
use lists::Items;
use run_status::{Outside, ReaderEnd};
use std::alloc::Global;

/// Serves each link that comes at the door, until so many came, none comes any more, the door fails, or a link closes so that the
/// run ends. There is room for them. Answers whether the door failed.
pub(crate) fn serve_coming<O: Outside>(
    alloc: Global,
    count: usize,
    door: &mut O::Door,
    service: &mut ServiceOf<O>,
    limits: Limits,
    kept: &mut LinksKept<O::Source, O::Verifier, <O::Door as Door>::Sink>,
) -> bool
    requires whole { service.old.witness.broken ≡ false }
    requires no_readers { kept.old.readers.items ≡ [] }
    requires no_sinks { kept.old.sinks.items ≡ [] }
    requires readers { count ≤ vec_capacity kept.old.readers }
    requires sinks { count ≤ vec_capacity kept.old.sinks }
    ensures room { vec_capacity kept.new.readers ≡ vec_capacity kept.old.readers }
    ensures serves { ServesComingBy ⟦<O as Viewed>⟧.views ⟦<ServiceOf<O> as ServiceView>⟧.serving limits count result
        door.old door.new service.old service.new kept.new }
    ensures says { O.Verifier.says service.new.verifier ≡ O.Verifier.says service.old.verifier }
    ensures gives { O.Signer.gives service.new.signer ≡ O.Signer.gives service.old.signer }
{
    while kept.readers.len() < count {
        match door.next() {
            Ok(Some(caller)) => {
                let Served { reader, sink } = serve_one::<O>(alloc, caller, service, limits);
                let asks_next = asks_next(reader.close);
                kept.readers.push_reserved(reader);
                kept.sinks.push_reserved(sink);
                if !asks_next {
                    return false;
                }
            }
            Ok(None) => return false,
            Err(Failed) => return true,
        }
    }
    false
}

// A link that was served: its reader, without the verifier, and its sink.
#[derive(Drop)]
struct Served<S, V, K> {
    reader: ReaderEnd<S, V>,
    sink: K,
}

// Serves a link.
fn serve_one<O: Outside>(
    alloc: Global,
    caller: Caller<O::Source, <O::Door as Door>::Sink>,
    service: &mut ServiceOf<O>,
    limits: Limits,
) -> Served<O::Source, O::Verifier, <O::Door as Door>::Sink>
    requires whole { service.old.witness.broken ≡ false }
    requires source_unfailed { O.Source.faults caller.source ≡ 0 }
    requires sink_unfailed { O.Door.Sink.faults caller.sink ≡ 0 }
    requires unwritten { HasNone (O.Door.Sink.written caller.sink) }
    ensures serves { IsServedBy ⟦<O as Viewed>⟧.views ⟦<ServiceOf<O> as ServiceView>⟧.serving limits
        (O.Source.left caller.source) result.reader result.sink service.old service.new }
    ensures whole { asks_next_by result.reader.close ≡ true → service.new.witness.broken ≡ false }
    ensures key { service.new.witness.key ≡ service.old.witness.key }
    ensures limits { service.new.witness.limits ≡ service.old.witness.limits }
    ensures says { O.Verifier.says service.new.verifier ≡ O.Verifier.says service.old.verifier }
    ensures gives { O.Signer.gives service.new.signer ≡ O.Signer.gives service.old.signer }
{
    let Caller {
        mut source,
        mut sink,
    } = caller;
    let LinkEnd {
        refused,
        seen,
        close,
    } = serve_link(alloc, service, &mut source, &mut sink, limits);
    let reader = ReaderEnd {
        source: Some(source),
        verifier: None,
        refused,
        seen: Items::from_vec(seen),
        close,
    };
    Served { reader, sink }
}
