//! Links that were taken.
ghost use Rattle.std.specs.Prelude.{◌≡◌, ◌≤◌, [], length, map, All};
ghost use Rattle.std.specs.Vec.{vec_capacity};
ghost use Rattle.lists.specs.KeriSpecs.Shown.{HasNone};
ghost use Rattle.run_status.specs.DoorLinks.Taken.{AreTaken, IsCaused, IsEnough};

use keri_outside::{Caller, Door};

/// The sources and the sinks of the links that came, in order, and whether the door failed.
#[derive(Drop)]
pub struct Taken<S: Drop, K: Drop> {
    pub sources: Vec<S>,
    pub sinks: Vec<K>,
    pub failed: bool,
}

/// Takes links of a door until as many came as are wanted, it ended or it failed. There is room for them.
pub fn take_links<D: Door>(
    door: &mut D,
    wanted: usize,
    sources: Vec<D::Source>,
    sinks: Vec<D::Sink>,
) -> Taken<D::Source, D::Sink>
    requires no_sources_yet { sources.items ≡ [] }
    requires no_sinks_yet { sinks.items ≡ [] }
    requires room { wanted ≤ vec_capacity sources }
    requires sink_room { wanted ≤ vec_capacity sinks }
    ensures few { length result.sources.items ≤ wanted }
    ensures enough { IsEnough wanted (length result.sources.items) result.failed (D.left door.new) }
    // What the door told is what the links hold, and behind that what is left.
    ensures taken { AreTaken (D.left door.old) (D.left door.new) (map D.Source.left result.sources.items) }
    // It failed only where its count rose.
    ensures cause { IsCaused result.failed (D.faults door.old) (D.faults door.new) }
    ensures source_none_yet { All (λ source. D.Source.faults source ≡ 0) result.sources.items }
    ensures each { length result.sinks.items ≡ length result.sources.items }
    ensures sink_none_yet { All (λ sink. D.Sink.faults sink ≡ 0) result.sinks.items }
    ensures unwritten { All (λ sink. HasNone (D.Sink.written sink)) result.sinks.items }
{
    let mut taken = Taken {
        sources,
        sinks,
        failed: false,
    };
    while taken.sources.len() < wanted {
        match door.next() {
            Ok(Some(Caller { source, sink })) => {
                taken.sources.push(source).unwrap();
                taken.sinks.push(sink).unwrap();
            }
            Ok(None) => return taken,
            Err(_) => {
                taken.failed = true;
                return taken;
            }
        }
    }
    taken
}
