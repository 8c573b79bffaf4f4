//! What a run over links hands back of them.
ghost use Rattle.std.specs.Prelude.{◌≡◌, [], None, false};

use std::alloc::Global;

/// The door at which links came, where it was made, their sinks, in order, and whether it failed or couldn't be made.
#[derive(Drop)]
pub(crate) struct DoorEnd<P, K> {
    pub(crate) door: Option<P>,
    pub(crate) sinks: Vec<K>,
    pub(crate) failed: bool,
}

impl<P, K> DoorEnd<P, K> {
    /// That no door was wanted. It takes no memory.
    pub(crate) fn none(alloc: Global) -> DoorEnd<P, K>
        ensures door { result.door ≡ None }
        ensures sinks { result.sinks.items ≡ [] }
        ensures failed { result.failed ≡ false }
    {
        DoorEnd {
            door: None,
            sinks: Vec::new(alloc),
            failed: false,
        }
    }
}
