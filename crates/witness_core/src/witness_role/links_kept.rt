//! What is kept of links that are served.
ghost use Rattle.std.specs.Prelude.{◌≡◌, ◌≤◌, ◌<◌, [], None, Some, map, IfOk};
ghost use Rattle.std.specs.Vec.{vec_capacity};
ghost use Rattle.run_status.specs.RunStatus.Readers.{reader_seen, verifier_seen};
ghost use Rattle.witness_core.specs.WitnessRole.ServedLinks.{readers_with};

use keri_outside::{Source, Verifier};
use lists::Items;
use run_status::{Close, ReaderEnd};
use std::alloc::{AllocError, Global};

/// The readers and the sinks of links, in order.
#[derive(Drop)]
pub(crate) struct LinksKept<S, V, K> {
    pub(crate) readers: Vec<ReaderEnd<S, V>>,
    pub(crate) sinks: Vec<K>,
}

/// Room for so many links, where there is room for one reader already.
pub(crate) fn room_for<S: Drop, V: Drop, K: Drop>(
    alloc: Global,
    readers: Vec<ReaderEnd<S, V>>,
    count: usize,
) -> Result<LinksKept<S, V, K>, AllocError>
    requires none_yet { readers.items ≡ [] }
    requires room { 0 < vec_capacity readers }
    ensures no_readers { IfOk result (λ kept. kept.readers.items ≡ []) }
    ensures no_sinks { IfOk result (λ kept. kept.sinks.items ≡ []) }
    ensures readers { IfOk result (λ kept. count ≤ vec_capacity kept.readers) }
    ensures sinks { IfOk result (λ kept. count ≤ vec_capacity kept.sinks) }
    ensures one { IfOk result (λ kept. 0 < vec_capacity kept.readers) }
{
    let mut readers = readers;
    readers.reserve(count)?;
    let sinks = Vec::with_capacity(alloc, count)?;
    Ok(LinksKept { readers, sinks })
}

/// The end of a reader that reads nothing. It takes no memory.
pub(crate) fn unserved<S, V>(
    alloc: Global,
    source: Option<S>,
    verifier: Option<V>,
    close: Close,
) -> ReaderEnd<S, V>
    ensures source { result.source ≡ source }
    ensures verifier { result.verifier ≡ verifier }
    ensures none_refused { result.refused.items ≡ [] }
    ensures none_seen { result.seen ≡ [] }
    ensures close { result.close ≡ close }
{
    ReaderEnd {
        source,
        verifier,
        refused: Vec::new(alloc),
        seen: Items::new(alloc),
        close,
    }
}

/// The readers of links with the one verifier, which stands in the first, also where no link came. There is room for one.
pub(crate) fn with_verifier<S: Source, V: Verifier + Drop>(
    alloc: Global,
    verifier: V,
    readers: Vec<ReaderEnd<S, V>>,
) -> Vec<ReaderEnd<S, V>>
    requires room { 0 < vec_capacity readers }
    ensures { map (reader_seen S.left S.faults V.says V.inquiries V.faults) result.items
        ≡ readers_with (verifier_seen S.left S.faults V.says V.inquiries V.faults verifier)
        (map (reader_seen S.left S.faults V.says V.inquiries V.faults) readers.items) }
{
    let mut readers = readers;
    if readers.is_empty() {
        readers.push_reserved(unserved(alloc, None, Some(verifier), Close::End));
    } else {
        readers[0].verifier = Some(verifier);
    }
    readers
}
