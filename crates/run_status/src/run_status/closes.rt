//! How the readers of a run ended.
ghost use Rattle.std.specs.Prelude.{◌≡◌};
ghost use Rattle.std.specs.List.{list_any};
ghost use Rattle.run_status.specs.RunStatus.Readers.{close_found};
ghost use Rattle.run_status.specs.RunStatus.RunEnds.{refuses, saw_another};

use crate::run_status::{Close, ReaderEnd};

/// Whether some reader closed by a fault of its source.
pub(crate) fn some_read_fault<S, V>(readers: &[ReaderEnd<S, V>]) -> bool
    ensures { result ≡ list_any (λ end. (close_found end.close).source_failed) readers.now }
{
    readers
        .iter()
        .any(|reader| reader.close == Close::ReadFault)
}

/// Whether some reader closed by a fault of its verifier.
pub(crate) fn some_verifier_fault<S, V>(readers: &[ReaderEnd<S, V>]) -> bool
    ensures { result ≡ list_any (λ end. (close_found end.close).verifier_failed) readers.now }
{
    readers
        .iter()
        .any(|reader| reader.close == Close::VerifierFault)
}

/// Whether some reader closed by a fault of the signer.
pub(crate) fn some_signer_fault<S, V>(readers: &[ReaderEnd<S, V>]) -> bool
    ensures { result ≡ list_any (λ end. (close_found end.close).signer_failed) readers.now }
{
    readers
        .iter()
        .any(|reader| reader.close == Close::SignerFault)
}

/// Whether some reader closed by a fault of the disk.
pub(crate) fn some_disk_fault<S, V>(readers: &[ReaderEnd<S, V>]) -> bool
    ensures { result ≡ list_any (λ end. (close_found end.close).disk_failed) readers.now }
{
    readers
        .iter()
        .any(|reader| reader.close == Close::DiskFault)
}

/// Whether some reader closed by a fault of the sink.
pub(crate) fn some_write_fault<S, V>(readers: &[ReaderEnd<S, V>]) -> bool
    ensures { result ≡ list_any (λ end. (close_found end.close).sink_failed) readers.now }
{
    readers
        .iter()
        .any(|reader| reader.close == Close::WriteFault)
}

/// Whether some reader closed by a limit.
pub(crate) fn some_full<S, V>(readers: &[ReaderEnd<S, V>]) -> bool
    ensures { result ≡ list_any (λ end. (close_found end.close).limit_reached) readers.now }
{
    readers
        .iter()
        .any(|reader| reader.close == Close::LimitReached)
}

/// Whether to some reader an event came for a place at which another one is stored.
pub(crate) fn some_saw_another<S, V>(readers: &[ReaderEnd<S, V>]) -> bool
    ensures { result ≡ list_any (λ end. saw_another end.seen) readers.now }
{
    readers.iter().any(|reader| reader.saw_another())
}

/// Whether some reader refused its stream or a message.
pub(crate) fn some_refused<S, V>(readers: &[ReaderEnd<S, V>]) -> bool
    ensures { result ≡ list_any (λ end. refuses end.close end.refused.items) readers.now }
{
    readers.iter().any(|reader| reader.is_refused())
}
