//! Who has signed.
ghost use Rattle.std.specs.Prelude.{◌≡◌, ◌==◌};
ghost use Rattle.std.specs.List.{list_any};

/// Whether the index is among these.
pub(crate) fn has_index(indices: &[u16], index: usize) -> bool
    ensures { result ≡ list_any (λ i. i == index) indices.now }
{
    indices.iter().any(|i| usize::from(*i) == index)
}
