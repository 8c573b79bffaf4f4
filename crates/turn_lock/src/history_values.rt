//! Values that stand for a history.
ghost use Rattle.std.specs.Prelude.{◌≡◌, ℕ, List, length};

/// A value that stands for a list of entries, its history. Each entry names a number, that of the pass whose turn
/// appended it. The value has a head besides, which no turn changes.
pub trait Replayed {
    type Entry;

    type Head;

    ghost entries: { Self → List Self.Entry };

    ghost head: { Self → Self.Head };

    ghost names: { Self.Entry → ℕ };

    /// How many entries there are.
    fn count(&self) -> u64
        ensures { result ≡ length (entries self.now) };
}
