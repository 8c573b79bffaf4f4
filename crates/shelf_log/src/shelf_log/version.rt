//! Versions of the format.

/// A version of the file's format.
#[derive(Clone, Copy, PartialEq, Eq, Debug)]
pub enum Version {
    /// Payloads are events' bodies.
    One,
    /// Payloads are events' bodies with their signatures.
    Two,
}

impl Version {
    ghost use Rattle.std.specs.Prelude.{◌≡◌, ◌++◌, ◌∷◌, []};
    ghost use Rattle.shelf_log.specs.ShelfLog.Format.{mark, greatest};

    /// The eight bytes at the front of a file.
    pub(crate) fn mark(self) -> [u8; 8]
        ensures { result ≡ mark self }
    {
        match self {
            Version::One => *b"KSHELF01",
            Version::Two => *b"KSHELF02",
        }
    }

    /// The greatest length of a payload, in bytes.
    pub(crate) fn greatest(self) -> usize
        ensures { result ≡ greatest self }
    {
        match self {
            Version::One => 65_535,
            Version::Two => 524_288,
        }
    }

    /// A file without records: the mark and a closed gate.
    pub(crate) fn empty_file(self) -> [u8; 9]
        ensures { result ≡ mark self ++ 0 ∷ [] }
    {
        let [a, b, c, d, e, f, g, h] = self.mark();
        [a, b, c, d, e, f, g, h, 0]
    }
}
