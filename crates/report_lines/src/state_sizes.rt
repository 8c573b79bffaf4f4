//! The sizes of a key state.
ghost use Rattle.std.specs.Prelude.{Some};
ghost use Rattle.report_lines.specs.Lines.{state_sizes_text};

use std::fmt;

/// How many keys and witnesses a key state has, and how many receipts it asks for (its threshold of accountable
/// duplicity).
#[derive(Clone, Copy, PartialEq, Eq, Debug)]
pub struct StateSizes {
    pub keys: usize,
    pub witnesses: usize,
    pub toad: u64,
}

impl fmt::Display for StateSizes {
    ghost output = { λ sizes. Some (state_sizes_text sizes) };

    fn fmt<W: fmt::Write>(&self, f: &mut fmt::Formatter<W>) -> fmt::Result {
        let StateSizes {
            keys,
            witnesses,
            toad,
        } = *self;
        write!(f, "keys={keys} witnesses={witnesses} toad={toad}")
    }
}
