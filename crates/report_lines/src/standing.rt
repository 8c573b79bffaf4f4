//! How an accepted event stands.
ghost use Rattle.std.specs.Prelude.{Some};
ghost use Rattle.report_lines.specs.Words.{standing_word};

use std::fmt;

/// Whether an accepted event is in its log still.
#[derive(Clone, Copy, PartialEq, Eq, Debug)]
pub enum Standing {
    /// It is in the log.
    Live,
    /// A rotation took its place.
    Superseded,
}

impl fmt::Display for Standing {
    ghost output = { λ standing. Some (standing_word standing) };

    fn fmt<W: fmt::Write>(&self, f: &mut fmt::Formatter<W>) -> fmt::Result {
        match self {
            Standing::Live => write!(f, "live"),
            Standing::Superseded => write!(f, "superseded"),
        }
    }
}
