//! Rows of the table.
ghost use Rattle.std.specs.Prelude.{◌≡◌};
ghost use Rattle.claim_table.specs.ClaimTable.Rows.{is_yes};

use crate::claim_table::claimed::Claimed;

/// A claim, with the verdict on its signature where one was heard.
#[derive(Clone, Copy, PartialEq, Eq, Debug)]
pub struct Row {
    pub claimed: Claimed,
    pub verdict: Option<bool>,
}

impl Row {
    /// Whether a yes was heard.
    pub fn has_yes(&self) -> bool
        ensures { result ≡ is_yes self.now.verdict }
    {
        self.verdict == Some(true)
    }
}
