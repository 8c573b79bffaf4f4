//! The support of an event by the table of claims.
ghost use Rattle.validator_core.specs.Acceptance.Parts.{has_in};

use claim_table::ClaimTable;
use journal::Support;

/// What the rows of a table add up to of the event of a number.
#[derive(Drop)]
pub(crate) struct RowSupport<'a> {
    pub(crate) claims: &'a ClaimTable,
    pub(crate) number: u32,
}

impl<'a> Support for RowSupport<'a> {
    ghost has = { λ s. has_in s.claims.now.rows s.number };

    fn has_index(&self, index: u16) -> bool {
        self.claims.has_index(self.number, index)
    }

    fn reveals(&self, place: u16) -> bool {
        self.claims.reveals(self.number, place)
    }

    fn backs(&self, place: u16) -> bool {
        self.claims.has_backer(self.number, place)
    }

    fn most_backers(&self) -> u64 {
        self.claims.backer_count(self.number) as u64
    }
}
