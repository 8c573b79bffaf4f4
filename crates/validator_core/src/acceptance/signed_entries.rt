//! Which index or commitment the claims of some entries bring.
ghost use Rattle.std.specs.Prelude.{◌≡◌};
ghost use Rattle.std.specs.List.{list_any};
ghost use Rattle.claim_table.specs.ClaimTable.Rows.{has_yes_by};
ghost use Rattle.validator_core.specs.Acceptance.Entries.{says_in, yes_of};
ghost use Rattle.validator_core.specs.Acceptance.EntrySupports.{is_opened_in, is_signed_in};

use crate::acceptance::entry_support::EntrySupport;
use cesr_codes::{Key, Sig};
use claim_table::{ClaimTable, Signature};
use journal::{ClaimSupport, Support, Verdicts};

/// Whether a good signature among the claims of some entry has the index.
pub(crate) fn is_signed(support: &EntrySupport, index: u16) -> bool
    ensures { result ≡ list_any (is_signed_in support.now index) support.now.entries.now }
{
    support
        .entries
        .iter()
        .any(|entry| is_signed_by(support, *entry, index))
}

/// Whether a good signature among the claims of some entry opens the commitment at a place.
pub(crate) fn is_opened(support: &EntrySupport, place: u16) -> bool
    ensures { result ≡ list_any (is_opened_in support.now place) support.now.entries.now }
{
    support
        .entries
        .iter()
        .any(|entry| is_opened_by(support, *entry, place))
}

// Whether a good signature among the claims of an entry has the index.
fn is_signed_by(support: &EntrySupport, entry: u32, index: u16) -> bool
    ensures { result ≡ is_signed_in support.now index entry }
{
    let verdicts = Verdict {
        claims: support.tables.claims(),
        number: support.number,
    };
    let claims = ClaimSupport {
        verdicts: &verdicts,
        claims: support.tables.claims_by(entry, support.number),
        state: support.state,
        event: support.event,
    };
    claims.has_index(index)
}

// Whether a good signature among the claims of an entry opens the commitment at a place.
fn is_opened_by(support: &EntrySupport, entry: u32, place: u16) -> bool
    ensures { result ≡ is_opened_in support.now place entry }
{
    let verdicts = Verdict {
        claims: support.tables.claims(),
        number: support.number,
    };
    let claims = ClaimSupport {
        verdicts: &verdicts,
        claims: support.tables.claims_by(entry, support.number),
        state: support.state,
        event: support.event,
    };
    claims.reveals(place)
}

// The verdicts of a table on the event of a number.
#[derive(Drop)]
struct Verdict<'a> {
    claims: &'a ClaimTable,
    number: u32,
}

impl<'a> Verdicts for Verdict<'a> {
    ghost says = { λ v. says_in v.claims.now.rows v.number };

    ghost backs = { λ v. has_yes_by v.claims.now.rows v.number };

    fn says_yes(&self, key: &Key, sig: &Sig) -> bool {
        let signature = Signature {
            body: self.number,
            key: *key,
            sig: *sig,
        };
        is_yes(self.claims.verdict(&signature))
    }

    fn is_backed_by(&self, key: &Key) -> bool {
        self.claims.has_yes_by(self.number, key)
    }
}

// Whether it is a verdict of yes.
fn is_yes(verdict: Option<Option<bool>>) -> bool
    ensures { result ≡ yes_of verdict }
{
    match verdict {
        Some(Some(yes)) => yes,
        Some(None) | None => false,
    }
}
