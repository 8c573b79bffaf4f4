//! The keys of the hints.
ghost use Rattle.std.specs.Prelude.{◌≡◌};
ghost use Rattle.validator_core.specs.Tables.Names as names;
ghost use Rattle.validator_core.specs.Tables.Rows.{same_name};

use cesr_codes::{Digest, Prefix};
use event_body::Event;
use journal::Claim;

/// An event's identifier, number and digest, as an event seal names it (KERI). Names are ordered by their numbers first: those of
/// one log, among which names are mostly looked for, differ there.
#[derive(Clone, Copy, PartialEq, Eq, PartialOrd, Ord, Debug)]
pub struct Name {
    pub sn: u64,
    pub said: Digest,
    pub prefix: Prefix,
}

/// A name that the controller of an identifier sealed.
#[derive(Clone, Copy, PartialEq, Eq, PartialOrd, Ord, Debug)]
pub struct SealKey {
    pub name: Name,
    pub holder: Prefix,
}

/// A claim that came with the body of a number.
#[derive(Clone, Copy, PartialEq, Eq, PartialOrd, Ord, Debug)]
pub struct ClaimKey {
    pub body: u32,
    pub claim: Claim,
}

/// The name of an event; of a receipt, that of the event that it speaks of.
pub fn name_of(event: &Event) -> Name
    ensures { result ≡ names.name_of event.now }
{
    Name {
        prefix: event.prefix(),
        sn: event.sn(),
        said: event.said(),
    }
}

/// Whether an event has the name.
pub(crate) fn has_name(event: &Event, name: &Name) -> bool
    ensures { result ≡ same_name (names.name_of event.now) name.now }
{
    event.prefix() == name.prefix && event.sn() == name.sn && event.said() == name.said
}

/// The name of the event before it, where it names one.
pub fn prior_name(event: &Event) -> Option<Name>
    ensures { result ≡ names.prior_name event.now }
{
    let prior = event.prior()?;
    Some(Name {
        prefix: event.prefix(),
        sn: event.sn().saturating_sub(1),
        said: prior,
    })
}
