//! Events.
ghost use Rattle.std.specs.Prelude.{◌≡◌};
ghost use Rattle.event_body.specs.EventBody.Events as events;
ghost use Rattle.event_body.specs.EventBody.Spelling.{body_kind};

use crate::body_fields::Kind;
use crate::event_body::{Inception, Interaction, ReceiptBody, Rotation};
use cesr_codes::{Digest, Prefix};
use json_tree::Tree;
use lists::CopyValue;
use std::alloc::{AllocError, Global};

/// What a body says, by its kind: `icp`, `rot`, `ixn`, `dip`, `drt` or `rct`.
#[derive(Drop, PartialEq, Debug)]
pub enum Event {
    Icp(Inception),
    Rot(Rotation),
    Ixn(Interaction),
    Dip(Inception),
    Drt(Rotation),
    Rct(ReceiptBody),
}

impl Event {
    /// The kind, as a body writes it.
    pub fn kind(&self) -> &'static str
        ensures { result.now ≡ events.kind_of self.now }
    {
        match self {
            Event::Icp(_) => "icp",
            Event::Rot(_) => "rot",
            Event::Ixn(_) => "ixn",
            Event::Dip(_) => "dip",
            Event::Drt(_) => "drt",
            Event::Rct(_) => "rct",
        }
    }

    /// The kind of its body.
    pub(crate) fn body_kind(&self) -> Kind
        ensures { result ≡ body_kind self.now }
    {
        match self {
            Event::Icp(_) => Kind::Icp,
            Event::Rot(_) => Kind::Rot,
            Event::Ixn(_) => Kind::Ixn,
            Event::Dip(_) => Kind::Dip,
            Event::Drt(_) => Kind::Drt,
            Event::Rct(_) => Kind::Rct,
        }
    }

    /// The identifier in whose log it stands, or which a receipt speaks of.
    pub fn prefix(&self) -> Prefix
        ensures { result ≡ events.prefix_of self.now }
    {
        match self {
            Event::Icp(event) | Event::Dip(event) => event.prefix,
            Event::Rot(event) | Event::Drt(event) => event.prefix,
            Event::Ixn(event) => event.prefix,
            Event::Rct(receipt) => receipt.prefix,
        }
    }

    /// The sequence number: 0 for an inception, and for a receipt that of the event it speaks of.
    pub fn sn(&self) -> u64
        ensures { result ≡ events.sn_of self.now }
    {
        match self {
            Event::Icp(_) | Event::Dip(_) => 0,
            Event::Rot(event) | Event::Drt(event) => event.sn,
            Event::Ixn(event) => event.sn,
            Event::Rct(receipt) => receipt.sn,
        }
    }

    /// The digest of the event, or for a receipt of the event it speaks of.
    pub fn said(&self) -> Digest
        ensures { result ≡ events.said_of self.now }
    {
        match self {
            Event::Icp(event) | Event::Dip(event) => event.said,
            Event::Rot(event) | Event::Drt(event) => event.said,
            Event::Ixn(event) => event.said,
            Event::Rct(receipt) => receipt.said,
        }
    }

    /// The digest of the event before it, where it names one.
    pub fn prior(&self) -> Option<Digest>
        ensures { result ≡ events.prior_of self.now }
    {
        match self {
            Event::Rot(event) | Event::Drt(event) => Some(event.prior),
            Event::Ixn(event) => Some(event.prior),
            Event::Icp(_) | Event::Dip(_) | Event::Rct(_) => None,
        }
    }

    /// The seals and other values that it anchors; a receipt anchors none.
    pub fn anchors(&self) -> &[Tree]
        ensures { result.now ≡ events.anchors_of self.now }
    {
        match self {
            Event::Icp(event) | Event::Dip(event) => event.anchors.as_slice(),
            Event::Rot(event) | Event::Drt(event) => event.anchors.as_slice(),
            Event::Ixn(event) => event.anchors.as_slice(),
            Event::Rct(_) => &[],
        }
    }

    /// Whether it is the first event of an identifier.
    pub fn is_inception(&self) -> bool
        ensures { result ≡ events.is_inception self.now }
    {
        matches!(self, Event::Icp(_) | Event::Dip(_))
    }

    /// Whether it is a later event that sets the keys.
    pub fn is_rotation(&self) -> bool
        ensures { result ≡ events.is_rotation self.now }
    {
        matches!(self, Event::Rot(_) | Event::Drt(_))
    }

    /// Whether it is an interaction, which leaves the keys as they are.
    pub fn is_interaction(&self) -> bool
        ensures { result ≡ events.is_interaction self.now }
    {
        matches!(self, Event::Ixn(_))
    }

    /// Whether it sets the keys: an inception or a rotation.
    pub fn is_establishment(&self) -> bool
        ensures { result ≡ events.is_establishment self.now }
    {
        self.is_inception() || self.is_rotation()
    }

    /// Whether it wants the seal of a delegator.
    pub fn is_delegated(&self) -> bool
        ensures { result ≡ events.is_delegated self.now }
    {
        matches!(self, Event::Dip(_) | Event::Drt(_))
    }

    /// Whether it is a receipt, and so no event of a log.
    pub fn is_receipt(&self) -> bool
        ensures { result ≡ events.is_receipt self.now }
    {
        matches!(self, Event::Rct(_))
    }

    /// Whether a placeholder stands for the prefix too when the digest is computed: in an inception whose prefix is a digest.
    pub(crate) fn hides_prefix(&self) -> bool
        ensures { result ≡ events.hides_prefix self.now }
    {
        match self {
            Event::Icp(event) | Event::Dip(event) => matches!(event.prefix, Prefix::Said(_)),
            Event::Rot(_) | Event::Ixn(_) | Event::Drt(_) | Event::Rct(_) => false,
        }
    }
}

impl CopyValue for Event {
    fn copy(&self, alloc: Global) -> Result<Event, AllocError> {
        match self {
            Event::Icp(event) => Ok(Event::Icp(event.copy(alloc)?)),
            Event::Rot(event) => Ok(Event::Rot(event.copy(alloc)?)),
            Event::Ixn(event) => Ok(Event::Ixn(event.copy(alloc)?)),
            Event::Dip(event) => Ok(Event::Dip(event.copy(alloc)?)),
            Event::Drt(event) => Ok(Event::Drt(event.copy(alloc)?)),
            Event::Rct(receipt) => Ok(Event::Rct(*receipt)),
        }
    }
}
