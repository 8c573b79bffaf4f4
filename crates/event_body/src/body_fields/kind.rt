//! The kinds of bodies, and their field maps.
ghost use Rattle.std.specs.Prelude.{◌≡◌, ◌≤◌, length};
ghost use Rattle.event_body.specs.BodyFields.Maps.{fields_of, kind_name};

use crate::body_fields::field::Field;

/// What a body is, as its field `t` says.
#[derive(Clone, Copy, PartialEq, Eq, Debug)]
pub enum Kind {
    /// An inception.
    Icp,
    /// A rotation.
    Rot,
    /// An interaction.
    Ixn,
    /// A delegated inception.
    Dip,
    /// A delegated rotation.
    Drt,
    /// A receipt.
    Rct,
}

impl Kind {
    /// The name that a body writes.
    pub fn name(self) -> &'static str
        ensures { result.now ≡ kind_name self }
    {
        match self {
            Kind::Icp => "icp",
            Kind::Rot => "rot",
            Kind::Ixn => "ixn",
            Kind::Dip => "dip",
            Kind::Drt => "drt",
            Kind::Rct => "rct",
        }
    }

    /// The fields behind the version string and the kind, in order.
    pub fn fields(self) -> &'static [Field]
        ensures map { result.now ≡ fields_of self }
        ensures few { length result.now ≤ 12 }
    {
        match self {
            Kind::Icp => &INCEPTION,
            Kind::Rot | Kind::Drt => &ROTATION,
            Kind::Ixn => &INTERACTION,
            Kind::Dip => &DELEGATED_INCEPTION,
            Kind::Rct => &RECEIPT,
        }
    }
}

const INCEPTION: [Field; 11] = [
    Field::Said,
    Field::Identifier,
    Field::First,
    Field::KeysThreshold,
    Field::Keys,
    Field::NextThreshold,
    Field::Next,
    Field::Toad,
    Field::Witnesses,
    Field::Traits,
    Field::Anchors,
];

const DELEGATED_INCEPTION: [Field; 12] = [
    Field::Said,
    Field::Identifier,
    Field::First,
    Field::KeysThreshold,
    Field::Keys,
    Field::NextThreshold,
    Field::Next,
    Field::Toad,
    Field::Witnesses,
    Field::Traits,
    Field::Anchors,
    Field::Delegator,
];

const ROTATION: [Field; 12] = [
    Field::Said,
    Field::Identifier,
    Field::Later,
    Field::Prior,
    Field::KeysThreshold,
    Field::Keys,
    Field::NextThreshold,
    Field::Next,
    Field::Toad,
    Field::Cuts,
    Field::Adds,
    Field::Anchors,
];

const INTERACTION: [Field; 5] = [
    Field::Said,
    Field::Identifier,
    Field::Later,
    Field::Prior,
    Field::Anchors,
];

const RECEIPT: [Field; 3] = [Field::Said, Field::Identifier, Field::Any];
