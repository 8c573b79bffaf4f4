//! The fields of bodies.
ghost use Rattle.std.specs.Prelude.{◌≡◌};
ghost use Rattle.event_body.specs.BodyFields.Maps.{form_of, name_of};

use crate::body_fields::form::Form;

/// A field behind the version string and the kind. The number `s` is three fields here, by what it may be.
#[derive(Clone, Copy, PartialEq, Eq, Debug)]
pub enum Field {
    /// `d`, the digest.
    Said,
    /// `i`, the identifier.
    Identifier,
    /// `s` of an inception, which is 0.
    First,
    /// `s` of an event that follows another, which isn't 0.
    Later,
    /// `s` of a receipt.
    Any,
    /// `p`, the digest of the event before it.
    Prior,
    /// `kt`, the threshold of the signing keys.
    KeysThreshold,
    /// `k`, the signing keys.
    Keys,
    /// `nt`, the threshold of the next keys.
    NextThreshold,
    /// `n`, the digests of the next keys.
    Next,
    /// `bt`, how many receipts are wanted.
    Toad,
    /// `b`, the witnesses.
    Witnesses,
    /// `br`, the witnesses that are left out.
    Cuts,
    /// `ba`, the witnesses that come to the others.
    Adds,
    /// `c`, the traits.
    Traits,
    /// `a`, seals and other values.
    Anchors,
    /// `di`, the delegator.
    Delegator,
}

impl Field {
    /// The name under which it stands.
    pub fn name(self) -> &'static str
        ensures { result.now ≡ name_of self }
    {
        match self {
            Field::Said => "d",
            Field::Identifier => "i",
            Field::First | Field::Later | Field::Any => "s",
            Field::Prior => "p",
            Field::KeysThreshold => "kt",
            Field::Keys => "k",
            Field::NextThreshold => "nt",
            Field::Next => "n",
            Field::Toad => "bt",
            Field::Witnesses => "b",
            Field::Cuts => "br",
            Field::Adds => "ba",
            Field::Traits => "c",
            Field::Anchors => "a",
            Field::Delegator => "di",
        }
    }

    /// What stands in it.
    pub fn form(self) -> Form
        ensures { result ≡ form_of self }
    {
        match self {
            Field::Said | Field::Prior => Form::Digest,
            Field::Identifier | Field::Delegator => Form::Prefix,
            Field::First => Form::Zero,
            Field::Later => Form::Positive,
            Field::Any | Field::Toad => Form::Number,
            Field::KeysThreshold | Field::NextThreshold => Form::Threshold,
            Field::Keys => Form::Keys,
            Field::Next => Form::Digests,
            Field::Witnesses | Field::Cuts | Field::Adds => Form::FixedKeys,
            Field::Traits => Form::Strings,
            Field::Anchors => Form::Values,
        }
    }
}
