//! Numbers that the values of fields spell.
ghost use Rattle.std.specs.Prelude.{◌≡◌};
ghost use Rattle.event_body.specs.BodyFields.Forms.{IsOfForm, number_value};
ghost use Rattle.event_body.specs.EventBody.Rules.{HasFewDigits};

use crate::body_fields::{Form, number_in};
use json_tree::Tree;
use lists::hex_value;

/// The number that the value spells.
pub(crate) fn number(value: &Tree) -> u64
    requires form { IsOfForm Form.Number value.now }
    requires few { HasFewDigits value.now }
    ensures { value.now ≡ number_value result }
{
    hex_value(number_in(value))
}

/// The number that the value spells, where that isn't 0.
pub(crate) fn later_number(value: &Tree) -> u64
    requires form { IsOfForm Form.Positive value.now }
    requires few { HasFewDigits value.now }
    ensures { value.now ≡ number_value result }
{
    number(value)
}
