//! The two parts round a byte.
ghost use Rattle.std.specs.Prelude.{◌≡◌, ◌==◌, ◌≤◌, IfSome, IfNone, length, position};
ghost use Rattle.std.specs.List.{position_or_len};
ghost use Rattle.controller_core.specs.PlanText.Lines.{Splits};

/// What stands before the first such byte, and what behind it.
pub(crate) fn split(bytes: &[u8], separator: u8) -> Option<(&[u8], &[u8])>
    ensures some { IfSome result (λ r. Splits separator bytes.now r.0.now r.1.now) }
    ensures none { IfNone result (length bytes.now ≤ position_or_len (λ b. b == separator) bytes.now) }
{
    let Some(place) = place_of(bytes, separator) else {
        return None;
    };
    Some((&bytes[..place], &bytes[place + 1..]))
}

// The place of the first such byte.
fn place_of(bytes: &[u8], byte: u8) -> Option<usize>
    ensures { result ≡ position (λ b. b == byte) bytes.now }
{
    bytes.iter().position(|b| *b == byte)
}
