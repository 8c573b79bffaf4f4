//! Bodies at the front of a stream.
ghost use Rattle.std.specs.Prelude.{◌≡◌, ◌≤◌, IfOk, IfErr, length, bytes_eq};
ghost use Rattle.cesr_stream.specs.Begun.{IsBodySize};
ghost use Rattle.cesr_stream.specs.Front.{body_part, has_version};
ghost use Rattle.cesr_stream.specs.Stops.{Stops};

use crate::BadReason;
use crate::stop::Stop;
use lists::{all_hex, hex_value};

/// The version string and what stands before it have so many bytes.
const HEAD: usize = 24;

/// The size that the body at the front says, where a body may have so many bytes.
#[tactic(auto, unfolding(crate::specs::Front::body_part))]
pub(crate) fn body_size(bytes: &[u8], limit: u32) -> Result<usize, Stop>
    ensures ok { IfOk result (IsBodySize limit bytes.now) }
    ensures err { IfErr result (Stops bytes.now (body_part limit bytes.now)) }
{
    if bytes.len() < HEAD {
        return Err(Stop::Unfinished);
    }
    if !has_head(bytes) {
        return Err(Stop::Refused(0, BadReason::Version));
    }
    let size = hex_value(&bytes[16..22]) as usize;
    if size < HEAD {
        return Err(Stop::Refused(0, BadReason::Version));
    }
    if size > limit as usize {
        return Err(Stop::Refused(0, BadReason::TooLarge));
    }
    Ok(size)
}

// Whether the version string stands at the front.
fn has_head(bytes: &[u8]) -> bool
    requires { 24 ≤ length bytes.now }
    ensures { result ≡ has_version bytes.now }
{
    let opening = is_text(&bytes[..16], b"{\"v\":\"KERI10JSON");
    let digits = all_hex(&bytes[16..22]);
    let closing = is_text(&bytes[22..24], b"_\"");
    opening && digits && closing
}

// Whether the bytes are this text.
fn is_text(bytes: &[u8], text: &[u8]) -> bool
    ensures { result ≡ bytes_eq bytes.now text.now }
{
    bytes == text
}
