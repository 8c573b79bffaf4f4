//! Characters on a sink, as bytes.
ghost use Rattle.std.specs.Prelude.{◌≡◌, ◌≤◌, length, take};
ghost use Rattle.cesr_stream.specs.Domains.{IsTurnable};
ghost use Rattle.cesr_binary.specs.BinaryDomain.{binary_of};

use base64::engine::general_purpose::URL_SAFE_NO_PAD;
use cesr_stream::DomainWriter;
use keri_outside::{Failed, Sink};

/// Texts by their bytes: four characters are three bytes.
pub(crate) struct AsBinary;

impl DomainWriter for AsBinary {
    ghost use Rattle.cesr_binary.specs.BinaryLaws.{binary_of-append, binary_of-nil};

    ghost in_domain = { binary_of };

    fn put_text<S: Sink>(text: &[u8], sink: &mut S) -> Result<(), Failed> {
        let mut bytes = [0u8; 99];
        let count = turn_back(text, &mut bytes);
        sink.put(&bytes[..count])
    }

    ghost of_none = { binary_of-nil };

    ghost of_both = { binary_of-append };
}

// Fills the front of the array with the bytes of the characters, and says how many they are.
fn turn_back(text: &[u8], bytes: &mut [u8; 99]) -> usize
    requires few { length text.now ≤ 132 }
    requires turnable { IsTurnable text.now }
    ensures few { result ≤ 99 }
    ensures turned { take result bytes.new ≡ binary_of text.now }
{
    match URL_SAFE_NO_PAD.decode_slice_unchecked(text, bytes) {
        Ok(count) => count,
        Err(_) => unreachable!(),
    }
}
