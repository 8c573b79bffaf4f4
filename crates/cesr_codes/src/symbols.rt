//! Raw bytes and the characters of their digits in base 64 (RFC 4648, section 5).
ghost use Rattle.std.specs.Prelude.{◌≡◌, ◌++◌, ◌+◌, ◌-◌, ◌*◌, ◌/◌, ◌≤◌, ◌==◌, length, replicate, true, false};
ghost use Rattle.std.specs.List.{list_all};
ghost use Rattle.base64.specs.GeneralPurpose.{encode_of};
ghost use Rattle.base64.specs.Engines.{url_safe_no_pad};
ghost use Rattle.lists.specs.KeriSpecs.Base64.{AreBytes, base64_text, is_character, whole_number};
ghost use Rattle.cesr_codes.specs.Decoding.{IsDecoded};

use base64::engine::general_purpose::URL_SAFE_NO_PAD;

// The longest digits of the code table, with the bits before the raw bytes, are 88 characters of 66 bytes: whole groups
// of three bytes. Shorter ones are the same number behind more zeros.
const BYTES: usize = 66;

const SYMBOLS: usize = 88;

/// Fills the slice with the last digits of the raw bytes.
pub(crate) fn encode(raw: &[u8], out: &mut [u8])
    requires bytes { length raw.now ≤ 66 }
    requires symbols { length out.old ≤ 88 }
    ensures { out.new ≡ base64_text (length out.old) (whole_number raw.now) }
{
    let symbols = encode_groups(&with_zeros(raw));
    out.copy_from_slice(&symbols[SYMBOLS - out.len()..]);
}

// The raw bytes behind zero bytes.
fn with_zeros(raw: &[u8]) -> [u8; BYTES]
    requires { length raw.now ≤ 66 }
    ensures { result ≡ replicate (66 - length raw.now) 0 ++ raw.now }
{
    let mut padded = [0u8; BYTES];
    let (_, last) = padded.split_at_mut(BYTES - raw.len());
    last.copy_from_slice(raw);
    padded
}

// The characters of whole groups.
fn encode_groups(padded: &[u8; BYTES]) -> [u8; SYMBOLS]
    ensures { result ≡ encode_of url_safe_no_pad padded.now }
{
    let mut symbols = [0u8; SYMBOLS];
    let _ = URL_SAFE_NO_PAD.encode_slice(padded, &mut symbols);
    symbols
}

/// What digits are to raw bytes.
pub(crate) enum Decoded {
    /// The bytes are those of the number that the digits spell.
    Whole,
    /// The number is larger than so many bytes hold.
    Large,
    /// Some of them isn't one of the 64 characters.
    Bad,
}

/// Fills the slice with the last bytes of the number that the digits spell.
pub(crate) fn decode(digits: &[u8], raw: &mut [u8]) -> Decoded
    requires symbols { length digits.now ≤ 88 }
    requires bytes { length raw.old ≤ 3 * ((length digits.now + 3) / 4) }
    ensures { IsDecoded digits.now digits.now raw.new result }
{
    let groups = (digits.len() + 3) / 4;
    let symbols = with_first_symbols(digits);
    let (_, last_symbols) = symbols.split_at(SYMBOLS - 4 * groups);
    let mut decoded = [0u8; BYTES];
    let (bytes, _) = decoded.split_at_mut(3 * groups);
    if !decode_groups(groups, last_symbols, bytes) {
        return Decoded::Bad;
    }
    let (zeros, last) = bytes.split_at(3 * groups - raw.len());
    raw.copy_from_slice(last);
    if are_zeros(zeros) {
        Decoded::Whole
    } else {
        Decoded::Large
    }
}

// Whether all the bytes are zero.
fn are_zeros(bytes: &[u8]) -> bool
    ensures { result ≡ list_all (λ byte. byte == 0) bytes.now }
{
    bytes.iter().all(|byte| *byte == 0)
}

// The characters behind those of the digit 0.
fn with_first_symbols(digits: &[u8]) -> [u8; SYMBOLS]
    requires { length digits.now ≤ 88 }
    ensures { result ≡ replicate (88 - length digits.now) 65 ++ digits.now }
{
    let mut symbols = [b'A'; SYMBOLS];
    let (_, last) = symbols.split_at_mut(SYMBOLS - digits.len());
    last.copy_from_slice(digits);
    symbols
}

// Fills the slice with the bytes of so many groups of characters, and answers whether all of them are characters.
fn decode_groups(groups: usize, symbols: &[u8], bytes: &mut [u8]) -> bool
    requires symbols { length symbols.now ≡ 4 * groups }
    requires bytes { length bytes.old ≡ 3 * groups }
    ensures decoded { result ≡ true → AreBytes (3 * groups) bytes.new
        × (symbols.now ≡ encode_of url_safe_no_pad bytes.new) }
    ensures bad { result ≡ false → list_all is_character symbols.now ≡ false }
{
    match URL_SAFE_NO_PAD.decode_slice(symbols, bytes) {
        Ok(_) => true,
        Err(_) => false,
    }
}
