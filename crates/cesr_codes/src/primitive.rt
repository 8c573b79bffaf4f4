//! Raw bytes behind a code and its indices.
ghost use Rattle.std.specs.Prelude.{◌≡◌, ◌++◌, ◌+◌, ◌-◌, ◌*◌, ◌/◌, ◌≤◌, length, drop, position, not, false, Some};
ghost use Rattle.std.specs.List.{list_all};
ghost use Rattle.lists.specs.KeriSpecs.Base64.{base64_text, is_character, whole_number};
ghost use Rattle.cesr_codes.specs.Decoding.{IsDecoded};
ghost use Rattle.cesr_codes.specs.Table.{total};
ghost use Rattle.cesr_codes.specs.Reading.{ReadsCoded, ReadsBehind, ReadsWhole};

use crate::code::Code;
use crate::symbols::Decoded;
use crate::{CodeFault, character, symbols};

/// The code of the primitive at the front, whose raw bytes fill the slice, or the first rule that the text fails.
pub(crate) fn read<C: Code>(text: &[u8], raw: &mut [u8]) -> Result<C, CodeFault>
    requires { length raw.old ≡ C.bytes }
    ensures { ReadsCoded C.layouts C.layout_of text.now raw.new result }
{
    let code = C::at_front(text)?;
    match read_behind(code, text, raw) {
        Ok(()) => Ok(code),
        Err(fault) => Err(fault),
    }
}

// What the text is behind its code.
fn read_behind<C: Code>(code: C, text: &[u8], raw: &mut [u8]) -> Result<(), CodeFault>
    requires { length raw.old ≡ C.bytes }
    ensures { ReadsBehind (C.layout_of code) text.now raw.new result }
{
    let total = code.head() + digits_of(raw.len());
    if text.len() < total {
        return Err(CodeFault::Short);
    }
    read_whole(code, &text[..total], raw)
}

// How many digits hold so many bytes.
fn digits_of(bytes: usize) -> usize
    requires { bytes ≤ 66 }
    ensures { result ≡ (4 * bytes + 2) / 3 }
{
    (4 * bytes + 2) / 3
}

// What all the characters of the primitive are.
fn read_whole<C: Code>(code: C, text: &[u8], raw: &mut [u8]) -> Result<(), CodeFault>
    requires bytes { length raw.old ≡ C.bytes }
    requires all { length text.now ≡ total (C.layout_of code) }
    ensures { ReadsWhole (C.layout_of code) text.now raw.new result }
{
    match decode_behind(code.head(), text, raw) {
        Decoded::Whole if code.has_other_index(text) => Err(CodeFault::OtherIndex),
        Decoded::Whole => Ok(()),
        Decoded::Large => Err(CodeFault::PadBits),
        Decoded::Bad => Err(CodeFault::BadCharacter(bad_place(text))),
    }
}

// What the text is whose digits stand behind so many characters.
fn decode_behind(head: usize, text: &[u8], raw: &mut [u8]) -> Decoded
    requires behind { head ≤ length text.now }
    requires symbols { length text.now ≤ head + 88 }
    requires bytes { length raw.old ≤ 3 * ((length text.now - head + 3) / 4) }
    ensures { IsDecoded text.now (drop head text.now) raw.new result }
{
    let (front, digits) = text.split_at(head);
    if character::are_symbols(front) {
        symbols::decode(digits, raw)
    } else {
        Decoded::Bad
    }
}

// The place of the first that isn't a character.
fn bad_place(text: &[u8]) -> u16
    requires few { length text.now ≤ 94 }
    requires bad { list_all is_character text.now ≡ false }
    ensures { position (λ c. not (is_character c)) text.now ≡ Some result }
{
    match character::first_bad(text) {
        Some(place) => place as u16,
        None => unreachable!(),
    }
}

/// Fills the slice with the head and the digits of the raw bytes.
pub(crate) fn write(head: &[u8], raw: &[u8], out: &mut [u8])
    requires bytes { length raw.now ≤ 66 }
    requires front { length head.now ≤ length out.old }
    requires few { length out.old ≤ length head.now + 88 }
    ensures { out.new ≡ head.now ++ base64_text (length out.old - length head.now) (whole_number raw.now) }
{
    let (front, digits) = out.split_at_mut(head.len());
    front.copy_from_slice(head);
    symbols::encode(raw, digits);
}
