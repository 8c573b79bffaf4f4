//! Counters at the front of a stream.
ghost use Rattle.std.specs.Prelude.{◌≡◌, ◌≤◌, ◌<◌, ◌^◌, ◌∷◌, OnOk, IfErr, length, slice_index};
ghost use Rattle.lists.specs.KeriSpecs.Base64.{base64_text};
ghost use Rattle.cesr_stream.specs.Front.{counter_part, count_of, is_group};
ghost use Rattle.cesr_stream.specs.Parts.{whole};
ghost use Rattle.cesr_stream.specs.Stops.{Stops};

use crate::BadReason;
use crate::stop::Stop;
use cesr_codes::{CodeFault, Number, digit, is_symbol};

/// Judges the counter at the front, whose letter is supported there or not.
#[tactic(auto, unfolding(crate::specs::Front::counter_part))]
pub(crate) fn judge_counter(bytes: &[u8], supported: bool) -> Result<(), Stop>
    ensures ok { OnOk result ((counter_part supported bytes.now ≡ whole 4) × (4 ≤ length bytes.now)) }
    ensures err { IfErr result (Stops bytes.now (counter_part supported bytes.now)) }
{
    if bytes.len() < 2 {
        return Err(Stop::Unfinished);
    }
    if !supported {
        return Err(Stop::Refused(0, BadReason::GroupNotSupported));
    }
    if bytes.len() < 4 {
        return Err(Stop::Unfinished);
    }
    if !is_symbol(bytes[2]) {
        return Err(Stop::Refused(0, BadReason::Code(CodeFault::BadCharacter(2))));
    }
    if !is_symbol(bytes[3]) {
        return Err(Stop::Refused(0, BadReason::Code(CodeFault::BadCharacter(3))));
    }
    Ok(())
}

/// How many elements a whole counter counts.
pub(crate) fn count(bytes: &[u8]) -> usize
    requires { 4 ≤ length bytes.now }
    ensures counted { result ≡ count_of bytes.now }
    ensures few { result < 2 ^ 32 }
{
    64 * usize::from(digit(bytes[2])) + usize::from(digit(bytes[3]))
}

/// The letter of the counter at the front, and 0 where it doesn't show.
pub(crate) fn letter_of(bytes: &[u8]) -> u8
    ensures { result ≡ slice_index bytes.now 1 }
{
    match bytes {
        [_, letter, ..] => *letter,
        _ => 0,
    }
}

/// Whether the letter is that of a group.
pub(crate) fn is_group(letter: u8) -> bool
    ensures { result ≡ is_group letter }
{
    matches!(letter, b'A' | b'B' | b'C' | b'E' | b'G')
}

/// The counter with this letter: its count has the last two digits of the number.
pub(crate) fn counter(letter: u8, count: usize) -> [u8; 4]
    ensures { result ≡ 45 ∷ letter ∷ base64_text 2 count }
{
    let number = Number {
        value: count as u128,
    };
    let mut digits = [0u8; 24];
    number.write(&mut digits);
    [b'-', letter, digits[22], digits[23]]
}
