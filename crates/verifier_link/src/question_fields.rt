//! Questions, read field by field.
ghost use Rattle.std.specs.Prelude.{◌≡◌, ◌≤◌, ◌∷◌, [], IfOk, IfErr, length};
ghost use Rattle.cesr_codes.specs.Spelling.{IsKey, IsSig, key_text, sig_text};
ghost use Rattle.verifier_link.specs.Fields.{FieldStops, IsTaken, Completes, letter_code, the_key, the_length, the_letter, the_sig};
ghost use Rattle.verifier_link.specs.Questions.{FindsQuestion, IsWanted, length_text, wanted_text};
ghost use Rattle.keri_outside.specs.Shown.{source_shown};
ghost use Rattle.verifier_link.specs.Stops.{StopsBehind, StopsReading};

use crate::Wanted;
use crate::field::take_field;
use crate::length_digits::read_length;
use crate::letter::Letter;
use crate::stop::Stop;
use cesr_codes::{Key, Sig, of_text};
use keri_outside::Source;

/// Reads a question, whose body is put at the front of the buffer, and answers what is wanted and how long the body is.
/// The input ends before the question, or else the question is malformed.
pub(crate) fn read_question<S: Source>(
    source: &mut S,
    room: &mut u64,
    buffer: &mut [u8],
) -> Result<(Wanted, usize), Stop>
    requires { length buffer.old ≡ 65535 }
    ensures ok { IfOk result (λ found. FindsQuestion found buffer.new
        (IsTaken room.old room.new (source_shown S.left S.faults source.old) (source_shown S.left S.faults source.new))) }
    ensures err { IfErr result (λ stop. StopsReading room.old (source_shown S.left S.faults source.old)
        (source_shown S.left S.faults source.new) stop) }
{
    let letter = read_letter(source, room)?;
    match read_behind(letter, source, room, buffer) {
        Ok(found) => Ok(found),
        Err(stop) => Err(stop.within_question()),
    }
}

// Reads what stands behind the letter.
fn read_behind<S: Source>(
    letter: Letter,
    source: &mut S,
    room: &mut u64,
    buffer: &mut [u8],
) -> Result<(Wanted, usize), Stop>
    requires { length buffer.old ≡ 65535 }
    ensures ok { IfOk result (λ found. FindsQuestion found buffer.new
        (λ text. Completes (letter_code letter ∷ []) text (IsTaken room.old room.new
        (source_shown S.left S.faults source.old) (source_shown S.left S.faults source.new)))) }
    ensures err { IfErr result (λ stop. StopsBehind (letter_code letter ∷ []) room.old
        (source_shown S.left S.faults source.old) (source_shown S.left S.faults source.new) stop) }
{
    let wanted = read_wanted(letter, source, room)?;
    let size = usize::from(read_size(source, room)?);
    take_field(source, room, &mut buffer[..size])?;
    Ok((wanted, size))
}

// Reads the key, and the signature where a verdict is wanted.
fn read_wanted<S: Source>(letter: Letter, source: &mut S, room: &mut u64) -> Result<Wanted, Stop>
    ensures ok { IfOk result (λ wanted. IsWanted wanted
        × Completes (letter_code letter ∷ []) (wanted_text wanted)
        (IsTaken room.old room.new (source_shown S.left S.faults source.old)
        (source_shown S.left S.faults source.new))) }
    ensures err { IfErr result (λ stop. StopsBehind (letter_code letter ∷ []) room.old
        (source_shown S.left S.faults source.old) (source_shown S.left S.faults source.new) stop) }
{
    let key = read_key(source, room)?;
    match letter {
        Letter::Verdict => Ok(Wanted::Verdict(key, read_sig(source, room)?)),
        Letter::Signing => Ok(Wanted::Signature(key)),
    }
}

fn read_letter<S: Source>(source: &mut S, room: &mut u64) -> Result<Letter, Stop>
    ensures ok { IfOk result (λ letter. IsTaken room.old room.new (source_shown S.left S.faults source.old)
        (source_shown S.left S.faults source.new) (letter_code letter ∷ [])) }
    ensures err { IfErr result (λ stop. FieldStops the_letter room.old (source_shown S.left S.faults source.old)
        (source_shown S.left S.faults source.new) stop) }
{
    let mut text = [0u8; 1];
    take_field(source, room, &mut text)?;
    match text {
        [b'V'] => Ok(Letter::Verdict),
        [b'S'] => Ok(Letter::Signing),
        _ => Err(Stop::Malformed),
    }
}

fn read_key<S: Source>(source: &mut S, room: &mut u64) -> Result<Key, Stop>
    ensures ok { IfOk result (λ key. IsKey key
        × IsTaken room.old room.new (source_shown S.left S.faults source.old) (source_shown S.left S.faults source.new)
        (key_text key)) }
    ensures err { IfErr result (λ stop. FieldStops the_key room.old (source_shown S.left S.faults source.old)
        (source_shown S.left S.faults source.new) stop) }
{
    let mut text = [0u8; 44];
    take_field(source, room, &mut text)?;
    match of_text::<Key>(&text) {
        Some(key) => Ok(key),
        None => Err(Stop::Malformed),
    }
}

fn read_sig<S: Source>(source: &mut S, room: &mut u64) -> Result<Sig, Stop>
    ensures ok { IfOk result (λ sig. IsSig sig
        × IsTaken room.old room.new (source_shown S.left S.faults source.old) (source_shown S.left S.faults source.new)
        (sig_text sig)) }
    ensures err { IfErr result (λ stop. FieldStops the_sig room.old (source_shown S.left S.faults source.old)
        (source_shown S.left S.faults source.new) stop) }
{
    let mut text = [0u8; 88];
    take_field(source, room, &mut text)?;
    match of_text::<Sig>(&text) {
        Some(sig) => Ok(sig),
        None => Err(Stop::Malformed),
    }
}

// Reads the length of the body.
fn read_size<S: Source>(source: &mut S, room: &mut u64) -> Result<u16, Stop>
    ensures ok { IfOk result (λ size. (size ≤ 65535)
        × IsTaken room.old room.new (source_shown S.left S.faults source.old) (source_shown S.left S.faults source.new)
        (length_text size)) }
    ensures err { IfErr result (λ stop. FieldStops the_length room.old (source_shown S.left S.faults source.old)
        (source_shown S.left S.faults source.new) stop) }
{
    let mut text = [0u8; 8];
    take_field(source, room, &mut text)?;
    match read_length(&text) {
        Some(size) => Ok(size),
        None => Err(Stop::Malformed),
    }
}
