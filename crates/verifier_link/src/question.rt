//! Questions on a sink.
ghost use Rattle.std.specs.Prelude.{◌≡◌, ◌+◌, ◌≤◌, ◌∷◌, ◌++◌, length};
ghost use Rattle.cesr_codes.specs.Spelling.{key_text, sig_text};
ghost use Rattle.lists.specs.KeriSpecs.Causes.{HasCause};
ghost use Rattle.lists.specs.KeriSpecs.Shown.{Puts};
ghost use Rattle.verifier_link.specs.Questions.{length_text, wanted_text};

use crate::Wanted;
use crate::length_digits::length_digits;
use cesr_codes::{Key, Sig};
use keri_outside::{Failed, Sink};

/// Puts a question, or where the sink fails a front of it.
pub(crate) fn put_question<K: Sink>(
    sink: &mut K,
    wanted: &Wanted,
    body: &[u8],
) -> Result<(), Failed>
    requires { length body.now ≤ 65535 }
    ensures written { Puts (K.written sink.old) (K.written sink.new) result
        (wanted_text wanted.now ++ (length_text (length body.now) ++ body.now)) }
    ensures cause { HasCause (K.faults sink.old) (K.faults sink.new) result }
{
    put_head(sink, wanted, body.len() as u16)?;
    sink.put(body)
}

// Puts what stands before the body.
fn put_head<K: Sink>(sink: &mut K, wanted: &Wanted, length: u16) -> Result<(), Failed>
    ensures written { Puts (K.written sink.old) (K.written sink.new) result
        (wanted_text wanted.now ++ length_text length) }
    ensures cause { HasCause (K.faults sink.old) (K.faults sink.new) result }
{
    match wanted {
        Wanted::Verdict(key, sig) => sink.put(&verdict_head(key, sig, length)),
        Wanted::Signature(key) => sink.put(&signing_head(key, length)),
    }
}

// What stands before the body in a question for a verdict.
fn verdict_head(key: &Key, sig: &Sig, length: u16) -> [u8; 141]
    ensures { result ≡ (86 ∷ (key_text key.now ++ sig_text sig.now)) ++ length_text length }
{
    let mut head = [0u8; 141];
    let mut text = [0u8; 88];
    sig.write(&mut text);
    let (front, digits) = head.split_at_mut(133);
    fill_both(&lettered_key(b'V', key), &text, front);
    digits.copy_from_slice(&length_digits(length));
    head
}

// What stands before the body in a question for a signature.
fn signing_head(key: &Key, length: u16) -> [u8; 53]
    ensures { result ≡ (83 ∷ key_text key.now) ++ length_text length }
{
    let mut head = [0u8; 53];
    fill_both(&lettered_key(b'S', key), &length_digits(length), &mut head);
    head
}

// The letter and the key's characters.
fn lettered_key(letter: u8, key: &Key) -> [u8; 45]
    ensures { result ≡ letter ∷ key_text key.now }
{
    let mut text = [0u8; 44];
    key.write(&mut text);
    let mut lettered = [0u8; 45];
    fill_both(&[letter], &text, &mut lettered);
    lettered
}

// Fills the slice with one text and another.
fn fill_both(first: &[u8], second: &[u8], out: &mut [u8])
    requires { length first.now + length second.now ≡ length out.old }
    ensures { out.new ≡ first.now ++ second.now }
{
    let (front, behind) = out.split_at_mut(first.len());
    front.copy_from_slice(first);
    behind.copy_from_slice(second);
}
