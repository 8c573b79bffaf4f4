//! Date-times.
ghost use Rattle.std.specs.Prelude.{◌≡◌, true};
ghost use Rattle.cesr_codes.specs.Dates.{is_date_time};

use crate::CodeFault;
use crate::shape::{first_misfit, is_date_time, read_all, write_all};
use crate::text::as_text;
use std::fmt;

/// A date-time, `YYYY-MM-DDThh:mm:ss.ffffff+hh:mm`, where the sign may be `-`.
#[derive(Clone, Copy, PartialEq, Eq, Hash, Debug)]
pub struct Moment {
    pub text: [u8; 32],
    ghost form: { is_date_time text ≡ true },
}

impl Moment {
    ghost use Rattle.std.specs.Prelude.{◌≡◌, ◌++◌, ℕ, List, IfSome, IfNone, false};
    ghost use Rattle.cesr_codes.specs.Dates.{FindsMoment, is_date_time, moment_verdict};
    ghost use Rattle.cesr_codes.specs.Moments.{IsMoment, moment_text};
    ghost use Rattle.cesr_codes.specs.Reading.{Reads};

    /// The date-time of these characters, where they are one.
    pub fn new(text: [u8; 32]) -> Option<Moment>
        ensures some { IfSome result (λ made. made.text ≡ text) }
        ensures none { IfNone result (is_date_time text ≡ false) }
    {
        if is_date_time(&text) {
            Some(Moment { text })
        } else {
            None
        }
    }

    /// The date-time that stands at the front, and the length of its spelling.
    pub fn read(bytes: &[u8]) -> Result<(Moment, usize), CodeFault>
        // What is read stands at the front, and a fault is the first in their order.
        ensures exact { Reads moment_verdict moment_text IsMoment bytes.now result }

        // What is spelled at the front is read, whatever follows.
        ensures whole { (moment : Moment) (rest : List ℕ) → IsMoment moment
            → bytes.now ≡ moment_text moment ++ rest → result ≡ Ok (moment, 36) }
    {
        Moment::read_exact(bytes)
    }

    // The date-time, or the first fault.
    fn read_exact(bytes: &[u8]) -> Result<(Moment, usize), CodeFault>
        ensures { Reads moment_verdict moment_text IsMoment bytes.now result }
    {
        Moment::code_at_front(bytes)?;
        if bytes.len() < 36 {
            return Err(CodeFault::Short);
        }
        let mut text = [0u8; 32];
        text.copy_from_slice(&bytes[4..36]);
        if let Some(place) = first_misfit(&text) {
            return Err(CodeFault::BadCharacter(place as u16 + 4));
        }
        read_all(&mut text);
        Ok((Moment { text }, 36))
    }

    // The code, or the first of the two rules on codes that the text fails.
    fn code_at_front(text: &[u8]) -> Result<(), CodeFault>
        ensures { FindsMoment text.now result }
    {
        match text {
            [] | [b'1'] | [b'1', b'A'] | [b'1', b'A', b'A'] => Err(CodeFault::Short),
            [b'1', b'A', b'A', b'G', ..] => Ok(()),
            _ => Err(CodeFault::CodeNotHeld),
        }
    }

    /// Fills the array with the spelling.
    pub fn write(&self, out: &mut [u8; 36])
        ensures { out.new ≡ moment_text self.now }
    {
        let (code, text) = out.split_at_mut(4);
        code.copy_from_slice(b"1AAG");
        text.copy_from_slice(&self.text);
        write_all(text);
    }
}

impl fmt::Display for Moment {
    ghost use Rattle.std.specs.Prelude.{Some};
    ghost use Rattle.cesr_codes.specs.Moments.{moment_text};

    ghost output = { λ moment. Some (moment_text moment) };

    fn fmt<W: fmt::Write>(&self, f: &mut fmt::Formatter<W>) -> fmt::Result {
        let mut text = [0u8; 36];
        self.write(&mut text);
        f.write_str(as_text(&text))
    }
}
