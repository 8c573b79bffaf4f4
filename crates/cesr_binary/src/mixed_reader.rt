//! Reading a mixed stream in any pieces.

use crate::either_reader::EitherReader;
use bytes::BytesMut;
use cesr_stream::{Bad, BadReason, Step};
use keri_outside::Limits;
use std::alloc::{AllocError, Global};
use std::marker::Model;

/// Reads the items of a stream whose groups and wraps stand in text or in binary, fed in any pieces. It keeps
/// the bytes behind the items that were answered. After it has refused the stream it answers the same.
#[derive(Drop)]
pub struct MixedReader {
    limit: u32,
    bytes: BytesMut,
    place: u64,
    begun: bool,
    front: EitherReader,
    bad: Option<Bad>,
    drained: bool,
}

impl Model for MixedReader {
    ghost use Rattle.cesr_stream.specs.Reading.{Reading};

    ghost Value = { Reading };

    ghost use Rattle.cesr_binary.specs.MixedReader.{reading_of, IsMixedReader};

    ghost view = { reading_of };

    ghost invariant = { IsMixedReader };
}

impl MixedReader {
    ghost use Rattle.std.specs.Prelude.{◌≡◌, ◌≢◌, ◌+◌, ◌<◌, ◌^◌, IfOk, OnOk, OnErr, length};
    ghost use Rattle.cesr_stream.specs.Reading.{BuffersFew, IsDrained, fed_with, fresh};
    ghost use Rattle.cesr_stream.specs.Parts.{unfinished};
    ghost use Rattle.cesr_binary.specs.MixedAnswers.{Answers, Ends, judged};

    /// A reader of a stream whose bodies are within the limits.
    pub fn new(alloc: Global, limits: Limits) -> MixedReader
        ensures { result ≡ fresh limits.body }
    {
        MixedReader {
            limit: limits.body,
            bytes: BytesMut::new(alloc),
            place: 0,
            begun: false,
            front: EitherReader::new(alloc, limits),
            bad: None,
            drained: true,
        }
    }

    /// Takes the next piece of the stream.
    pub fn feed(&mut self, piece: &[u8]) -> Result<(), AllocError>
        requires { self.old.place + length self.old.rest + length piece.now < 2 ^ 64 }
        ensures ok { OnOk result (self.new ≡ fed_with self.old piece.now self.old.bad) }
        ensures err { OnErr result (self.new ≡ self.old) }

        // However the stream is cut, its front is judged the same once it is whole or refused.
        ensures stays { judged self.old ≢ unfinished → judged self.new ≡ judged self.old }
    {
        if self.bad.is_some() {
            return Ok(());
        }
        self.bytes.extend_from_slice(piece)?;
        self.drained = false;
        Ok(())
    }

    /// The next item of the stream, where one is whole.
    pub fn next(&mut self) -> Result<Step, AllocError>
        ensures answer { Answers self.old self.new result }

        // The greatest item is a group of 4,095 receipts with their keys.
        ensures few { IfOk result (BuffersFew self.new) }
    {
        if let Some(bad) = self.bad {
            return Ok(Step::Bad(bad));
        }
        match self.front.read(self.bytes.as_slice())? {
            Step::Item(item, length) => {
                let place = self.place;
                self.bytes.advance(length as usize);
                self.place = place + length;
                self.begun = true;
                self.drained = false;
                self.front.restart(true);
                Ok(Step::Item(item, place))
            }
            Step::Bad(within) => {
                let place = self.place + within.place;
                let bad = Bad { place, ..within };
                self.bad = Some(bad);
                self.front.restart(self.begun);
                Ok(Step::Bad(bad))
            }
            Step::NeedMore => {
                self.drained = true;
                Ok(Step::NeedMore)
            }
        }
    }

    /// Says that the input has ended.
    pub fn end(&mut self) -> Option<Bad>
        requires { IsDrained self.old }
        ensures { Ends self.old self.new result }
    {
        if let Some(bad) = self.bad {
            return Some(bad);
        }
        if self.bytes.is_empty() {
            return None;
        }
        let bad = Bad {
            place: self.place,
            reason: BadReason::Truncated,
        };
        self.bad = Some(bad);
        Some(bad)
    }
}
