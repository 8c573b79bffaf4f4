//! Reading a stream in any pieces.

use crate::begun_item::{BegunItem, read_item};
use crate::stop::Stop;
use crate::{Bad, BadReason, Step};
use bytes::BytesMut;
use keri_outside::Limits;
use std::alloc::{AllocError, Global};
use std::marker::Model;

/// Reads the items of a stream that is fed in any pieces. It keeps the bytes behind the items that were answered, and
/// what was read of the next item, so that no element of a group is read again when more bytes come.
#[derive(Drop)]
pub struct Reader {
    alloc: Global,
    limit: u32,
    bytes: BytesMut,
    place: u64,
    begun: bool,
    item: Option<BegunItem>,
    bad: Option<Bad>,
    drained: bool,
}

impl Model for Reader {
    ghost use Rattle.cesr_stream.specs.Reading.{Reading};

    ghost Value = { Reading };

    ghost use Rattle.cesr_stream.specs.Reader.{reading_of, IsReader};

    ghost view = { reading_of };

    ghost invariant = { IsReader };
}

impl Reader {
    ghost use Rattle.std.specs.Prelude.{◌≡◌, ◌+◌, ◌<◌, ◌^◌, IfOk, OnOk, OnErr, length};
    ghost use Rattle.cesr_stream.specs.Reading.{Answers, Ends, BuffersFew, IsDrained, fed_with, fresh};

    /// A reader of a stream whose bodies are within the limits.
    pub fn new(alloc: Global, limits: Limits) -> Reader
        ensures { result ≡ fresh limits.body }
    {
        Reader {
            alloc,
            limit: limits.body,
            bytes: BytesMut::new(alloc),
            place: 0,
            begun: false,
            item: None,
            bad: None,
            drained: true,
        }
    }

    /// Takes the next piece of the stream.
    pub fn feed(&mut self, piece: &[u8]) -> Result<(), AllocError>
        requires { self.old.place + length self.old.rest + length piece.now < 2 ^ 64 }
        ensures ok { OnOk result (self.new ≡ fed_with self.old piece.now self.old.bad) }
        ensures err { OnErr result (self.new ≡ self.old) }
    {
        if self.bad.is_some() {
            return Ok(());
        }
        self.bytes.extend_from_slice(piece)?;
        self.drained = false;
        Ok(())
    }

    /// The next item of the stream, where one is whole.
    pub fn next(&mut self) -> Result<Step, AllocError>
        ensures answer { Answers self.old self.new result }

        // The greatest item is a group of 4,095 receipts with their keys.
        ensures few { IfOk result (BuffersFew self.new) }
    {
        if let Some(bad) = self.bad {
            return Ok(Step::Bad(bad));
        }
        let bytes = self.bytes.as_slice();
        match read_item(self.alloc, bytes, self.limit, self.begun, &mut self.item) {
            Ok((item, length)) => {
                let place = self.place;
                self.bytes.advance(length);
                self.place = place + length as u64;
                self.begun = true;
                self.drained = false;
                Ok(Step::Item(item, place))
            }
            Err(Stop::Refused(within, reason)) => {
                let place = self.place + within as u64;
                let bad = Bad { place, reason };
                self.bad = Some(bad);
                Ok(Step::Bad(bad))
            }
            Err(Stop::Unfinished) => {
                self.drained = true;
                Ok(Step::NeedMore)
            }
            Err(Stop::OutOfMemory) => Err(AllocError),
        }
    }

    /// Forgets what is buffered, and begins anew behind a body or before any.
    pub fn restart(&mut self, begun: bool)
        ensures { self.new ≡ record (fresh self.old.limit) { begun = begun } }
    {
        self.bytes.clear();
        self.place = 0;
        self.begun = begun;
        drop(self.item.take());
        self.bad = None;
        self.drained = true;
    }

    /// How many bytes are buffered: those that were fed less those of the items that were answered.
    pub fn buffered(&self) -> u64
        ensures { result ≡ length self.now.rest }
    {
        self.bytes.len() as u64
    }

    /// Says that the input has ended.
    pub fn end(&mut self) -> Option<Bad>
        requires { IsDrained self.old }
        ensures { Ends self.old self.new result }
    {
        if let Some(bad) = self.bad {
            return Some(bad);
        }
        if self.bytes.is_empty() {
            return None;
        }
        let bad = Bad {
            place: self.place,
            reason: BadReason::Truncated,
        };
        self.bad = Some(bad);
        Some(bad)
    }
}
