//! Items between a source and a sink.
ghost use Rattle.std.specs.Prelude.{◌≡◌, ◌+◌, ◌<◌, ◌^◌, ◌++◌, List, ℕ, None, IfOk, IfErr, length};
ghost use Rattle.keri_outside.specs.Shown.{SinkShown, sink_shown};
ghost use Rattle.run_status.specs.RunStatus.RunEnds.{Puts};
ghost use Rattle.cesr_stream.specs.Written.{IsWritable};
ghost use Rattle.cesr_binary.specs.Wire.{item_in};
ghost use Rattle.keri_roles.specs.ItemConversion.Progress.{GoesOn, IsIdle, StopsWith, progress_of};
ghost use Rattle.keri_roles.specs.ItemConversion.Pieces.{EndsSo, FeedsNone, FeedsPiece, PassesEnd, intake};

use cesr_binary::{Domain, MixedReader, write_in};
use cesr_stream::{Bad, Item, Step};
use keri_outside::{Failed, Sink, Source};
use run_status::Close;
use std::alloc::AllocError;

/// So many bytes are read at once at most.
const PIECE: usize = 4_096;

/// A reader whose items are written in a domain, to a sink that failed or not.
#[derive(Drop)]
pub(crate) struct Converter {
    pub reader: MixedReader,
    pub domain: Domain,
    pub sink_failed: bool,
}

impl Converter {
    /// Reads a piece of at most so many bytes, and answers how many it has: 0 at the end of input alone.
    pub(crate) fn feed_piece<S: Source>(
        &mut self,
        source: &mut S,
        room: u64,
    ) -> Result<usize, Close>
        requires some { 0 < room }
        requires not_bad { self.old.reader.bad ≡ None }
        requires short { self.old.reader.place + length self.old.reader.rest + room < 2 ^ 64 }
        ensures ok { IfOk result (FeedsPiece room (intake S.left S.faults source.old self.old.reader)
            (intake S.left S.faults source.new self.new.reader)) }
        ensures err { IfErr result (FeedsNone (intake S.left S.faults source.old self.old.reader)
            (intake S.left S.faults source.new self.new.reader)) }
        ensures domain { self.new.domain ≡ self.old.domain }
        ensures sink_failed { self.new.sink_failed ≡ self.old.sink_failed }
    {
        let mut piece = [0u8; PIECE];
        let most = room.min(PIECE as u64) as usize;
        let Ok(count) = source.read(&mut piece[..most]) else {
            return Err(Close::ReadFault);
        };
        if count > 0 && self.reader.feed(&piece[..count]).is_err() {
            return Err(Close::OutOfMemory);
        }
        Ok(count)
    }

    /// Writes all items that are whole, and answers why the stream is refused, where it is.
    pub(crate) fn write_items<K: Sink>(&mut self, sink: &mut K) -> Result<Option<Bad>, AllocError>
        requires { self.old.reader.bad ≡ None }
        ensures stops { IfOk result (λ bad. StopsWith bad self.new.reader) }

        // Whatever was fed, its items from the front were put, where it was so before.
        ensures goes_on { GoesOn (progress_of K.written K.faults self.old sink.old)
            (progress_of K.written K.faults self.new sink.new) }
    {
        loop {
            match self.reader.next()? {
                Step::NeedMore => return Ok(None),
                Step::Bad(bad) => return Ok(Some(bad)),
                Step::Item(item, _) => {
                    self.write(&item, sink);
                    drop(item);
                }
            }
        }
    }

    // Writes an item, unless the sink has failed before.
    fn write<K: Sink>(&mut self, item: &Item, sink: &mut K)
        requires { IsWritable item.now }
        ensures puts { (first : SinkShown) (text : List ℕ)
            → Puts text self.old.sink_failed first (sink_shown K.written K.faults sink.old)
            → Puts (text ++ item_in self.old.domain item.now) self.new.sink_failed first
            (sink_shown K.written K.faults sink.new) }
        ensures reader { self.new.reader ≡ self.old.reader }
        ensures domain { self.new.domain ≡ self.old.domain }
    {
        if !self.sink_failed {
            self.sink_failed = write_in(self.domain, item, sink).is_err();
        }
    }

    /// Says that the input has ended.
    pub(crate) fn close_end(&mut self) -> Close
        requires { IsIdle self.old.reader }
        ensures ends { EndsSo self.old.reader self.new.reader result }
        ensures sink_failed { self.new.sink_failed ≡ self.old.sink_failed }
    {
        match self.reader.end() {
            Some(bad) => Close::Bad(bad),
            None => Close::End,
        }
    }

    /// Says whether the source gives more than may be read.
    pub(crate) fn close_full<S: Source>(&mut self, source: &mut S) -> Close
        requires { IsIdle self.old.reader }
        ensures passes { PassesEnd (intake S.left S.faults source.old self.old.reader)
            (intake S.left S.faults source.new self.new.reader) result }
        ensures sink_failed { self.new.sink_failed ≡ self.old.sink_failed }
    {
        let mut piece = [0u8; 1];
        match source.read(&mut piece) {
            Ok(0) => self.close_end(),
            Ok(_) => Close::LimitReached,
            Err(Failed) => Close::ReadFault,
        }
    }
}
