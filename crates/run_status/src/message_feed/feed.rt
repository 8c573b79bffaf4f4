//! Reading a source to the end of its stream.
ghost use Rattle.std.specs.Prelude.{◌≡◌, ◌≤◌, ◌<◌, ◌+◌, ◌^◌, [], None, IfOk, IfErr, length};
ghost use Rattle.run_status.specs.MessageFeed.Serving.{Serves, IsIdle};
ghost use Rattle.run_status.specs.MessageFeed.Feeds.{Feeds, Runs};
ghost use Rattle.run_status.specs.MessageFeed.Pieces.{FeedsPiece, FeedsNone, EndsSo, PassesEnd};

use crate::message_feed::halt::Halt;
use crate::message_feed::items::take_items;
use crate::message_feed::{FeedClose, Taker};
use cesr_stream::{Assembler, Message, Reader};
use keri_outside::{Failed, Limits, Source};
use std::alloc::Global;

/// So many bytes are read at once at most.
const PIECE: usize = 4_096;

/// Reads the source in pieces, as far as a stream may be read, and hands each message to the taker once the next one
/// begins. Answers why no more is read, and the message that is open then.
pub fn feed_messages<S: Source, T: Taker>(
    alloc: Global,
    source: &mut S,
    limits: Limits,
    taker: &mut T,
) -> (FeedClose<T::Stop>, Option<Message>)
    requires none_taken { T.has_taken taker.old taker.old [] }
    ensures feeds { Feeds (T.has_taken taker.old) (T.has_stopped taker.old) limits (S.left source.old)
        (S.left source.new) (S.faults source.old) (S.faults source.new) taker.new result.0 result.1 }
    ensures later { S.faults source.old ≤ S.faults source.new }
{
    let mut reader = Reader::new(alloc, limits);
    let mut assembler = Assembler::new(alloc, limits);
    let close = feed_pieces(
        source,
        limits.stream_bytes,
        &mut reader,
        &mut assembler,
        taker,
    );
    (close, assembler.finish())
}

// Reads pieces to a reader to which nothing was fed, and takes the items that they end.
fn feed_pieces<S: Source, T: Taker>(
    source: &mut S,
    most: u64,
    reader: &mut Reader,
    assembler: &mut Assembler,
    taker: &mut T,
) -> FeedClose<T::Stop>
    ghost first: { T }
    requires idle { IsIdle reader.old }
    requires serves { Serves (T.has_taken first) [] reader.old assembler.old taker.old }
    ensures runs { Runs (T.has_taken first) (T.has_stopped first) most (S.left source.old) (S.left source.new)
        (S.faults source.old) (S.faults source.new) reader.old assembler.old assembler.new taker.new result }
    ensures later { S.faults source.old ≤ S.faults source.new }
{
    let mut room = most;
    while room > 0 {
        match feed_piece(source, reader, room) {
            Ok(0) => return close_end(reader),
            Ok(count) => room -= count as u64,
            Err(Halt::Stopped(Failed)) => return FeedClose::ReadFault,
            Err(Halt::OutOfMemory) => return FeedClose::OutOfMemory,
        }
        match take_items(reader, assembler, taker) {
            Ok(None) => {}
            Ok(Some(bad)) => return FeedClose::Bad(bad),
            Err(Halt::Stopped(stop)) => return FeedClose::Stopped(stop),
            Err(Halt::OutOfMemory) => return FeedClose::OutOfMemory,
        }
    }
    close_full(source, reader)
}

// Reads a piece of at most so many bytes to the reader, and answers how many it has: 0 at the end of input alone.
fn feed_piece<S: Source>(
    source: &mut S,
    reader: &mut Reader,
    room: u64,
) -> Result<usize, Halt<Failed>>
    requires some { 0 < room }
    requires not_bad { reader.old.bad ≡ None }
    requires short { reader.old.place + length reader.old.rest + room < 2 ^ 64 }
    ensures ok { IfOk result (λ count. FeedsPiece (S.left source.old) (S.left source.new) (S.faults source.old)
        (S.faults source.new) room reader.old reader.new count) }
    ensures err { IfErr result (λ halt. FeedsNone (S.left source.old) (S.left source.new) (S.faults source.old)
        (S.faults source.new) reader.old reader.new halt) }
    ensures later { S.faults source.old ≤ S.faults source.new }
{
    let mut piece = [0u8; PIECE];
    let most = room.min(PIECE as u64) as usize;
    let Ok(count) = source.read(&mut piece[..most]) else {
        return Err(Halt::Stopped(Failed));
    };
    if count > 0 {
        reader.feed(&piece[..count])?;
    }
    Ok(count)
}

// Says that the input has ended.
fn close_end<T>(reader: &mut Reader) -> FeedClose<T>
    requires idle { IsIdle reader.old }
    ensures { EndsSo reader.old reader.new result }
{
    match reader.end() {
        Some(bad) => FeedClose::Bad(bad),
        None => FeedClose::End,
    }
}

// Says whether the source gives more than may be read.
fn close_full<S: Source, T>(source: &mut S, reader: &mut Reader) -> FeedClose<T>
    requires idle { IsIdle reader.old }
    ensures passes { PassesEnd (S.left source.old) (S.left source.new) (S.faults source.old) (S.faults source.new)
        reader.old reader.new result }
    ensures later { S.faults source.old ≤ S.faults source.new }
{
    let mut piece = [0u8; 1];
    match source.read(&mut piece) {
        Ok(0) => close_end(reader),
        Ok(_) => FeedClose::LimitReached,
        Err(Failed) => FeedClose::ReadFault,
    }
}
