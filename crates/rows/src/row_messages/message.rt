//! Messages, as words of rows spell them.
ghost use Rattle.std.specs.Prelude.{◌≡◌, ◌+◌, length};

use cesr_stream::{Assembler, Message, Reader, Step};
use keri_outside::Limits;
use std::alloc::{AllocError, Global};

// Pushes the next item, where one is whole, and says whether one was.
fn push_next(reader: &mut Reader, assembler: &mut Assembler) -> Result<bool, AllocError> {
    match reader.next()? {
        Step::Item(item, place) => {
            let _ = assembler.push(item, place)?;
            Ok(true)
        }
        Step::NeedMore => Ok(false),
        Step::Bad(_) => Ok(false),
    }
}

// Pushes the items that are whole, up to so many.
fn push_items(
    reader: &mut Reader,
    assembler: &mut Assembler,
    most: usize,
) -> Result<(), AllocError> {
    for _ in 0..most {
        if !push_next(reader, assembler)? {
            break;
        }
    }
    Ok(())
}

// The last message that the text spells, where it spells one, by a reader and an assembler to which nothing was given.
fn last_message(
    reader: &mut Reader,
    assembler: &mut Assembler,
    text: &[u8],
) -> Result<Option<Message>, AllocError>
    requires { reader.old.place + length reader.old.rest ≡ 0 }
{
    reader.feed(text)?;
    push_items(reader, assembler, text.len())?;
    Ok(assembler.finish())
}

/// The last message that the text spells, where it spells one.
pub fn message_of(alloc: Global, text: &[u8]) -> Result<Option<Message>, AllocError> {
    let limits = Limits::standard();
    let mut reader = Reader::new(alloc, limits);
    let mut assembler = Assembler::new(alloc, limits);
    let message = last_message(&mut reader, &mut assembler, text);
    drop(assembler);
    drop(reader);
    message
}
