//! Streams: their items, their messages, and items written.
ghost use Rattle.std.specs.Prelude.{◌≡◌, ◌<◌, ◌∷◌, [], IfOk, IfSome, OnOk};
ghost use Rattle.cesr_stream.specs.Groups.{elements_of};
ghost use Rattle.cesr_stream.specs.Reading.{IsDrained};
ghost use Rattle.rows_values.specs.Fed.{fed};

use cesr_codes::{Digest, IndexedSig, Key, KeyCode, Moment, Number, Sig};
use cesr_stream::{
    AnchorCouple, Assembler, Bad, Couple, Group, Item, Message, Reader, Seen, Step, write_item,
};
use keri_outside::{Limits, MemSink};
use lists::{CopyValue, Items};
use rows::{Row, given};
use std::alloc::{AllocError, Global};
use std::fmt::Write;

fn letter(group: &Group) -> &'static str {
    match group {
        Group::Controller(_) => "A",
        Group::Witness(_) => "B",
        Group::Couples(_) => "C",
        Group::FirstSeen(_) => "E",
        Group::Anchor(_) => "G",
    }
}

// What there is, and how much of it.
fn count_word(text: &mut String, kind: &str, count: usize) -> Result<(), AllocError> {
    write!(text, "{kind}:{count}")
}

fn place_word(text: &mut String, place: u64, behind: &str) -> Result<(), AllocError> {
    write!(text, "@{place}{behind}")
}

// An item: its kind, and how much it has.
fn item_word(text: &mut String, item: &Item) -> Result<(), AllocError> {
    match item {
        Item::Body(bytes) => count_word(text, "body", bytes.len()),
        Item::Group(group) => count_word(text, letter(group), group.len()),
        Item::Wrapped(groups) => count_word(text, "V", groups.len()),
    }
}

// Says the item, and its place.
fn say_item(text: &mut String, item: Item, place: u64) -> Result<(), AllocError> {
    let said = item_word(text, &item);
    drop(item);
    said?;
    place_word(text, place, " ")
}

// Takes the next item, where one is whole, and says whether there was one.
fn take_item(text: &mut String, reader: &mut Reader) -> Result<bool, AllocError>
    ensures fed { OnOk result (fed reader.new ≡ fed reader.old) }
{
    match reader.next()? {
        Step::Item(item, place) => {
            say_item(text, item, place)?;
            Ok(true)
        }
        Step::NeedMore => Ok(false),
        Step::Bad(_) => Ok(false),
    }
}

// The items that are whole by now.
fn take_items(text: &mut String, reader: &mut Reader, most: usize) -> Result<(), AllocError>
    ensures fed { OnOk result (fed reader.new ≡ fed reader.old) }
{
    'items: for _ in 0..most {
        if !take_item(text, reader)? {
            break;
        }
    }
    Ok(())
}

// Feeds the bytes in pieces of so many, and takes the items as they come.
fn feed_pieces(
    text: &mut String,
    reader: &mut Reader,
    bytes: &[u8],
    size: usize,
) -> Result<(), AllocError>
    requires some { 0 < size }
    requires fresh { fed reader.old ≡ 0 }
{
    let mut rest = bytes;
    'pieces: while rest.len() > size {
        let (piece, more) = rest.split_at(size);
        reader.feed(piece)?;
        take_items(text, reader, bytes.len())?;
        rest = more;
    }
    reader.feed(rest)?;
    take_items(text, reader, bytes.len())
}

fn bad_word(text: &mut String, bad: &Bad) -> Result<(), AllocError> {
    let (place, reason) = (bad.place, bad.reason);
    write!(text, "{reason:?}@{place}")
}

// How the stream ends where no further item is whole, and how many bytes are buffered then.
fn end_word(text: &mut String, reader: &mut Reader) -> Result<(), AllocError>
    requires { IsDrained reader.old }
{
    let held = reader.buffered();
    match reader.end() {
        Some(bad) => {
            bad_word(text, &bad)?;
            write!(text, " held={held}")
        }
        None => text.push_str("end"),
    }
}

// A further item, or how the stream ends.
fn last_word(text: &mut String, reader: &mut Reader) -> Result<(), AllocError> {
    match reader.next()? {
        Step::Item(item, place) => say_item(text, item, place),
        Step::Bad(bad) => bad_word(text, &bad),
        Step::NeedMore => end_word(text, reader),
    }
}

// The items of the bytes in pieces of so many, and how they end.
fn items_words(
    text: &mut String,
    reader: &mut Reader,
    bytes: &[u8],
    size: usize,
) -> Result<(), AllocError>
    requires some { 0 < size }
    requires fresh { fed reader.old ≡ 0 }
{
    feed_pieces(text, reader, bytes, size)?;
    last_word(text, reader)
}

fn items_of(alloc: Global, text: &mut String, bytes: &[u8], size: usize) -> Result<(), AllocError>
    requires { 0 < size }
{
    let mut reader = Reader::new(alloc, Limits::standard());
    let said = items_words(text, &mut reader, bytes, size);
    drop(reader);
    said
}

/// `items PIECE TEXT`: the items of the text in pieces of so many bytes, and how it ends; where it is cut short, also how
/// many bytes are held then.
fn items(alloc: Global, row: &Row) -> Result<String, AllocError> {
    let bytes = row.bytes(alloc, 2)?;
    let size = (row.number(1) as usize).max(1);
    let mut text = String::new(alloc);
    items_of(alloc, &mut text, bytes.as_slice(), size)?;
    Ok(text)
}

fn groups_words(text: &mut String, groups: &[Group]) -> Result<(), AllocError> {
    for group in groups {
        count_word(text, letter(group), group.len())?;
    }
    Ok(())
}

fn message_word(text: &mut String, message: &Message) -> Result<(), AllocError> {
    count_word(text, "body", message.body.len())?;
    place_word(text, message.place, "[")?;
    groups_words(text, message.groups.as_slice())?;
    text.push_str(if message.excess { "] excess " } else { "] " })
}

// Says a copy of the message.
fn say_copy(alloc: Global, text: &mut String, message: &Message) -> Result<(), AllocError> {
    let copy = message.copy(alloc)?;
    let said = message_word(text, &copy);
    drop(copy);
    said
}

// Says the message, where there is one.
fn say_message(
    alloc: Global,
    text: &mut String,
    message: Option<Message>,
) -> Result<(), AllocError> {
    match message {
        Some(message) => {
            let said = say_copy(alloc, text, &message);
            drop(message);
            said
        }
        None => Ok(()),
    }
}

// The message that the item ends.
fn push_item(
    alloc: Global,
    text: &mut String,
    assembler: &mut Assembler,
    item: Item,
    place: u64,
) -> Result<(), AllocError> {
    say_message(alloc, text, assembler.push(item, place)?)
}

// The message that the next item ends, and whether there was an item.
fn push_next(
    alloc: Global,
    text: &mut String,
    reader: &mut Reader,
    assembler: &mut Assembler,
) -> Result<bool, AllocError> {
    match reader.next()? {
        Step::Item(item, place) => {
            push_item(alloc, text, assembler, item, place)?;
            Ok(true)
        }
        Step::NeedMore => Ok(false),
        Step::Bad(_) => Ok(false),
    }
}

fn push_all(
    alloc: Global,
    text: &mut String,
    reader: &mut Reader,
    assembler: &mut Assembler,
    most: usize,
) -> Result<(), AllocError> {
    for _ in 0..most {
        if !push_next(alloc, text, reader, assembler)? {
            break;
        }
    }
    say_message(alloc, text, assembler.finish())
}

// Feeds the bytes at once, and says the messages.
fn messages_words(
    alloc: Global,
    text: &mut String,
    reader: &mut Reader,
    assembler: &mut Assembler,
    bytes: &[u8],
) -> Result<(), AllocError>
    requires fresh { fed reader.old ≡ 0 }
{
    reader.feed(bytes)?;
    push_all(alloc, text, reader, assembler, bytes.len())
}

// The messages of the bytes, within the limits.
fn messages_within(
    alloc: Global,
    text: &mut String,
    limits: Limits,
    bytes: &[u8],
) -> Result<(), AllocError> {
    let mut reader = Reader::new(alloc, limits);
    let mut assembler = Assembler::new(alloc, limits);
    let done = messages_words(alloc, text, &mut reader, &mut assembler, bytes);
    drop(assembler);
    drop(reader);
    done
}

/// `messages SIGNATURES TEXT`: the messages of the text, where a message may have so many elements.
fn messages(alloc: Global, row: &Row) -> Result<String, AllocError> {
    let bytes = row.bytes(alloc, 2)?;
    let mut limits = Limits::standard();
    limits.message_signatures = row.number(1).min(1_024) as u16;
    let mut text = String::new(alloc);
    messages_within(alloc, &mut text, limits, bytes.as_slice())?;
    Ok(text)
}

fn only<T: Drop>(alloc: Global, value: T) -> Result<Items<T>, AllocError>
    ensures { IfOk result (λ items. items ≡ value ∷ []) }
{
    let mut items = Items::new(alloc);
    items.push(value)?;
    Ok(items)
}

// The group of the one element that the two texts write.
fn group_of(
    alloc: Global,
    letter: &str,
    first: &[u8],
    second: &[u8],
) -> Result<Option<Group>, AllocError>
    ensures one { IfOk result (λ found. IfSome found (λ group. elements_of group ≡ 1)) }
{
    match letter {
        "A" => signatures(alloc, first, false),
        "B" => signatures(alloc, first, true),
        "C" => couple(alloc, first, second),
        "E" => first_seen(alloc, first, second),
        _ => anchor(alloc, first, second),
    }
}

fn group(alloc: Global, row: &Row) -> Result<Option<Group>, AllocError>
    ensures one { IfOk result (λ found. IfSome found (λ group. elements_of group ≡ 1)) }
{
    let (first, second) = (row.bytes(alloc, 2)?, row.bytes(alloc, 3)?);
    group_of(alloc, row.word(1), first.as_slice(), second.as_slice())
}

fn signatures(alloc: Global, text: &[u8], by_witness: bool) -> Result<Option<Group>, AllocError>
    ensures one { IfOk result (λ found. IfSome found (λ group. elements_of group ≡ 1)) }
{
    match IndexedSig::read(text) {
        Ok((sig, _)) if by_witness => Ok(Some(Group::Witness(only(alloc, sig)?))),
        Ok((sig, _)) => Ok(Some(Group::Controller(only(alloc, sig)?))),
        Err(_) => Ok(None),
    }
}

fn first_seen(alloc: Global, first: &[u8], second: &[u8]) -> Result<Option<Group>, AllocError>
    ensures one { IfOk result (λ found. IfSome found (λ group. elements_of group ≡ 1)) }
{
    match (Number::read(first), Moment::read(second)) {
        (Ok((number, _)), Ok((moment, _))) => {
            Ok(Some(Group::FirstSeen(only(alloc, Seen { number, moment })?)))
        }
        _ => Ok(None),
    }
}

fn anchor(alloc: Global, first: &[u8], second: &[u8]) -> Result<Option<Group>, AllocError>
    ensures one { IfOk result (λ found. IfSome found (λ group. elements_of group ≡ 1)) }
{
    match (Number::read(first), Digest::read(second)) {
        (Ok((number, _)), Ok((digest, _))) => {
            Ok(Some(Group::Anchor(only(alloc, AnchorCouple { number, digest })?)))
        }
        _ => Ok(None),
    }
}

fn couple(alloc: Global, first: &[u8], second: &[u8]) -> Result<Option<Group>, AllocError>
    ensures one { IfOk result (λ found. IfSome found (λ group. elements_of group ≡ 1)) }
{
    match (Key::read(first), Sig::read(second)) {
        (Ok((key, _)), Ok((sig, _))) => couple_of(alloc, key, sig),
        _ => Ok(None),
    }
}

fn couple_of(alloc: Global, key: Key, sig: Sig) -> Result<Option<Group>, AllocError>
    ensures one { IfOk result (λ found. IfSome found (λ group. elements_of group ≡ 1)) }
{
    match key.code {
        KeyCode::Fixed => Ok(Some(Group::Couples(only(alloc, Couple { key, sig })?))),
        KeyCode::Rotating => Ok(None),
    }
}

// The text of a group of one element.
fn group_text(alloc: Global, group: Group) -> Result<String, AllocError>
    requires { elements_of group ≡ 1 }
{
    let item = Item::Group(group);
    let mut sink = MemSink::new(alloc, Items::new(alloc));
    let _ = write_item(&item, &mut sink);
    drop(item);
    String::from_utf8_lossy(alloc, sink.bytes())
}

/// `put LETTER TEXT TEXT`: the group of the element that the texts write, put into a sink.
fn put(alloc: Global, row: &Row) -> Result<String, AllocError> {
    match group(alloc, row)? {
        Some(group) => group_text(alloc, group),
        None => String::from_str(alloc, "none"),
    }
}

/// The answer of the row, where it is one of these calls.
pub(crate) fn answer(alloc: Global, row: &Row) -> Result<Option<String>, AllocError> {
    match row.word(0) {
        "items" => given(items(alloc, row)),
        "messages" => given(messages(alloc, row)),
        "put" => given(put(alloc, row)),
        _ => Ok(None),
    }
}
