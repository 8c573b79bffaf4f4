//! Reading payloads.
ghost use Rattle.std.specs.Prelude.{◌≡◌, ◌≤◌, ◌++◌, ℕ, List, IfOk, length, take, drop, true};
ghost use Rattle.std.specs.List.{list_all};
ghost use Rattle.lists.specs.KeriSpecs.Hex.{is_hex};
ghost use Rattle.cesr_stream.specs.Front.{size_of};
ghost use Rattle.cesr_stream.specs.Reading.{fresh};
ghost use Rattle.cesr_stream.specs.Written.{IsWritable};
ghost use Rattle.cesr_stream.specs.declared.item.Item.TheVariants.{Body as BodyItem};
ghost use Rattle.journal_views.specs.EventPayload.Payloads.{BeginsWithBody, IsBehindBody, are_groups as are_groups_alone};
ghost use Rattle.journal_views.specs.EventPayload.Payloads.{text_in as text_in_of};
ghost use Rattle.journal_views.specs.EventPayload.Steps.{is_group as is_group_step, size_in as size_in_step};

use cesr_stream::{Group, Item, Reader, Step};
use keri_outside::Limits;
use lists::hex_value;
use std::alloc::{AllocError, Global};

/// The body at the front, by the size that its version string says. It takes no memory.
pub fn body_part(payload: &[u8]) -> &[u8]
    requires { BeginsWithBody payload.now }
    ensures { (body rest : List ℕ) → IsWritable (BodyItem body) → payload.now ≡ body ++ rest → result.now ≡ body }
{
    sized_front(payload)
}

// As many bytes at the front as the version string says.
fn sized_front(payload: &[u8]) -> &[u8]
    requires long { 24 ≤ length payload.now }
    requires digits { list_all is_hex (take 6 (drop 16 payload.now)) ≡ true }
    requires within { size_of payload.now ≤ length payload.now }
    ensures { result.now ≡ take (size_of payload.now) payload.now }
{
    let size = hex_value(&payload[16..22]) as usize;
    &payload[..size]
}

/// The body at the front, where good `-A` groups alone follow it to the end; else no bytes, which no event spells.
pub fn text_in(alloc: Global, payload: &[u8]) -> Result<&[u8], AllocError>
    ensures { IfOk result (λ text. text.now ≡ text_in_of payload.now) }
{
    let mut reader = Reader::new(alloc, Limits::standard());
    let text = text_read(&mut reader, payload);
    drop(reader);
    text
}

// The same, by a reader to which nothing was fed.
fn text_read<'p>(reader: &mut Reader, payload: &'p [u8]) -> Result<&'p [u8], AllocError>
    requires { reader.old ≡ fresh 65535 }
    ensures { IfOk result (λ text. text.now ≡ text_in_of payload.now) }
{
    reader.feed(payload)?;
    let step = reader.next()?;
    match size_in(step) {
        None => Ok(&[]),
        Some(size) if are_groups(reader)? => Ok(&payload[..size]),
        Some(_) => Ok(&[]),
    }
}

// Whether good `-A` groups alone are left.
fn are_groups(reader: &mut Reader) -> Result<bool, AllocError>
    requires { IsBehindBody reader.old }
    ensures { IfOk result (λ yes. yes ≡ are_groups_alone (length reader.old.rest) reader.old.rest) }
{
    while reader.buffered() > 0 {
        let step = reader.next()?;
        if !is_group(&step) {
            return Ok(false);
        }
    }
    Ok(true)
}

// Whether an `-A` group was answered.
fn is_group(step: &Step) -> bool
    ensures { result ≡ is_group_step step.now }
{
    matches!(step, Step::Item(Item::Group(Group::Controller(_)), _))
}

// How many bytes a body has that was answered.
fn size_in(step: Step) -> Option<usize>
    ensures { result ≡ size_in_step step }
{
    match step {
        Step::Item(Item::Body(bytes), _) => Some(bytes.len()),
        _ => None,
    }
}
