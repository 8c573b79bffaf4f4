//! Writing payloads.
ghost use Rattle.std.specs.Prelude.{◌≡◌, ◌≤◌, ◌++◌, OnOk, IfOk, length};
ghost use Rattle.cesr_stream.specs.Written.{item_text};
ghost use Rattle.journal_views.specs.EventPayload.Payloads.{group_of, groups_text, parts_of, payload_of};

use crate::event_payload::stream_text::StreamText;
use cesr_codes::IndexedSig;
use cesr_stream::{Group, Item};
use lists::Items;
use std::alloc::{AllocError, Global};

// Two digits count no more (CESR, counters).
const MOST_IN_A_GROUP: usize = 4_095;

/// The body, and behind it the signatures in groups.
pub fn payload(alloc: Global, body: &[u8], sigs: &[IndexedSig]) -> Result<Vec<u8>, AllocError>
    ensures { IfOk result (λ payload. payload.items ≡ payload_of body.now sigs.now) }
{
    let mut text = StreamText::new(alloc);
    text.put_bytes(body)?;
    put_groups(alloc, sigs, &mut text)?;
    Ok(text.into_bytes())
}

// Puts the signatures, in as many groups as they need.
fn put_groups(alloc: Global, sigs: &[IndexedSig], text: &mut StreamText) -> Result<(), AllocError>
    ensures { OnOk result (text.new.bytes.items ≡ text.old.bytes.items ++ groups_text (parts_of sigs.now)) }
{
    for part in sigs.chunks(MOST_IN_A_GROUP) {
        put_group(alloc, part, text)?;
    }
    Ok(())
}

// Puts a group of signatures.
fn put_group(alloc: Global, sigs: &[IndexedSig], text: &mut StreamText) -> Result<(), AllocError>
    requires { length sigs.now ≤ 4095 }
    ensures { OnOk result (text.new.bytes.items ≡ text.old.bytes.items ++ item_text (group_of sigs.now)) }
{
    let group = Group::Controller(Items::from_vec(Vec::from_slice(alloc, sigs)?));
    text.put_item(&Item::Group(group))
}
