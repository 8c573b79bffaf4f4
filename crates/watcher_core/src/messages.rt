//! Messages of a body with signatures on it.
ghost use Rattle.std.specs.Prelude.{◌≡◌, ◌≤◌, ◌++◌, OnOk, flat_map, length};
ghost use Rattle.cesr_stream.specs.Written.{item_text};
ghost use Rattle.watcher_core.specs.Evidence.{items_with, message_of, parts_of};

use cesr_codes::IndexedSig;
use cesr_stream::{Group, Item};
use journal_views::StreamText;
use lists::Items;
use std::alloc::{AllocError, Global};

// A reader takes no more elements in one message at the standard limits.
const MOST_IN_A_MESSAGE: usize = 1_024;

/// Puts a body with signatures, in as many messages as these need, and alone where there are none.
pub(crate) fn put_signed(
    alloc: Global,
    bytes: &[u8],
    sigs: &[IndexedSig],
    text: &mut StreamText,
) -> Result<(), AllocError>
    ensures { OnOk result (text.new.bytes.items ≡ text.old.bytes.items
        ++ flat_map item_text (items_with bytes.now sigs.now)) }
{
    if sigs.is_empty() {
        return text.put_bytes(bytes);
    }
    put_messages(alloc, bytes, sigs, text)
}

// Puts a body once for each part of the signatures, with that behind it.
fn put_messages(
    alloc: Global,
    bytes: &[u8],
    sigs: &[IndexedSig],
    text: &mut StreamText,
) -> Result<(), AllocError>
    ensures { OnOk result (text.new.bytes.items ≡ text.old.bytes.items
        ++ flat_map item_text (flat_map (message_of bytes.now) (parts_of sigs.now))) }
{
    for part in sigs.chunks(MOST_IN_A_MESSAGE) {
        put_message(alloc, bytes, part, text)?;
    }
    Ok(())
}

// Puts a body, and behind it a group of signatures.
fn put_message(
    alloc: Global,
    bytes: &[u8],
    sigs: &[IndexedSig],
    text: &mut StreamText,
) -> Result<(), AllocError>
    requires { length sigs.now ≤ 1024 }
    ensures { OnOk result (text.new.bytes.items ≡ text.old.bytes.items
        ++ flat_map item_text (message_of bytes.now sigs.now)) }
{
    text.put_bytes(bytes)?;
    let group = Group::Controller(Items::from_vec(Vec::from_slice(alloc, sigs)?));
    text.put_item(&Item::Group(group))
}
