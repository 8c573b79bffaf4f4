//! The text of a message.
ghost use Rattle.std.specs.Prelude.{◌≡◌, ◌++◌, All, IfOk, OnOk, flat_map};
ghost use Rattle.cesr_stream.specs.Texts.{group_text};
ghost use Rattle.cesr_stream.specs.Written.{IsCounted};
ghost use Rattle.keri_roles.specs.PlanAnswer.Answers as specs;

use cesr_stream::{Group, Item, Message};
use journal_views::StreamText;
use lists::CopyValue;
use std::alloc::{AllocError, Global};

/// The body of a message, and its groups behind it.
pub(crate) fn message_text(alloc: Global, message: Message) -> Result<Vec<u8>, AllocError>
    requires { All IsCounted message.groups }
    ensures { IfOk result (λ text. text.items ≡ specs.message_text message) }
{
    let Message { body, groups, .. } = message;
    let mut text = StreamText::new(alloc);
    text.put_bytes(body.as_slice())?;
    put_groups(alloc, groups.as_slice(), &mut text)?;
    Ok(text.into_bytes())
}

// Puts the spellings of groups.
fn put_groups(alloc: Global, groups: &[Group], text: &mut StreamText) -> Result<(), AllocError>
    requires { All IsCounted groups.now }
    ensures { OnOk result (text.new.bytes.items ≡ text.old.bytes.items ++ flat_map group_text groups.now) }
{
    for group in groups {
        text.put_item(&Item::Group(group.copy(alloc)?))?;
    }
    Ok(())
}
