//! Messages out of items.

use crate::{Group, Item, Message};
use keri_outside::Limits;
use lists::Items;
use std::alloc::{AllocError, Global};
use std::marker::Model;

/// Makes the messages of the items that are pushed, in their order.
#[derive(Drop)]
pub struct Assembler {
    alloc: Global,
    limit: u16,
    used: u16,
    current: Option<Message>,
}

impl Model for Assembler {
    ghost use Rattle.std.specs.Prelude.{◌≡◌, ◌≤◌};
    ghost use Rattle.cesr_stream.specs.Assembly.{Assembly, used_by};

    ghost Value = { Assembly };

    ghost view = { λ a. record { limit = a.limit; current = a.current } };

    ghost invariant = { λ a. (a.used ≡ used_by a.current) × (a.used ≤ a.limit) };
}

impl Assembler {
    ghost use Rattle.std.specs.Prelude.{◌≡◌, ◌∷◌, ◌++◌, [], ℕ, List, None, Some, IfOk, OnOk, OnErr};
    ghost use Rattle.cesr_stream.specs.declared.message.Message.{Message};
    ghost use Rattle.cesr_stream.specs.Items.{Placed, placed};
    ghost use Rattle.cesr_stream.specs.Messages.{message};
    ghost use Rattle.cesr_stream.specs.Assembly.{IsAssembled, all_of, assembly, closed_by, grown, pushed};

    /// An assembler to which nothing was pushed, of messages within the limits.
    pub fn new(alloc: Global, limits: Limits) -> Assembler
        ensures empty { result ≡ assembly limits.message_signatures None }
        ensures assembled { IsAssembled limits.message_signatures [] [] result }
    {
        Assembler {
            alloc,
            limit: limits.message_signatures,
            used: 0,
            current: None,
        }
    }

    /// Takes the next item with its place, and answers the message that it ends.
    pub fn push(&mut self, item: Item, place: u64) -> Result<Option<Message>, AllocError>
        // A body ends the message that is open, and nothing else does.
        ensures answer { IfOk result (λ answer. answer ≡ closed_by item self.old.current) }

        // All that was answered and the open message are the messages of all the items.
        ensures assembled { IfOk result (λ answer. (limit : ℕ) (items : List Placed) (answered : List Message)
            → IsAssembled limit items answered self.old
            → IsAssembled limit (items ++ placed place item ∷ []) (answered ++ all_of answer) self.new) }
        ensures err { OnErr result (self.new ≡ self.old) }
    {
        self.push_exact(item, place)
    }

    /// Answers the open message, since no more items come.
    pub fn finish(&mut self) -> Option<Message>
        ensures answer { result ≡ self.old.current }
        ensures empty { self.new ≡ assembly self.old.limit None }
        ensures assembled { (limit : ℕ) → self.old.limit ≡ limit → IsAssembled limit [] [] self.new }
    {
        self.used = 0;
        self.current.take()
    }

    // The next item, where all is said by the item and the open message.
    fn push_exact(&mut self, item: Item, place: u64) -> Result<Option<Message>, AllocError>
        ensures answer { IfOk result (λ answer. answer ≡ closed_by item self.old.current) }
        ensures pushed { OnOk result (self.new ≡ pushed self.old place item) }
        ensures err { OnErr result (self.new ≡ self.old) }
    {
        match item {
            Item::Body(body) => Ok(self.begin(body, place)),
            Item::Group(group) => {
                let mut groups = Items::new(self.alloc);
                groups.push(group)?;
                self.add(groups)?;
                Ok(None)
            }
            Item::Wrapped(groups) => {
                self.add(groups)?;
                Ok(None)
            }
        }
    }

    // Opens the message of a body, and answers the one before it.
    fn begin(&mut self, body: Items<u8>, place: u64) -> Option<Message>
        ensures answer { result ≡ self.old.current }
        ensures begun { self.new ≡ assembly self.old.limit (Some (message self.old.limit place body [])) }
    {
        self.used = 0;
        self.current.replace(Message {
            place,
            body,
            groups: Items::new(self.alloc),
            excess: false,
        })
    }

    // Adds groups to the open message, where one is open.
    fn add(&mut self, groups: Items<Group>) -> Result<(), AllocError>
        ensures ok { OnOk result (self.new ≡ grown self.old groups) }
        ensures err { OnErr result (self.new ≡ self.old) }
    {
        let Some(message) = &mut self.current else {
            return Ok(());
        };
        self.used = message.add(self.alloc, groups, self.limit, self.used)?;
        Ok(())
    }
}
