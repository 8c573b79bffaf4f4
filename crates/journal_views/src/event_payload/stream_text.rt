//! The text of a stream, in memory.
ghost use Rattle.std.specs.Prelude.{◌≡◌, ◌++◌, [], OnOk};
ghost use Rattle.cesr_stream.specs.Written.{IsWritable, item_text};

use cesr_stream::{Item, write_item};
use keri_outside::{Failed, Sink};
use std::alloc::{AllocError, Global};

/// The text of the items that were put. As a sink it fails only for want of memory.
#[derive(Drop)]
pub struct StreamText {
    bytes: Vec<u8>,
    faults: u64,
}

impl StreamText {
    /// No items.
    pub fn new(alloc: Global) -> StreamText
        ensures { result.bytes.items ≡ [] }
    {
        StreamText {
            bytes: Vec::new(alloc),
            faults: 0,
        }
    }

    /// Puts an item behind the others.
    pub fn put_item(&mut self, item: &Item) -> Result<(), AllocError>
        requires { IsWritable item.now }
        ensures { OnOk result (self.new.bytes.items ≡ self.old.bytes.items ++ item_text item.now) }
    {
        write_item(item, self).map_err(|_| AllocError)
    }

    /// Puts the bytes of a body behind the other items.
    pub fn put_bytes(&mut self, bytes: &[u8]) -> Result<(), AllocError>
        ensures { OnOk result (self.new.bytes.items ≡ self.old.bytes.items ++ bytes.now) }
    {
        self.bytes.extend_from_slice(bytes)
    }

    /// All that was put.
    pub fn into_bytes(self) -> Vec<u8>
        ensures { result.items ≡ self.bytes.items }
    {
        let StreamText { bytes, .. } = self;
        bytes
    }
}

impl Sink for StreamText {
    ghost use Rattle.std.specs.Prelude.{Some};

    ghost written = { λ text. Some text.bytes.items };

    ghost faults = { λ text. text.faults };

    fn put(&mut self, bytes: &[u8]) -> Result<(), Failed> {
        if self.bytes.extend_from_slice(bytes).is_err() {
            self.faults = self.faults.saturating_add(1);
            return Err(Failed);
        }
        Ok(())
    }
}
