//! A file of records as it is read.
ghost use Rattle.std.specs.Prelude.{◌≡◌, ◌<◌, ◌+◌, ◌^◌, ◌||◌, ◌++◌, ◌∷◌, [], List, ℕ, OnOk, IfOk, length, nat_le};
ghost use Rattle.shelf_log.specs.ShelfLog.Format.{records, IsSized};
ghost use Rattle.shelf_log.specs.ShelfLog.Scans.{GoesOn, HasRead};

use crate::shelf_log::Version;
use crate::shelf_log::piece::{End, Piece, piece_of};
use crate::shelf_log::record::HEAD;
use keri_outside::Limits;
use lists::Items;
use std::alloc::{AllocError, Global};

/// What is read of a file's records so far.
#[derive(Drop)]
pub(crate) struct Scan {
    alloc: Global,
    version: Version,
    limits: Limits,
    // The payloads, unless they are over the limits.
    pub(crate) list: Items<Items<u8>>,
    pub(crate) is_over: bool,
    // The offset of the gate behind the records.
    pub(crate) offset: u64,
}

impl Scan {
    /// Nothing is read but the mark.
    pub(crate) fn new(alloc: Global, version: Version, limits: Limits) -> Scan
        ensures read { HasRead result [] }
        ensures of { (result.version ≡ version) × (result.limits ≡ limits) }
    {
        Scan {
            alloc,
            version,
            limits,
            list: Items::new(alloc),
            is_over: limits.shelf_bytes < 9,
            offset: 8,
        }
    }

    // Whether a record more that ends at this offset makes too many.
    fn is_past(&self, offset: u64) -> bool
        ensures { result ≡ (self.now.is_over || nat_le self.now.limits.records (length self.now.list)
            || nat_le self.now.limits.shelf_bytes offset) }
    {
        self.is_over
            || self.list.len() as u64 >= u64::from(self.limits.records)
            || offset >= u64::from(self.limits.shelf_bytes)
    }

    // One record more.
    fn take(&mut self, payload: &[u8]) -> Result<(), AllocError>
        requires sized { IsSized self.old.version payload.now }
        requires fits { self.old.offset + 5 + length payload.now < 2 ^ 64 }
        ensures read { OnOk result ((payloads : List (List ℕ)) → HasRead self.old payloads
            → HasRead self.new (payloads ++ payload.now ∷ [])) }
        ensures offset { OnOk result (self.new.offset ≡ self.old.offset + 5 + length payload.now) }
        ensures of { (self.new.version ≡ self.old.version) × (self.new.limits ≡ self.old.limits) }
    {
        let offset = self.offset + (HEAD + payload.len()) as u64;
        if self.is_past(offset) {
            self.is_over = true;
            self.offset = offset;
            return Ok(());
        }
        let payload = Items::from_vec(Vec::from_slice(self.alloc, payload)?);
        self.list.push(payload)?;
        self.offset = offset;
        Ok(())
    }

    /// Goes on over the whole records of a window that begins at its offset, and says what stands behind them.
    pub(crate) fn take_window(&mut self, window: &[u8]) -> Result<End, AllocError>
        requires { self.old.offset + length window.now < 2 ^ 64 }
        ensures goes_on { IfOk result (λ end. GoesOn window.now self.old self.new end) }
        ensures of { (self.new.version ≡ self.old.version) × (self.new.limits ≡ self.old.limits) }
    {
        let mut rest = window;
        loop {
            match piece_of(self.version, rest) {
                Piece::Record(payload) => {
                    self.take(payload)?;
                    rest = &rest[HEAD + payload.len()..];
                }
                Piece::End(end) => return Ok(end),
            }
        }
    }
}
