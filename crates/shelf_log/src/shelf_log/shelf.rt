//! The shelf itself.
ghost use Rattle.std.specs.Prelude.{◌≡◌, ◌<◌, ◌≤◌, ◌||◌, false, length, nat_le, nat_lt};
ghost use Rattle.std.proofs.Props.{props};
ghost use Rattle.shelf_log.specs.ShelfLog.Format.{shelf_front};
ghost use Rattle.shelf_log.specs.ShelfLog.OnDisk.{HoldsDurably};
ghost use Rattle.shelf_log.specs.declared.shelf_log.version.Version.TheVariants.{Two};

use crate::keri_disk::Disk;
use crate::shelf_log::durable::put_durably;
use crate::shelf_log::list_file::read_list;
use crate::shelf_log::record::HEAD;
use crate::shelf_log::scan::Scan;
use crate::shelf_log::store::add;
use crate::shelf_log::{Returned, ShelfFault, Version};
use keri_outside::{Failed, Limits};
use lists::Items;
use std::alloc::Global;

/// A list of payloads on a disk.
#[derive(Drop)]
pub struct Shelf<D: Disk> {
    pub(crate) alloc: Global,
    pub(crate) disk: D,
    pub(crate) list: Items<Items<u8>>,
    // The offset of the closed gate behind the records.
    pub(crate) end: u64,
    pub(crate) limits: Limits,
    // The disk failed in an append.
    pub(crate) broken: bool,
    ghost ends: { end ≡ length (shelf_front Two list) },
    ghost few: { end < 1073741824 },
    ghost counted: { length list ≤ limits.records },
    ghost durable: { broken ≡ false → HoldsDurably (D.shown disk) list } by { Prim.hlevel props },
}

impl<D: Disk + Drop> Shelf<D> {
    ghost use Rattle.std.specs.Prelude.{◌≢◌, ◌+◌, ◌++◌, ◌∷◌, [], List, ℕ, IfOk, IfErr, IfSome, OnOk, OnErr, MatchResult, true};
    ghost use Rattle.shelf_log.specs.KeriDisk.Images.{IsDurable, LeavesOnly};
    ghost use Rattle.shelf_log.specs.KeriDisk.Calls.{Keeps};
    ghost use Rattle.shelf_log.specs.ShelfLog.Answers.{Answers, refusal, HasDiskCause, Reads};
    ghost use Rattle.shelf_log.specs.ShelfLog.Format.{IsSized, shelf_size};
    ghost use Rattle.shelf_log.specs.ShelfLog.OnDisk.{AllHold, HoldsEither, IsUnfinished};
    ghost use Rattle.shelf_log.specs.declared.shelf_log.fault.ShelfFault.TheVariants.{Broken, DiskFault};

    /// A new shelf on a disk whose file is empty: a mark and a closed gate, 9 bytes.
    ///
    /// A stop at any moment leaves an empty file, an empty shelf, or a file that is refused.
    pub fn create(alloc: Global, disk: D, limits: Limits) -> Result<Shelf<D>, Returned<D>>
        requires { (c : List ℕ) → (D.shown disk).images c → c ≡ [] }
        ensures made { IfOk result (λ shelf. (shelf.list ≡ []) × (shelf.limits ≡ limits) × (shelf.broken ≡ false)
            × AllHold (D.shown shelf.disk) []) }
        ensures refused { IfErr result (λ returned. returned.fault ≡ DiskFault) }
        ensures cause { MatchResult result (λ shelf. (D.shown shelf.disk).faults ≡ (D.shown disk).faults)
            (λ returned. HasDiskCause (D.shown disk) (D.shown returned.disk) returned.fault) }
        ensures moments { MatchResult result (λ shelf. LeavesOnly (D.shown disk) (D.shown shelf.disk) IsUnfinished)
            (λ returned. LeavesOnly (D.shown disk) (D.shown returned.disk) IsUnfinished) }
    {
        let mut disk = disk;
        match put_durably(&mut disk, 0, &Version::Two.empty_file()) {
            Ok(()) => Ok(Shelf::of_list(alloc, disk, Items::new(alloc), 8, limits)),
            Err(Failed) => Err(Returned {
                disk,
                fault: ShelfFault::DiskFault,
            }),
        }
    }

    /// Reads a shelf. It syncs first, and writes and cuts nothing, whatever it answers.
    #[tactic(auto, using(crate::proofs::ShelfLogLemmas::Sizes::counted))]
    pub fn read_back(alloc: Global, disk: D, limits: Limits) -> Result<Shelf<D>, Returned<D>>
        ensures made { IfOk result (λ shelf. (shelf.limits ≡ limits) × (shelf.broken ≡ false)
            × AllHold (D.shown shelf.disk) shelf.list) }
        ensures durable { IfErr result (λ returned. returned.fault ≢ DiskFault → IsDurable (D.shown returned.disk)) }
        ensures reads { IfSome (D.shown disk).file
            (λ file. MatchResult result (λ shelf. Reads Two limits file (Ok shelf.list))
            (λ returned. Reads Two limits file (Err returned.fault))) }
        ensures unbroken { IfErr result (λ returned. returned.fault ≢ Broken) }
        ensures keeps { MatchResult result (λ shelf. Keeps (D.shown disk) (D.shown shelf.disk))
            (λ returned. Keeps (D.shown disk) (D.shown returned.disk)) }
        ensures cause { MatchResult result (λ shelf. (D.shown shelf.disk).faults ≡ (D.shown disk).faults)
            (λ returned. HasDiskCause (D.shown disk) (D.shown returned.disk) returned.fault) }
    {
        let mut disk = disk;
        match read_list(alloc, &mut disk, Version::Two, limits) {
            Ok(Scan { list, offset, .. }) => Ok(Shelf::of_list(alloc, disk, list, offset, limits)),
            Err(fault) => Err(Returned { disk, fault }),
        }
    }

    // The shelf of a list for which the disk's file stands, with its closed gate at `end`.
    pub(crate) fn of_list(
        alloc: Global,
        disk: D,
        list: Items<Items<u8>>,
        end: u64,
        limits: Limits,
    ) -> Shelf<D>
        requires end { end ≡ length (shelf_front Two list) }
        requires few { end < 1073741824 }
        requires counted { length list ≤ limits.records }
        requires durable { HoldsDurably (D.shown disk) list }
        ensures { (result.disk ≡ disk) × (result.list ≡ list) × (result.limits ≡ limits) × (result.broken ≡ false) }
    {
        Shelf {
            alloc,
            disk,
            list,
            end,
            limits,
            broken: false,
        }
    }

    /// Adds a payload of 1 to 524,288 bytes. At Ok it is on the disk.
    ///
    /// A stop at any moment leaves the list, or the list with the payload. After a fault of the disk the list is as before,
    /// and each later call is refused.
    pub fn append(&mut self, payload: &[u8]) -> Result<(), ShelfFault>
        requires { IsSized Two payload.now }
        ensures refused { Answers (refusal self.old.broken self.old.limits self.old.list (length payload.now)) result }
        ensures same_list { OnErr result ((self.new.list ≡ self.old.list) × (self.new.limits ≡ self.old.limits)) }
        ensures kept { IfErr result (λ fault. fault ≢ DiskFault
            → (self.new.disk ≡ self.old.disk) × (self.new.broken ≡ self.old.broken)) }
        ensures failed { IfErr result (λ fault. fault ≡ DiskFault → self.new.broken ≡ true) }
        ensures added { OnOk result ((self.new.list ≡ self.old.list ++ payload.now ∷ [])
            × (self.new.limits ≡ self.old.limits) × (self.new.broken ≡ false)) }
        ensures durable { OnOk result (AllHold (D.shown self.new.disk) self.new.list) }
        ensures cause { MatchResult result (λ _. (D.shown self.new.disk).faults ≡ (D.shown self.old.disk).faults)
            (λ fault. HasDiskCause (D.shown self.old.disk) (D.shown self.new.disk) fault) }
        ensures moments { self.old.broken ≡ false
            → LeavesOnly (D.shown self.old.disk) (D.shown self.new.disk) (HoldsEither self.old.list payload.now) }
    {
        if self.broken {
            return Err(ShelfFault::Broken);
        }
        if self.has_no_room(payload.len()) {
            return Err(ShelfFault::LimitReached);
        }
        match add(
            self.alloc,
            &mut self.disk,
            &mut self.list,
            self.end,
            payload,
        ) {
            Ok(()) => {
                self.end += (HEAD + payload.len()) as u64;
                Ok(())
            }
            Err(fault) => {
                self.broken = fault == ShelfFault::DiskFault;
                Err(fault)
            }
        }
    }

    // Whether a payload of so many bytes more would be over a limit.
    fn has_no_room(&self, bytes: usize) -> bool
        requires { bytes ≤ 524288 }
        ensures { result ≡ (nat_le self.now.limits.records (length self.now.list)
            || nat_lt self.now.limits.shelf_bytes (shelf_size Two self.now.list + 5 + bytes)) }
    {
        self.list.len() as u64 >= u64::from(self.limits.records)
            || self.bytes() + (HEAD + bytes) as u64 > u64::from(self.limits.shelf_bytes)
    }

    /// The payloads, in the order in which they came.
    pub fn list(&self) -> &[Items<u8>]
        ensures { result.now ≡ self.now.list }
    {
        self.list.as_slice()
    }

    /// Bytes of the file from its mark to its closed gate.
    pub fn bytes(&self) -> u64
        ensures { result ≡ shelf_size Two self.now.list }
    {
        self.end + 1
    }

    /// The disk.
    pub fn into_disk(self) -> D
        ensures { result ≡ self.disk }
    {
        self.disk
    }
}
