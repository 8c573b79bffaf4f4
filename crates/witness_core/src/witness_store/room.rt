//! How much room of a shelf the events that wait need.
ghost use Rattle.std.specs.Prelude.{◌≡◌, ◌<◌, ◌≤◌, ◌+◌, ◌*◌, ◌++◌, List, IfSome, IfNone, OnOk, flat_map, length, true};
ghost use Rattle.journal.specs.declared.journal.body.Body.{Body};
ghost use Rattle.journal.specs.declared.journal.claim.Claim.{Claim as ClaimOf};
ghost use Rattle.journal.specs.Journal.Grown.{IsGrown};
ghost use Rattle.std.specs.List.{list_all};
ghost use Rattle.journal.specs.Journal.History.{taken};
ghost use Rattle.validator_core.specs.ValidatorCore.View.{accepted_by, base_of, told_of};
ghost use Rattle.witness_core.specs.WitnessStore.Histories.{bodies_in, history_of};
ghost use Rattle.witness_core.specs.WitnessStore.Room.{IsComing, IsKnown, IsRoom, count_waiting as count_waiting_in, is_event, lacks_room as lacks_room_for, signatures_in};
ghost use Rattle.witness_core.specs.WitnessStore.Storing.{AreStored};

use journal::Claim;
use keri_outside::Limits;
use shelf_log::{Disk, Shelf};
use std::alloc::AllocError;
use validator_core::Core;

/// How much room of a shelf the events that wait need at most.
#[derive(Drop)]
pub struct Room {
    /// How many signatures of the controller came with each body, by its number.
    pub(crate) signatures: Vec<u32>,
    /// Bytes of a shelf that the events that wait need.
    pub(crate) reserved: u64,
}

/// A message that is to be taken: the number of its body, where it is held, how long that is, and how many
/// signatures of the controller come with it.
#[derive(Clone, Copy, PartialEq, Eq, Debug)]
pub struct Coming {
    pub number: Option<u32>,
    pub bytes: usize,
    pub signatures: usize,
}

impl Room {
    ghost use Rattle.std.specs.Prelude.{◌++◌, ◌∷◌, [], ◌^◌, get_or, set, if◌then◌else◌};

    /// Signatures came with the body of a number, whose event waits or is accepted.
    pub fn add_signatures(&mut self, number: u32, signatures: u32, waits: bool)
        requires held { number < length self.old.signatures.items }
        requires few { get_or self.old.signatures.items number 0 + signatures < 2 ^ 32 }
        requires small { self.old.reserved ≤ 1073741824 }
        ensures signatures { self.new.signatures.items
            ≡ set self.old.signatures.items number (get_or self.old.signatures.items number 0 + signatures) }
        ensures reserved { self.new.reserved ≡ self.old.reserved + (if waits then 92 * signatures else 0) }
    {
        self.signatures[number as usize] += signatures;
        if waits {
            self.reserved += 92 * u64::from(signatures);
        }
    }

    /// A body of so many bytes came first, with signatures, and its event waits.
    pub fn add_body(&mut self, bytes: usize, signatures: u32) -> Result<(), AllocError>
        requires short { bytes ≤ 65535 }
        requires small { self.old.reserved ≤ 1073741824 }
        ensures signatures { OnOk result (self.new.signatures.items ≡ self.old.signatures.items ++ signatures ∷ []) }
        ensures reserved { OnOk result (self.new.reserved ≡ self.old.reserved + (bytes + 13 + 92 * signatures)) }
    {
        self.signatures.push(signatures)?;
        self.reserved += weight(bytes, signatures);
        Ok(())
    }

    /// The event at a place of the accepted ones is stored: it waits no more.
    pub(crate) fn release(&mut self, core: &Core, place: usize)
        requires accepted { place < length (accepted_by core.now) }
        requires grown { IsGrown (base_of core.now) }
        requires room { IsRoom (history_of core.now) place self.old }
        ensures room { IsRoom (history_of core.now) (place + 1) self.new }
    {
        let number = core.accepted()[place] as usize;
        let bytes = core.journal().bodies.as_slice()[number].len();
        self.reserved -= weight(bytes, self.signatures[number]);
    }

    // How many bytes of a shelf the body needs at most, with all the signatures that come with it.
    fn needs(&self, coming: Coming) -> u128
        requires { IfSome coming.number (λ n. n < length self.now.signatures.items) }
        ensures some { IfSome coming.number (λ n. result
            ≡ coming.bytes + 13 + 92 * (get_or self.now.signatures.items n 0 + coming.signatures)) }
        ensures none { IfNone coming.number (result ≡ coming.bytes + 13 + 92 * coming.signatures) }
        ensures small { result ≤ 2 ^ 72 }
    {
        let before = match coming.number {
            Some(number) => self.signatures[number as usize],
            None => 0,
        };
        coming.bytes as u128 + 13 + 92 * (u128::from(before) + coming.signatures as u128)
    }
}

/// Whether the shelf has no room for a message that is to be taken.
pub fn lacks_room<D: Disk + Drop>(
    core: &Core,
    shelf: &Shelf<D>,
    room: &Room,
    limits: Limits,
    coming: Coming,
) -> bool
    requires limits { shelf.now.limits ≡ limits }
    requires stored { AreStored (history_of core.now) shelf.now.list shelf.now.limits shelf.now.broken
        (D.shown shelf.now.disk) room.now }
    requires held { IfSome coming.number (λ n. n < length core.now.held) }
    ensures known { IsKnown core.now }
    ensures lacks { (b : Body) (claims : List ClaimOf) → IsComing core.now b claims coming
        → result ≡ lacks_room_for limits (history_of core.now) shelf.now.list b claims }
{
    let listed = shelf.list().len() as u64;
    let waiting = count_waiting(core) as u64;
    let needed = room.needs(coming);
    listed + waiting + 1 > u64::from(limits.records)
        || u128::from(shelf.bytes()) + u128::from(room.reserved) + needed
            > u128::from(limits.shelf_bytes)
}

// How many events wait.
fn count_waiting(core: &Core) -> usize
    requires grown { IsGrown (base_of core.now) }
    requires events { list_all is_event (base_of core.now ++ flat_map taken (told_of core.now)) ≡ true }
    ensures known { IsKnown core.now }
    ensures count { result ≡ count_waiting_in (accepted_by core.now) (bodies_in (history_of core.now)) }
{
    core.journal().bodies.len() - core.accepted().len()
}

/// How many of the claims are signatures of the controller.
pub fn count_signatures(claims: &[Claim]) -> usize
    ensures { result ≡ signatures_in claims.now }
{
    let mut count = 0;
    for claim in claims {
        if let Claim::Controller(_) = claim {
            count += 1;
        }
    }
    count
}

// How many bytes of a shelf a body needs at most.
fn weight(bytes: usize, signatures: u32) -> u64
    requires { bytes ≤ 65535 }
    ensures { result ≡ bytes + 13 + 92 * signatures }
{
    bytes as u64 + 13 + 92 * u64::from(signatures)
}
