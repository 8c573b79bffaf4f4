//! Wraps that were read in part.
ghost use Rattle.std.specs.Prelude.{◌≡◌, ◌*◌, ◌<◌, ◌^◌, ℕ, None, OnOk, IfOk, IfErr, slice_index};
ghost use Rattle.cesr_stream.specs.Begun.{AreGroupsRead, IsBegunIn, IsBegunWrap, IsWholeGroup, IsWholeWrap, MayBeBegun};
ghost use Rattle.cesr_stream.specs.Front.{begun_group, groups_part, wrap_part};
ghost use Rattle.cesr_stream.specs.Stops.{Halts, Stops};

use crate::begun_group::BegunGroup;
use crate::counter::{count, judge_counter};
use crate::elements::behind;
use crate::stop::Stop;
use crate::{BadReason, Group};
use lists::Items;
use std::alloc::Global;

/// A wrap of which the counter was read, and some of the groups. Behind its counter it has so many characters in fours,
/// the next group begins at this place, and may have been begun.
#[derive(Drop)]
pub(crate) struct BegunWrap {
    pub groups: Items<Group>,
    pub fours: usize,
    pub place: usize,
    pub begun: Option<BegunGroup>,
}

impl BegunWrap {
    /// Begins the wrap at the front.
    pub(crate) fn begin(alloc: Global, bytes: &[u8]) -> Result<BegunWrap, Stop>
        requires dash { slice_index bytes.now 0 ≡ 45 }
        requires letter { slice_index bytes.now 1 ≡ 86 }
        ensures ok { IfOk result (IsBegunWrap bytes.now) }
        ensures err { IfErr result (Stops bytes.now (wrap_part bytes.now)) }
    {
        match judge_counter(bytes, true) {
            Ok(()) => Ok(BegunWrap {
                groups: Items::new(alloc),
                fours: count(bytes),
                place: 0,
                begun: None,
            }),
            Err(stop) => Err(stop),
        }
    }

    /// Reads on, as far as it is there.
    pub(crate) fn read(&mut self, alloc: Global, bytes: &[u8]) -> Result<(), Stop>
        requires { IsBegunWrap bytes.now self.old }
        ensures read { IsBegunWrap bytes.now self.new }
        ensures whole { OnOk result (IsWholeWrap bytes.now self.new) }
        ensures err { IfErr result (Halts bytes.now (wrap_part bytes.now)) }
    {
        match self.read_groups(alloc, behind(bytes, 4)) {
            Ok(()) => Ok(()),
            Err(stop) => Err(stop.behind(4)),
        }
    }

    // Reads the groups that are left, behind the counter.
    fn read_groups(&mut self, alloc: Global, bytes: &[u8]) -> Result<(), Stop>
        requires short { self.old.fours < 2 ^ 32 }
        requires read { AreGroupsRead bytes.now self.old }
        ensures read { AreGroupsRead bytes.now self.new }
        ensures same { self.new.fours ≡ self.old.fours }
        ensures all { OnOk result (self.new.place ≡ 4 * self.new.fours) }
        ensures err { IfErr result (Halts bytes.now (groups_part self.old.fours (4 * self.old.fours) bytes.now)) }
    {
        while self.place < 4 * self.fours {
            self.read_group(alloc, bytes)?;
        }
        Ok(())
    }

    // Reads the next group.
    fn read_group(&mut self, alloc: Global, bytes: &[u8]) -> Result<(), Stop>
        requires short { self.old.fours < 2 ^ 32 }
        requires more { self.old.place < 4 * self.old.fours }
        requires read { AreGroupsRead bytes.now self.old }
        ensures read { AreGroupsRead bytes.now self.new }
        ensures same { self.new.fours ≡ self.old.fours }
        ensures further { OnOk result (self.old.place < self.new.place) }
        ensures err { IfErr result (Halts bytes.now (groups_part self.old.fours (4 * self.old.fours) bytes.now)) }
    {
        let place = self.place;
        let room = 4 * self.fours - place;
        match read_wrapped(alloc, behind(bytes, place), room, &mut self.begun) {
            Ok(begun) => {
                let size = begun.size();
                self.groups.push(begun.group)?;
                self.place = place + size;
                Ok(())
            }
            Err(stop) => Err(stop.behind(place)),
        }
    }
}

// Reads on in the group at the front of a wrap in which so much is left, and takes it once it is whole.
fn read_wrapped(
    alloc: Global,
    bytes: &[u8],
    room: usize,
    begun: &mut Option<BegunGroup>,
) -> Result<BegunGroup, Stop>
    requires { MayBeBegun room bytes.now begun.old }
    ensures whole { IfOk result (IsWholeGroup (begun_group room bytes.now) bytes.now) }
    ensures none { OnOk result (begun.new ≡ None) }
    ensures read { MayBeBegun room bytes.now begun.new }
    ensures err { IfErr result (Halts bytes.now (begun_group room bytes.now)) }
{
    let mut group = match begun_or_new(alloc, bytes, begun.take()) {
        Ok(group) => group,
        Err(stop) => return Err(stop),
    };
    match group.read(bytes, Some(room)) {
        Ok(()) => Ok(group),
        Err(stop) => {
            *begun = Some(group);
            Err(stop)
        }
    }
}

// The group that was begun, or else the one at the front.
fn begun_or_new(alloc: Global, bytes: &[u8], begun: Option<BegunGroup>) -> Result<BegunGroup, Stop>
    ensures ok { IfOk result (λ group. (room : ℕ) → MayBeBegun room bytes.now begun → IsBegunIn room bytes.now group) }
    ensures err { IfErr result (λ stop. (room : ℕ) → Stops bytes.now (begun_group room bytes.now) stop) }
{
    match begun {
        Some(group) => Ok(group),
        None => begin_wrapped(alloc, bytes),
    }
}

// Begins the group at the front of a wrap.
fn begin_wrapped(alloc: Global, bytes: &[u8]) -> Result<BegunGroup, Stop>
    ensures ok { IfOk result (λ group. (room : ℕ) → IsBegunIn room bytes.now group) }
    ensures err { IfErr result (λ stop. (room : ℕ) → Stops bytes.now (begun_group room bytes.now) stop) }
{
    match bytes.first() {
        None => Err(Stop::Unfinished),
        Some(b'-') => BegunGroup::begin(alloc, bytes),
        Some(_) => Err(Stop::Refused(0, BadReason::NoStart)),
    }
}
