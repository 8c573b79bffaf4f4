//! Groups that were read in part.
ghost use Rattle.std.specs.Prelude.{◌≡◌, ◌+◌, ◌<◌, ◌^◌, ℕ, Option, IfOk, IfErr, OnOk, slice_index, true};
ghost use Rattle.cesr_stream.specs.Begun.{AreElementsRead, IsBegun, IsEmptyGroup, IsSameGroup, IsWholeGroup, count_of, judged_of};
ghost use Rattle.cesr_stream.specs.Front.{elements_part, group_part, is_group as is_group_letter};
ghost use Rattle.cesr_stream.specs.Stops.{Halts, Stops};

use crate::Group;
use crate::counter::{count, is_group, judge_counter, letter_of};
use crate::elements::{behind, read_elements};
use crate::pair::less;
use crate::progress::Progress;
use crate::stop::Stop;
use lists::Items;
use std::alloc::Global;

/// A group of which the counter was read, and some of the elements.
#[derive(Drop)]
pub(crate) struct BegunGroup {
    pub group: Group,
    pub progress: Progress,
}

impl BegunGroup {
    /// Begins the group at the front.
    pub(crate) fn begin(alloc: Global, bytes: &[u8]) -> Result<BegunGroup, Stop>
        requires { slice_index bytes.now 0 ≡ 45 }
        ensures ok { IfOk result (λ begun. (room : Option ℕ) → IsBegun room bytes.now begun) }
        ensures err { IfErr result (λ stop. (room : Option ℕ) → Stops bytes.now (group_part room bytes.now) stop) }
    {
        let letter = letter_of(bytes);
        match judge_counter(bytes, is_group(letter)) {
            Ok(()) => Ok(BegunGroup {
                group: empty_group(alloc, letter),
                progress: Progress {
                    left: count(bytes),
                    place: 0,
                },
            }),
            Err(stop) => Err(stop),
        }
    }

    /// Reads on, as far as it is there, where so much of a wrap is left from its counter on.
    pub(crate) fn read(&mut self, bytes: &[u8], room: Option<usize>) -> Result<(), Stop>
        requires { IsBegun room bytes.now self.old }
        ensures read { IsBegun room bytes.now self.new }
        ensures whole { OnOk result (IsWholeGroup (group_part room bytes.now) bytes.now self.new) }
        ensures err { IfErr result (Halts bytes.now (group_part room bytes.now)) }
    {
        match self.read_elements(behind(bytes, 4), less(room, 4)) {
            Ok(()) => Ok(()),
            Err(stop) => Err(stop.behind(4)),
        }
    }

    // Reads on behind the counter, where so much of a wrap is left there.
    fn read_elements(&mut self, bytes: &[u8], room: Option<usize>) -> Result<(), Stop>
        requires { AreElementsRead room bytes.now self.old }
        ensures read { AreElementsRead room bytes.now self.new }
        ensures same { IsSameGroup self.old self.new }
        ensures all { OnOk result (self.new.progress.left ≡ 0) }
        ensures err { IfErr result (Halts bytes.now
            (elements_part (judged_of self.old.group) (count_of self.old) room bytes.now)) }
    {
        let progress = &mut self.progress;
        match &mut self.group {
            Group::Controller(sigs) => read_elements(bytes, room, sigs, progress),
            Group::Witness(sigs) => read_elements(bytes, room, sigs, progress),
            Group::Couples(couples) => read_elements(bytes, room, couples, progress),
            Group::FirstSeen(seen) => read_elements(bytes, room, seen, progress),
            Group::Anchor(anchors) => read_elements(bytes, room, anchors, progress),
        }
    }

    /// How many bytes were read of it.
    pub(crate) fn size(&self) -> usize
        requires { 4 + self.now.progress.place < 2 ^ 64 }
        ensures { result ≡ 4 + self.now.progress.place }
    {
        4 + self.progress.place
    }
}

// A group without elements, whose counter has this letter.
fn empty_group(alloc: Global, letter: u8) -> Group
    requires { is_group_letter letter ≡ true }
    ensures { IsEmptyGroup letter result }
{
    match letter {
        b'A' => Group::Controller(Items::new(alloc)),
        b'B' => Group::Witness(Items::new(alloc)),
        b'C' => Group::Couples(Items::new(alloc)),
        b'E' => Group::FirstSeen(Items::new(alloc)),
        _ => Group::Anchor(Items::new(alloc)),
    }
}
