//! The lines behind a plan's first.
ghost use Rattle.std.specs.Prelude.{IfOk};

use crate::controller_core::Slot;
use crate::plan_text::given_prefix::GivenPrefix;
use crate::plan_text::kind::Kind;
use crate::plan_text::line_fault::LineFault;
use crate::plan_text::name::Name;
use crate::plan_text::split::split;
use crate::plan_text::value::read_value;
use cesr_codes::{Digest, DigestCode, Key, Prefix};
use json_tree::{Text, Tree};
use sith::Threshold;
use std::alloc::Global;

/// What a line gives, by its name.
#[derive(Drop)]
pub(crate) enum Entry {
    Prefix(GivenPrefix),
    Code(DigestCode),
    Kt(Threshold),
    Nt(Threshold),
    Key(Key),
    Next(Digest),
    Cut(Key),
    Add(Key),
    Bt(u64),
    Trait(Text),
    Seal(Tree),
    Di(Prefix),
    Sign(Slot),
    /// Behind it a key may be promised that the plan has already.
    Reuse,
}

impl Entry {
    ghost use Rattle.controller_core.specs.declared.plan_text.entry.Entry.{Entry};
    ghost use Rattle.controller_core.specs.PlanText.Entries.{IsLine};
    ghost use Rattle.controller_core.specs.PlanText.Reading.{Gives};

    /// The entry that the line of a plan of this kind spells.
    pub(crate) fn read(alloc: Global, kind: Kind, line: &[u8]) -> Result<Entry, LineFault>
        ensures some { IfOk result (λ entry. IsLine kind line.now entry) }
        ensures only { (entry : Entry) → IsLine kind line.now entry → Gives result entry }
    {
        let Some((name, value)) = split(line, b' ') else {
            return Err(LineFault::Refused);
        };
        let Some(name) = Name::of(name) else {
            return Err(LineFault::Refused);
        };
        read_value(alloc, kind, name, value)
    }
}
