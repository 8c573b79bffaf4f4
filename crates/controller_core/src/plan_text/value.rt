//! Values of a plan's lines.
ghost use Rattle.std.specs.Prelude.{◌≡◌, Ok, IfOk, codes};
ghost use Rattle.controller_core.specs.declared.plan_text.entry.Entry.{Entry};
ghost use Rattle.controller_core.specs.declared.plan_text.entry.Entry.TheVariants.{Reuse};
ghost use Rattle.controller_core.specs.PlanText.Entries.{Says};
ghost use Rattle.controller_core.specs.PlanText.Reading.{Gives};

use crate::plan_text::entry::Entry;
use crate::plan_text::given_prefix::GivenPrefix;
use crate::plan_text::json_value::{read_json, read_threshold, read_trait};
use crate::plan_text::kind::Kind;
use crate::plan_text::line_fault::LineFault;
use crate::plan_text::name::Name;
use crate::plan_text::number::read_number;
use crate::plan_text::primitive::{read_code, read_primitive};
use crate::plan_text::slot::read_slot;
use std::alloc::Global;

/// The entry of this name, in a plan of this kind, with the value that is spelled so.
pub(crate) fn read_value(
    alloc: Global,
    kind: Kind,
    name: Name,
    value: &[u8],
) -> Result<Entry, LineFault>
    ensures some { IfOk result (λ entry. Says kind name value.now entry) }
    ensures only { (entry : Entry) → Says kind name value.now entry → Gives result entry }
{
    match name {
        Name::Prefix => Ok(Entry::Prefix(GivenPrefix::read(kind, value)?)),
        Name::Code => Ok(Entry::Code(read_code(value)?)),
        Name::Kt => Ok(Entry::Kt(read_threshold(alloc, value)?)),
        Name::Nt => Ok(Entry::Nt(read_threshold(alloc, value)?)),
        Name::Key => Ok(Entry::Key(read_primitive(value)?)),
        Name::Next => Ok(Entry::Next(read_primitive(value)?)),
        Name::Cut => Ok(Entry::Cut(read_primitive(value)?)),
        Name::Add => Ok(Entry::Add(read_primitive(value)?)),
        Name::Bt => Ok(Entry::Bt(read_number(value)?)),
        Name::Trait => Ok(Entry::Trait(read_trait(alloc, value)?)),
        Name::Seal => Ok(Entry::Seal(read_json(alloc, value)?)),
        Name::Di => Ok(Entry::Di(read_primitive(value)?)),
        Name::Sign => Ok(Entry::Sign(read_slot(value)?)),
        Name::Reuse => read_reuse(value),
    }
}

// The entry of `reuse`, which has one value.
fn read_reuse(value: &[u8]) -> Result<Entry, LineFault>
    ensures some { IfOk result (λ entry. (value.now ≡ codes "yes") × (entry ≡ Reuse)) }
    ensures only { value.now ≡ codes "yes" → result ≡ Ok Reuse }
{
    match value {
        b"yes" => Ok(Entry::Reuse),
        _ => Err(LineFault::Refused),
    }
}
