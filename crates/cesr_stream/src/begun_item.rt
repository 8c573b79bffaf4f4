//! Items that were read in part.
ghost use Rattle.std.specs.Prelude.{◌≡◌, ℕ, Bool, None, IfOk, IfErr, OnOk, length, slice_index, ◌≤◌};
ghost use Rattle.cesr_stream.specs.Begun.{IsBegunItem, IsBodyRead, IsItemAt, IsItemRead, IsWholeItem, MayBeRead, item_part, sized_part};
ghost use Rattle.cesr_stream.specs.Front.{front};
ghost use Rattle.cesr_stream.specs.Stops.{Halts, Stops};

use crate::begun_group::BegunGroup;
use crate::begun_wrap::BegunWrap;
use crate::body::body_size;
use crate::counter::letter_of;
use crate::stop::Stop;
use crate::{BadReason, Item};
use lists::Items;
use std::alloc::Global;

/// An item of which what says its size was read: a body by its size, a group, or a wrap.
#[derive(Drop)]
pub(crate) enum BegunItem {
    Body(usize),
    Group(BegunGroup),
    Wrap(BegunWrap),
}

impl BegunItem {
    // Begins the item at the front. A body may have so many bytes.
    #[tactic(auto, unfolding(crate::specs::Front::front))]
    fn begin(alloc: Global, bytes: &[u8], limit: u32) -> Result<BegunItem, Stop>
        ensures ok { IfOk result (IsBegunItem limit bytes.now) }
        ensures err { IfErr result (λ stop. (begun : Bool) → Stops bytes.now (front limit begun bytes.now) stop) }
    {
        match bytes.first() {
            None => Err(Stop::Unfinished),
            Some(b'{') => match body_size(bytes, limit) {
                Ok(size) => Ok(BegunItem::Body(size)),
                Err(stop) => Err(stop),
            },
            Some(b'-') => BegunItem::begin_attached(alloc, bytes),
            Some(_) => Err(Stop::Refused(0, BadReason::NoStart)),
        }
    }

    // Begins the group or the wrap at the front.
    fn begin_attached(alloc: Global, bytes: &[u8]) -> Result<BegunItem, Stop>
        requires { slice_index bytes.now 0 ≡ 45 }
        ensures ok { IfOk result (λ item. (limit : ℕ) → IsBegunItem limit bytes.now item) }
        ensures err { IfErr result (λ stop. (limit : ℕ) (begun : Bool)
            → Stops bytes.now (front limit begun bytes.now) stop) }
    {
        if letter_of(bytes) == b'V' {
            return match BegunWrap::begin(alloc, bytes) {
                Ok(wrap) => Ok(BegunItem::Wrap(wrap)),
                Err(stop) => Err(stop),
            };
        }
        match BegunGroup::begin(alloc, bytes) {
            Ok(group) => Ok(BegunItem::Group(group)),
            Err(stop) => Err(stop),
        }
    }

    // Reads on, as far as it is there.
    fn read(&mut self, alloc: Global, bytes: &[u8]) -> Result<(), Stop>
        requires { IsItemRead bytes.now self.old }
        ensures read { IsItemRead bytes.now self.new }
        ensures same { item_part self.new ≡ item_part self.old }
        ensures whole { OnOk result (IsWholeItem bytes.now self.new) }
        ensures err { IfErr result (λ stop. (begun : Bool) → Halts bytes.now (item_part self.old begun bytes.now) stop) }
    {
        match self {
            BegunItem::Body(size) if bytes.len() < *size => Err(Stop::Unfinished),
            BegunItem::Body(_) => Ok(()),
            BegunItem::Group(group) => group.read(bytes, None),
            BegunItem::Wrap(wrap) => wrap.read(alloc, bytes),
        }
    }

    // The whole item with its length, where a body came before it or not.
    fn finish(self, alloc: Global, bytes: &[u8], begun: bool) -> Result<(Item, usize), Stop>
        requires read { IsItemRead bytes.now self }
        requires whole { IsWholeItem bytes.now self }
        ensures ok { IfOk result (IsItemAt (item_part self begun bytes.now) bytes.now) }
        ensures err { IfErr result (Halts bytes.now (item_part self begun bytes.now)) }
    {
        match self {
            BegunItem::Body(size) => whole_body(alloc, bytes, size),
            _ if !begun => Err(Stop::Refused(0, BadReason::GroupFirst)),
            BegunItem::Group(group) => {
                let size = group.size();
                Ok((Item::Group(group.group), size))
            }
            BegunItem::Wrap(wrap) => {
                let size = 4 + wrap.place;
                Ok((Item::Wrapped(wrap.groups), size))
            }
        }
    }
}

// The whole body with its length.
fn whole_body(alloc: Global, bytes: &[u8], size: usize) -> Result<(Item, usize), Stop>
    requires read { IsBodyRead bytes.now size }
    requires there { size ≤ length bytes.now }
    ensures ok { IfOk result (IsItemAt (sized_part size bytes.now) bytes.now) }
    ensures err { IfErr result (Halts bytes.now (sized_part size bytes.now)) }
{
    let body = Items::from_vec(Vec::from_slice(alloc, &bytes[..size])?);
    Ok((Item::Body(body), size))
}

/// Reads on in the item at the front, and takes it once it is whole. A body may have so many bytes; `begun` says that
/// one came before.
pub(crate) fn read_item(
    alloc: Global,
    bytes: &[u8],
    limit: u32,
    begun: bool,
    item: &mut Option<BegunItem>,
) -> Result<(Item, usize), Stop>
    requires { MayBeRead limit bytes.now item.old }
    ensures ok { IfOk result (IsItemAt (front limit begun bytes.now) bytes.now) }
    ensures none { OnOk result (item.new ≡ None) }
    ensures read { MayBeRead limit bytes.now item.new }
    ensures err { IfErr result (Halts bytes.now (front limit begun bytes.now)) }
{
    let mut read = match begun_or_new(alloc, bytes, limit, item.take()) {
        Ok(read) => read,
        Err(stop) => return Err(stop),
    };
    match read.read(alloc, bytes) {
        Ok(()) => read.finish(alloc, bytes, begun),
        Err(stop) => {
            *item = Some(read);
            Err(stop)
        }
    }
}

// The item that was begun, or else the one at the front.
fn begun_or_new(
    alloc: Global,
    bytes: &[u8],
    limit: u32,
    item: Option<BegunItem>,
) -> Result<BegunItem, Stop>
    requires { MayBeRead limit bytes.now item }
    ensures ok { IfOk result (IsBegunItem limit bytes.now) }
    ensures err { IfErr result (λ stop. (begun : Bool) → Stops bytes.now (front limit begun bytes.now) stop) }
{
    match item {
        Some(item) => Ok(item),
        None => BegunItem::begin(alloc, bytes, limit),
    }
}
