//! Writing the items of a stream.
ghost use Rattle.std.specs.Prelude.{◌≡◌};
ghost use Rattle.lists.specs.KeriSpecs.Causes.{HasCause};
ghost use Rattle.lists.specs.KeriSpecs.Shown.{Puts};
ghost use Rattle.cesr_stream.specs.Domains.{item_in_domain};
ghost use Rattle.cesr_stream.specs.Written.{IsWritable, item_text};

use crate::domain_writer::AsText;
use crate::writable::{Writable, put_counted, size_counted, size_of_all};
use crate::{AnchorCouple, Couple, DomainWriter, Group, Item, Seen};
use cesr_codes::IndexedSig;
use keri_outside::{Failed, Sink};

/// Puts the spelling of an item, which takes no memory.
pub fn write_item<S: Sink>(item: &Item, sink: &mut S) -> Result<(), Failed>
    requires { IsWritable item.now }

    // All of the spelling is put, or a front of it where the sink fails.
    ensures written { Puts (S.written sink.old) (S.written sink.new) result (item_text item.now) }

    // It fails only where the sink did.
    ensures cause { HasCause (S.faults sink.old) (S.faults sink.new) result }
{
    write_in_domain::<AsText, S>(item, sink)
}

/// Puts a body as it is, and a group or a wrap in a domain, which takes no memory.
pub fn write_in_domain<W: DomainWriter, S: Sink>(item: &Item, sink: &mut S) -> Result<(), Failed>
    requires { IsWritable item.now }

    // All of the spelling is put, or a front of it where the sink fails.
    ensures written { Puts (S.written sink.old) (S.written sink.new) result (item_in_domain W.in_domain item.now) }

    // It fails only where the sink did.
    ensures cause { HasCause (S.faults sink.old) (S.faults sink.new) result }
{
    match item {
        Item::Body(bytes) => sink.put(bytes.as_slice()),
        Item::Group(group) => group.put::<W, S>(sink),
        Item::Wrapped(groups) => {
            let fours = size_of_all(groups.as_slice()) / 4;
            put_counted::<W, Group, S>(b'V', fours, groups.as_slice(), sink)
        }
    }
}

impl Writable for Group {
    ghost use Rattle.cesr_stream.specs.Texts.{group_text};

    ghost text = { group_text };

    fn size(&self) -> usize {
        match self {
            Group::Controller(sigs) | Group::Witness(sigs) => size_counted(sigs.as_slice()),
            Group::Couples(couples) => size_counted(couples.as_slice()),
            Group::FirstSeen(seen) => size_counted(seen.as_slice()),
            Group::Anchor(anchors) => size_counted(anchors.as_slice()),
        }
    }

    fn put<W: DomainWriter, S: Sink>(&self, sink: &mut S) -> Result<(), Failed> {
        match self {
            Group::Controller(sigs) => put_counted::<W, IndexedSig, S>(
                b'A',
                sigs.len(),
                sigs.as_slice(),
                sink,
            ),
            Group::Witness(sigs) => put_counted::<W, IndexedSig, S>(
                b'B',
                sigs.len(),
                sigs.as_slice(),
                sink,
            ),
            Group::Couples(couples) => put_counted::<W, Couple, S>(
                b'C',
                couples.len(),
                couples.as_slice(),
                sink,
            ),
            Group::FirstSeen(seen) => put_counted::<W, Seen, S>(
                b'E',
                seen.len(),
                seen.as_slice(),
                sink,
            ),
            Group::Anchor(anchors) => put_counted::<W, AnchorCouple, S>(
                b'G',
                anchors.len(),
                anchors.as_slice(),
                sink,
            ),
        }
    }
}
