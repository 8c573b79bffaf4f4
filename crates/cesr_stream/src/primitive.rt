//! Primitives at the front of a stream.
ghost use Rattle.std.specs.Prelude.{◌≡◌, List};
ghost use Rattle.cesr_codes.specs.Table.{Layout};
ghost use Rattle.cesr_stream.specs.Front.{is_past, primitive_part, shown};
ghost use Rattle.cesr_stream.specs.Judged.{JudgesElement};

use crate::BadReason;
use crate::stop::Stop;
use cesr_codes::{CodeFault, Digest, FixedKey, IndexedSig, Moment, Number, Sig, Spelled};

/// A type of primitives whose code shows how long they are.
pub(crate) trait Primitive: Spelled {
    /// What the code table has for the type.
    ghost layouts: { List Layout };

    /// How many characters the code at the front says, once it shows.
    fn shown(bytes: &[u8]) -> Option<usize>
        ensures { result ≡ shown layouts bytes.now };
}

/// The primitive at the front, where so much of a wrap is left, or how the front is judged.
pub(crate) fn read_primitive<P: Primitive>(
    bytes: &[u8],
    room: Option<usize>,
) -> Result<(P, usize), Stop>
    ensures { JudgesElement (primitive_part P.layouts P.judge room) P.spelling bytes.now result }
{
    if is_past(room, P::shown(bytes)) {
        return Err(Stop::Refused(0, BadReason::WrapLength));
    }
    match P::read_front(bytes) {
        Ok(found) => Ok(found),
        Err(CodeFault::Short) => Err(Stop::Unfinished),
        Err(fault) => Err(Stop::Refused(0, BadReason::Code(fault))),
    }
}

// Whether a primitive of so many characters runs past the wrap's end.
fn is_past(room: Option<usize>, count: Option<usize>) -> bool
    ensures { result ≡ is_past room count }
{
    match (room, count) {
        (None, _) => false,
        (Some(room), None) => room == 0,
        (Some(room), Some(count)) => room == 0 || room < count,
    }
}

impl Primitive for FixedKey {
    ghost use Rattle.cesr_codes.specs.Table.{fixed_layouts};

    ghost layouts = { fixed_layouts };

    fn shown(bytes: &[u8]) -> Option<usize> {
        match bytes {
            [b'B', ..] => Some(44),
            _ => None,
        }
    }
}

impl Primitive for Sig {
    ghost use Rattle.cesr_codes.specs.Table.{sig_layouts};

    ghost layouts = { sig_layouts };

    fn shown(bytes: &[u8]) -> Option<usize> {
        match bytes {
            [b'0', b'B', ..] => Some(88),
            _ => None,
        }
    }
}

impl Primitive for Number {
    ghost use Rattle.cesr_codes.specs.Table.{number_layouts};

    ghost layouts = { number_layouts };

    fn shown(bytes: &[u8]) -> Option<usize> {
        match bytes {
            [b'0', b'A', ..] => Some(24),
            _ => None,
        }
    }
}

impl Primitive for Digest {
    ghost use Rattle.cesr_codes.specs.Table.{digest_layouts};

    ghost layouts = { digest_layouts };

    fn shown(bytes: &[u8]) -> Option<usize> {
        match bytes {
            [b'E' | b'I', ..] => Some(44),
            _ => None,
        }
    }
}

impl Primitive for Moment {
    ghost use Rattle.cesr_stream.specs.Front.{moment_layouts};

    ghost layouts = { moment_layouts };

    fn shown(bytes: &[u8]) -> Option<usize> {
        match bytes {
            [b'1', b'A', b'A', b'G', ..] => Some(36),
            _ => None,
        }
    }
}

impl Primitive for IndexedSig {
    ghost use Rattle.cesr_codes.specs.Table.{indexed_layouts};

    ghost layouts = { indexed_layouts };

    fn shown(bytes: &[u8]) -> Option<usize> {
        match bytes {
            [b'A' | b'B', ..] => Some(88),
            [b'2', b'A' | b'B', ..] => Some(92),
            _ => None,
        }
    }
}
