//! What stands at a gate's offset.
ghost use Rattle.std.specs.Prelude.{◌∷◌};
ghost use Rattle.shelf_log.specs.ShelfLog.Scans.{IsPiece};

use crate::shelf_log::Version;

/// What the bytes from a gate's offset on begin with.
#[derive(Clone, Copy)]
pub(crate) enum Piece<'a> {
    /// A whole record of this payload.
    Record(&'a [u8]),
    End(End),
}

/// What stands behind whole records.
#[derive(Clone, Copy)]
pub(crate) enum End {
    /// A closed gate.
    Closed,
    /// A record of which there is only a part, or nothing. So far behind the gate's offset stands what isn't whole.
    Part(u64),
    /// A length of 0, or over the greatest.
    OutOfRange,
}

/// The piece at the front of the bytes.
pub(crate) fn piece_of(version: Version, bytes: &[u8]) -> Piece<'_>
    ensures { IsPiece version bytes.now result }
{
    match bytes {
        [] => Piece::End(End::Part(0)),
        [1, behind @ ..] => record_of(version, behind),
        _ => Piece::End(End::Closed),
    }
}

// The piece that begins with an open gate.
fn record_of(version: Version, behind: &[u8]) -> Piece<'_>
    ensures { IsPiece version (1 ∷ behind.now) result }
{
    let Some((length, rest)) = behind.split_first_chunk::<4>() else {
        return Piece::End(End::Part(1));
    };
    let length = u32::from_be_bytes(*length) as usize;
    if length == 0 || length > version.greatest() {
        return Piece::End(End::OutOfRange);
    }
    match rest.get(..length) {
        Some(payload) => Piece::Record(payload),
        None => Piece::End(End::Part(5)),
    }
}
