//! Writing to what may be a file with a greatest size.
ghost use Rattle.std.specs.Prelude.{◌≡◌, ◌≤◌, IfOk};
ghost use Rattle.std.specs.Io.{WritesAtMost};
ghost use Rattle.std.specs.Io.KnownBytes.{WriteAppends};
ghost use Rattle.edges.specs.Room.{room_of};

use std::io;
use std::io::Write;

/// How many bytes may be written yet. Where it is a file, it had this size before the first write: where writes append, the
/// first one goes there, and not to the position.
pub fn room_in_file(size: Option<u64>, position: u64, limit: u64) -> u64
    ensures { result ≡ room_of size position limit }
{
    match size {
        Some(size) => limit.saturating_sub(size.max(position)),
        None => u64::MAX,
    }
}

/// Writes bytes of the front, as many as there is room for at most, and says how many. Without room nothing is asked.
pub fn write_within<W: Write>(output: &mut W, room: u64, bytes: &[u8]) -> io::Result<usize>
    ensures room { IfOk result (λ count. count ≤ room) }
    ensures bound { WritesAtMost result bytes.now }
    ensures bytes { WriteAppends (W.contents output.old) (W.contents output.new) result bytes.now }
{
    let count = bytes.len().min(room as usize);
    if count == 0 {
        return Ok(0);
    }
    output.write(&bytes[..count])
}
