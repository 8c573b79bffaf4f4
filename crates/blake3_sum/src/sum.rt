//! What the program does, over any reader and writer.
ghost use Rattle.std.specs.Prelude.{◌≡◌, ◌<◌, ◌++◌, ◌∷◌, [], length, IfOk, IfSome, OnOk};
ghost use Rattle.std.specs.Io.KnownBytes.{Appends};
ghost use Rattle.blake3_hash.specs.Tree.{blake3};
ghost use Rattle.hex.specs.Hex.{encode_lower};

use blake3_hash::Hasher;
use std::io;
use std::io::{Error, ErrorKind, Read, Write};

/// The digest of all that is left to be read, which is read in pieces into `piece`. Input that isn't
/// shorter than 2^64 - 1 bytes is `FileTooLarge`.
pub fn digest_of<R: Read>(reader: &mut R, piece: &mut [u8]) -> io::Result<[u8; 32]>
    requires room { 0 < length piece.old }
    ensures digest { IfOk result (λ digest. IfSome (R.remaining reader.old) (λ bytes. digest ≡ blake3 bytes)) }
{
    let mut hasher = Hasher::new();
    let mut left = u64::MAX;
    'pieces: while left > 0 {
        let count = reader.read(piece)?;
        if count == 0 {
            return Ok(hasher.finish());
        }
        if count as u64 > left {
            break;
        }
        hasher.update(&piece[..count]);
        left -= count as u64;
    }
    Err(Error::from(ErrorKind::FileTooLarge))
}

/// Writes the digest of all that is left to be read, in hexadecimal and with a line feed.
pub fn write_sum<R: Read, W: Write>(
    reader: &mut R,
    writer: &mut W,
    piece: &mut [u8],
) -> io::Result<()>
    requires room { 0 < length piece.old }
    ensures written { OnOk result (IfSome (R.remaining reader.old)
        (λ bytes. Appends (W.contents writer.old) (W.contents writer.new) (encode_lower (blake3 bytes) ++ 10 ∷ []))) }
{
    let digest = digest_of(reader, piece)?;
    let mut line = [b'\n'; 65];
    // The digits have their room, so this does not fail.
    let _ = hex::encode_to_slice(&digest, &mut line[..64]);
    writer.write_all(&line)
}
