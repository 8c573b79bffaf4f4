//! The words that the program is run with.
ghost use Rattle.std.specs.Prelude.{◌≡◌, drop, IfOk};
ghost use Rattle.std.specs.Vec.Iter.{into_iter_items};

use std::alloc::{AllocError, Global};
use std::env;
use std::env::Args;
use std::io::ErrorKind;

/// The words behind the program's name. Where one of them isn't text there are none, which are in no command's form.
pub(crate) fn words(rt: &HostRuntime) -> Result<Vec<String>, AllocError> {
    match env::args(rt) {
        Ok(args) => behind_name(rt.alloc(), args),
        Err(error) if error.kind() == ErrorKind::OutOfMemory => Err(AllocError),
        Err(_) => Ok(Vec::new(rt.alloc())),
    }
}

// All arguments but the first, in order.
fn behind_name(alloc: Global, mut args: Args) -> Result<Vec<String>, AllocError>
    ensures { IfOk result (λ words. words.items ≡ drop 1 (into_iter_items args)) }
{
    let mut words = Vec::new(alloc);
    let _ = args.next();
    for word in args {
        words.push(word)?;
    }
    Ok(words)
}
