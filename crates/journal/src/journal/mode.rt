//! What a core waits for.

/// Whether receipts and seals are waited for: a validator waits for them, a witness or a watcher doesn't.
#[derive(Clone, Copy, PartialEq, Eq, Debug)]
pub enum Mode {
    Full,
    Local,
}
