//! What readers in threads pass.

/// What each reader passes before and after it hands a message on. It may hold a reader up, as tests do to fix an order,
/// and changes nothing else.
pub trait Gate {
    /// Before the message of this number, counted from 0, of the reader is handed on.
    fn before(&self, reader: u16, message: u64);

    /// After it was handed on.
    fn after(&self, reader: u16, message: u64);
}
