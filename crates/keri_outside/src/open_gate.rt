//! Open gates.

use crate::Gate;

/// A gate that holds nobody up.
#[derive(Clone, Copy, PartialEq, Eq, Debug, Drop)]
pub struct OpenGate;

impl Gate for OpenGate {
    fn before(&self, _reader: u16, _message: u64) {}

    fn after(&self, _reader: u16, _message: u64) {}
}
