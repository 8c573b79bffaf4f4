//! Bodies of key events, and their one spelling.
mod body;
mod body_fault;
mod event;
mod event_of;
mod field_values;
mod inception;
mod inception_of;
mod interaction;
mod key_set;
mod laws;
mod numbers;
mod prefix_rule;
mod receipt_body;
mod rotation;
mod rotation_of;
mod said_rule;
mod value_rules;
mod witness_rule;

pub use body::read_body;
pub use body_fault::{BodyFault, ReadBody};
pub use event::Event;
pub use inception::Inception;
pub use interaction::Interaction;
pub use laws::one_event;
pub use receipt_body::ReceiptBody;
pub use rotation::Rotation;
