//! The bodies of events: their fields, their reading and their writing.
#![tactic(auto)]

mod body_fields;
mod event_body;
mod event_writing;

pub use body_fields::{
    Field, Fields, FieldsFault, Form, Kind, LARGEST, digest_in, digest_tree, digests_in,
    digests_tree, fixed_keys_in, keys_in, keys_tree, members_in, number_in, number_tree, prefix_in,
    prefix_tree, read_fields, strings_in, strings_tree, values_in, write_fields,
};
pub use event_body::{
    BodyFault, Event, Inception, Interaction, ReadBody, ReceiptBody, Rotation, one_event, read_body,
};
pub use event_writing::{EventText, sealed, sealed_text, writable, write_body};
