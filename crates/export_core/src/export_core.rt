//! The log of an identifier and of its delegators, as messages for a fresh validator.
mod came;
mod exported_events;
mod family;
mod family_export;
mod good_claims;
mod groups;
mod messages;
mod signers;

pub use exported_events::Exported;
pub use family_export::export;
