//! What is exported of a journal for a fresh validator, and the laws of it; and that what is accepted of identifiers which are tied by
//! delegation depends on their own entries alone. Definitions and lemmas; the laws of
//! families stand as the contracts of empty functions.
mod family_laws;

pub use family_laws::{
    families_are_accepted_alone, families_are_regular, families_ask_alone, families_report_alone,
    named_families_are_accepted_alone,
};
