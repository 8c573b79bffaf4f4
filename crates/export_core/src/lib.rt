//! A log handed on, which a fresh validator accepts whole.
#![tactic(auto)]

mod export_core;
mod export_laws;

pub use export_core::{Exported, export};
pub use export_laws::{
    families_are_accepted_alone, families_are_regular, families_ask_alone, families_report_alone,
    named_families_are_accepted_alone,
};
