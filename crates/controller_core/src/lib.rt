//! A controller's plans, the messages that are made of them, and whole logs.
#![tactic(auto)]

mod controller_core;
mod log_maker;
mod plan_text;

pub use controller_core::{Plan, PlanFault, Slot, delegate, incept, interact, rotate};
pub use log_maker::{LogMaker, Totals, totals_of};
pub use plan_text::{EventPlan, PlanTextFault, PlannedEvent, read_plan, spelled_is_makeable};
