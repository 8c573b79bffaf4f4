//! Plans of events, as their authors write them: lines of a name and a value.
mod draft;
mod entry;
mod event_plan;
mod given_prefix;
mod json_value;
mod kind;
mod laws;
mod line_fault;
mod name;
mod number;
mod plan_reader;
mod plan_text_fault;
mod primitive;
mod promise;
mod reuse;
mod slot;
mod split;
mod value;

pub use event_plan::{EventPlan, PlannedEvent};
pub use laws::spelled_is_makeable;
pub use plan_reader::read_plan;
pub use plan_text_fault::PlanTextFault;
