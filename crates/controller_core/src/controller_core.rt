//! Making the messages of an identifier's own events from plans.
mod delegation;
mod event_seal;
mod inception;
mod interaction;
mod last_number;
mod made;
mod plan;
mod plan_fault;
mod planned_body;
mod planned_event;
mod rotation;
mod signature;
mod slot;
mod slot_support;
mod slots;

pub use delegation::delegate;
pub use inception::incept;
pub use interaction::interact;
pub use plan::Plan;
pub use plan_fault::PlanFault;
pub use rotation::rotate;
pub use slot::Slot;
