//! Streams of key event logs that are made from a number, event by event.
mod draw;
mod log;
mod log_maker;
mod made;
mod message;
mod names;
mod plans;
mod rest;
mod totals;

pub use log_maker::LogMaker;
pub use totals::{Totals, totals_of};
