//! `witness`: a witness that is started from its shelf serves a file, or links that come at a door, and how that run ends.
mod door_end;
mod link_service;
mod links_kept;
mod role;
mod unread;
mod viewed;
mod witness_end;
mod witness_file;
mod witness_links;

pub use role::{WitnessWords, witness};
