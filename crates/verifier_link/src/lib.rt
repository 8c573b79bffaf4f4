//! A verifier and a signer that ask a program over a source and a sink, or the rehearsal, and a server that answers by the rehearsal.
#![tactic(auto)]

mod answer;
mod field;
mod helper;
mod length_digits;
mod letter;
mod link;
mod question;
mod question_fields;
mod rehearsal_server;
mod served;
mod stop;
mod wanted;

pub use helper::Helper;
pub use link::Link;
pub use rehearsal_server::serve_rehearsal;
pub use served::Served;
pub use wanted::Wanted;
