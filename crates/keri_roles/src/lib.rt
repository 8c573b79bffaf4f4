//! The commands.
#![tactic(auto)]

mod core_roles;
mod item_conversion;
mod keri_roles;
mod plan_answer;

pub use core_roles::{
    BlameWords, FileWords, LinkWords, LinkedOutcome, OneSeat, Outcome, ReadAlone, RivalOutcome,
    SignedOutcome, Works, blame_files, export_files, last_close_of, validate_files, validate_links,
    verifier_failed_last, watch_files, watch_links,
};
pub use item_conversion::{Conversion, convert_items};
pub use journal::Refusal;
pub use keri_roles::{Close, Done, ReaderEnd, Runs, backed, run};
pub use plan_answer::{PlanAnswer, ReadLog, answer_plan};
pub use reader_hub::{ReadOne, read_one};
pub use witness_core::{LinkEnd, serve_link};
