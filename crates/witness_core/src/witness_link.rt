//! A witness at a link: the messages that come in are taken, and the receipts that they make due go out.
mod closes;
mod link;
mod link_end;
mod notes;
mod receipts;
mod service;
mod witnessing;

pub use closes::asks_next;
pub use link_end::LinkEnd;
pub use run_status::Close;
pub use service::serve_link;
pub use witnessing::{LeftView, Service, ServiceView, Witnessing};
