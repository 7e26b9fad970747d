//! What the office answers, as JSON; and one exchange over HTTP (RFC 9112): a request is read,
//! carried out by an office, and answered.

// The texts of replies and refusals are used by the lines of a run and by HTTP, so they are a crate
// apart from the run, which `wb_daemon` has. One exchange stands beside them, and the loop over
// connections in `wb_serve`.

#![tactic(auto)]

mod answer;
mod ask;
mod coming;
mod command;
mod encode;
mod failure;
mod fault;
mod key;
pub mod laws;
mod lists_exchange;
mod merge;
mod merge_answer;
mod query;
mod refusal;
mod request;
mod rights;
mod route;
mod row;
mod serve;
mod service;
mod status;

pub use coming::{Coming, coming_of};
pub use encode::reply_json;
pub use fault::{file_fault_json, line_fault_json};
pub use lists_exchange::{answer_with_lists, serve_with_lists};
pub use query::query_json;
pub use refusal::{refusal_json, try_refusal_json};
pub use request::{Received, Request, read_request};
pub use route::Routes;
pub use serve::{Served, serve_one};
pub use service::Service;
pub use status::status_of;
