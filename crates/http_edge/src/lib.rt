//! Passes the requests of HTTP/1.1 from a stream of bytes to a desk, and writes the desk's replies.
#![tactic(auto)]

mod commands;
mod fields;
mod forms;
mod head;
mod joined;
mod laws;
mod limits;
mod parameters;
mod queries;
mod reading;
mod refusal;
mod reply;
mod request;
mod route;
mod serve;

pub use laws::{requests_law, run_law};
pub use reply::phrase_law;
pub use route::route_law;
pub use serve::{ServeFault, serve_stream};
