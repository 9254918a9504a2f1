//! The abstract machine: what an index is, how requests change it and what they are answered. Here
//! are the types of requests and replies, uploads that come in pieces, `Desk`, the trait of what
//! serves requests, and the laws of the machine. What keeps an index is in `tables` and `desk`. The
//! definitions are in `specs/`: `State` and `Machine` for commands, `Answers` and `Joins` for
//! queries, `Runs` and `Retries` for runs.
#![tactic(auto)]

mod bodies;
mod change;
mod code;
mod desk;
mod found;
mod laws;
mod line_reader;
mod names;
mod reply;
mod request;
mod running;
mod selections;
mod tags_part;
mod upload;

pub use bodies::{
    END, PLACES, add_place, dump_accepted, fields_value, hover_found, profile_found,
    projects_found, removal_text, removed, tags_accepted, tags_found,
};
pub use change::{Change, judge};
pub use code::{Code, STORE_REFUSED};
pub use desk::Desk;
pub use found::{FoundPlace, FoundProject, FoundTag};
pub use laws::{answer_law, judgement_law, reply_law, retry_law};
pub use names::{DocUri, Key, ProjectName, is_without_nul, read_number};
pub use reply::Reply;
pub use request::{Command, Query, Request};
pub use running::{RunFault, run};
pub use selections::{Covering, FoundBearer, FoundItem, FoundMark, FoundRange};
pub use tags_part::TagsPart;
pub use upload::{BodyReader, Upload, UploadFault};
