//! The vertices and edges that lines of a dump in the Language Server Index Format 0.6.0 spell.
#![tactic(auto)]

mod code;
mod edges;
mod element;
mod events;
mod fault;
mod hovers;
mod id;
mod ids;
mod limits;
mod monikers;
mod profile;
mod reading;
mod request_kind;
mod vertices;

pub use code::Code;
pub use element::{Edge, Element, Event, Item, Moniker, MonikerKind, Package, Property, Vertex};
pub use fault::ReadFault;
pub use id::{Id, IdRef};
pub use ids::{Ids, IdsIter};
pub use limits::LONGEST_LINE;
pub use profile::{PROFILES, Profile};
pub use reading::{profile_law, read_element};
pub use request_kind::{REQUEST_KINDS, REQUESTS, RequestKind};
