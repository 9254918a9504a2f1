//! Flattens a checked dump: what its walks lead to, as rows that a query finds by look-up; the
//! numbers that pairs of numbers lead to; and the texts by which keys are compared.
#![tactic(auto)]

mod borne;
mod budget;
mod chains;
mod closure;
mod documents;
mod fault;
mod flattening;
mod found;
mod items;
mod keys;
mod kinds;
mod limits;
mod marks;
mod numbers;
mod parents;
mod places;
mod ranges;
mod results;
mod rows;

pub use closure::reach;
pub use fault::FlattenFault;
pub use flattening::{flatten, flatten_within};
pub use items::role_index;
pub use keys::{key_law, key_text};
pub use marks::kind_index;
pub use results::Results;
pub use rows::{BearerRow, DocRow, HoverRow, ItemRow, MarkRow, RangeRow, Rows};
