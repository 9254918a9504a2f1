//! Positions in a text document and spans between two of them, as the Language Server Protocol has
//! them.
#![tactic(auto)]

mod position;
mod span;

pub use position::{NUMBER_LIMIT, Position, order_law};
pub use span::Span;
