//! Tests of `positions` over its public calls.
#![tactic(auto)]

#[cfg(test)]
mod positions_and_spans;
