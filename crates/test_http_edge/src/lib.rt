//! Tests of `http_edge` over its public calls: what request lines ask of a desk, and the routes of
//! paths.
#![tactic(auto)]

#[cfg(test)]
mod asserts;
#[cfg(test)]
mod requests;
