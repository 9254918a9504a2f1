//! Tests of `streams`, `lsif` and `dump` over their public calls: elements and lines in `elements`,
//! dumps in `dumps`.
#![tactic(auto)]

#[cfg(test)]
mod asserts;
#[cfg(test)]
mod dumps;
#[cfg(test)]
mod elements;
