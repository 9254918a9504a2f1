//! Tests of `flatten` over its public calls: the rows of dumps.
#![tactic(auto)]

#[cfg(test)]
mod asserts;
#[cfg(test)]
mod closure;
#[cfg(test)]
mod great;
#[cfg(test)]
mod plain;
#[cfg(test)]
mod rows;
