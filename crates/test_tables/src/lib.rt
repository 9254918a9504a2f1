//! Tests of `tables` over its public calls: the opening, the changes and the migration of databases
//! in memory and in files, and what is selected.
#![tactic(auto)]

#[cfg(test)]
mod asserts;
#[cfg(test)]
mod changes;
#[cfg(test)]
mod covering;
#[cfg(test)]
mod migrated;
#[cfg(test)]
mod names;
#[cfg(test)]
mod opening;
#[cfg(test)]
mod selections;
#[cfg(test)]
mod stops;
