//! Tests of `machine` and `desk` over their public calls: requests to desks with their replies.
#![tactic(auto)]

#[cfg(test)]
mod asserts;
#[cfg(test)]
mod climb;
#[cfg(test)]
mod commands;
#[cfg(test)]
mod desks;
#[cfg(test)]
mod forms;
#[cfg(test)]
mod joins;
#[cfg(test)]
mod lists;
#[cfg(test)]
mod pieces;
#[cfg(test)]
mod profiles;
#[cfg(test)]
mod queries;
