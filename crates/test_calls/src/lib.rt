//! Tests of `calls` over readers, writers and connections of their own: what the calls of the
//! program print, reply and return.
#![tactic(auto)]

#[cfg(test)]
mod asserts;
#[cfg(test)]
mod call;
#[cfg(test)]
mod check;
#[cfg(test)]
mod check_tags;
#[cfg(test)]
mod connections;
#[cfg(test)]
mod faults;
#[cfg(test)]
mod files;
#[cfg(test)]
mod labels;
#[cfg(test)]
mod limits;
#[cfg(test)]
mod replay;
