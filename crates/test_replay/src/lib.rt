//! Tests of streams of requests over the whole way: `http_edge` over `desk` over `tables`, as
//! `codenav replay` has them; and of stores that stop in the midst of one.
#![tactic(auto)]

#[cfg(test)]
mod asserts;
#[cfg(test)]
mod cut;
#[cfg(test)]
mod edge;
#[cfg(test)]
mod malicious;
#[cfg(test)]
mod replies;
#[cfg(test)]
mod stops;
