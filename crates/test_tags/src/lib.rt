//! Tests of `tags` over its public calls.
#![tactic(auto)]

#[cfg(test)]
mod tags_files;
