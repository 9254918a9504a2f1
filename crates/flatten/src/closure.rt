//! The numbers that pairs of numbers lead to from a list of starts, in any number of steps:
//! breadth-first search. Each pair is followed once, after the pairs are sorted by source and the
//! first of a source found by binary search. `IsReached` in `specs/Reached`.
ghost use Rattle.std.specs.Prelude.{◌≡◌, ◌==◌, ◌≤◌, ◌↔◌, ℕ, nat_lt, nat_le, true, false, length, map, filter, Contains, IsPermutation, IfOk, OnOk, IfSome, IfNone};
ghost use Rattle.std.specs.List.Sorted.{IsNonDecreasingBy, IsPartitionPoint};
ghost use Rattle.std.specs.Ordering.{nat_cmp};
ghost use Rattle.dump.specs.Places.{IsListing};
ghost use Rattle.dump.specs.Walks.{Path};
ghost use Rattle.flatten.specs.Reached.{IsReached};
ghost use Rattle.flatten.specs.Steps.Found.{Gains};

use crate::budget::Budget;
use crate::fault::FlattenFault;
use crate::found::Found;
use std::alloc::{AllocError, Global};

/// Puts the pairs in the order of their sources.
pub(crate) fn sort_by_source<T>(pairs: &mut Vec<(u32, T)>)
    ensures all { IsPermutation pairs.old.items pairs.new.items }
    ensures ordered { IsNonDecreasingBy (λ p. p.0) pairs.new.items }
{
    pairs.sort_unstable_by_key(|pair| pair.0);
}

/// The pairs in the order of their sources.
pub(crate) fn by_source(alloc: Global, pairs: &[(u32, u32)]) -> Result<Vec<(u32, u32)>, AllocError>
    ensures all { IfOk result (λ sorted. IsPermutation pairs.now sorted.items) }
    ensures ordered { IfOk result (λ sorted. IsNonDecreasingBy (λ p. p.0) sorted.items) }
{
    let mut sorted = Vec::from_slice(alloc, pairs)?;
    sort_by_source(&mut sorted);
    Ok(sorted)
}

/// How many of the pairs, which are in the order of their sources, have a source below this.
fn count_below<T>(pairs: &[(u32, T)], source: u32) -> usize
    requires { IsNonDecreasingBy (λ p. p.0) pairs.now }
    ensures bound { result ≤ length pairs.now }
    ensures point { IsPartitionPoint (λ p. nat_lt p.0 source ≡ true) (λ p. nat_lt p.0 source ≡ false) pairs.now result }
{
    pairs.partition_point(|pair| pair.0 < source)
}

/// How many of the pairs, which are in the order of their sources, have this source or a lesser
/// one, where `below` of them have a lesser one.
fn count_up_to<T>(pairs: &[(u32, T)], source: u32, below: usize) -> usize
    requires sorted { IsNonDecreasingBy (λ p. p.0) pairs.now }
    requires bound { below ≤ length pairs.now }
    requires point { IsPartitionPoint (λ p. nat_lt p.0 source ≡ true) (λ p. nat_lt p.0 source ≡ false) pairs.now below }
    ensures bound { result ≤ length pairs.now }
    ensures point { IsPartitionPoint (λ p. nat_le p.0 source ≡ true) (λ p. nat_le p.0 source ≡ false) pairs.now result }
{
    let mut count = below;
    while count < pairs.len() && pairs[count].0 == source {
        count += 1;
    }
    count
}

/// The pairs out of this source, of pairs in the order of their sources.
pub(crate) fn pairs_from<T>(pairs: &[(u32, T)], source: u32) -> &[(u32, T)]
    requires { IsNonDecreasingBy (λ p. p.0) pairs.now }
    ensures { result.now ≡ filter (λ p. p.0 == source) pairs.now }
{
    let start = count_below(pairs, source);
    let end = count_up_to(pairs, source, start);
    &pairs[start..end]
}

/// The target of the first pair out of this source, of pairs in the order of their sources.
pub(crate) fn target_of(pairs: &[(u32, u32)], source: u32) -> Option<u32>
    requires { IsNonDecreasingBy (λ p. p.0) pairs.now }
    ensures some { IfSome result (λ m. Contains pairs.now (source, m)) }
    ensures none { IfNone result ((m : ℕ) → Contains pairs.now (source, m) → ⊥) }
{
    let pair = pairs.get(count_below(pairs, source))?;
    (pair.0 == source).then_some(pair.1)
}

/// Adds the targets of the pairs.
fn add_targets(found: &mut Found, pairs: &[(u32, u32)]) -> Result<(), AllocError>
    ensures { OnOk result (Gains found.old (map (λ p. p.1) pairs.now) found.new) }
{
    for pair in pairs {
        found.add(pair.1)?;
    }
    Ok(())
}

/// The numbers, each once.
fn found_at(alloc: Global, starts: &[u32]) -> Result<Found, AllocError>
    ensures { IfOk result (λ found. (y : ℕ) → Contains found y ↔ Contains starts.now y) }
{
    let mut found = Found::new(alloc);
    for start in starts {
        found.add(*start)?;
    }
    Ok(found)
}

/// Adds the numbers that a path of the pairs reaches from those that were found; the pairs are in
/// the order of their sources. Each pair that it follows is taken from the budget.
fn follow(found: &mut Found, pairs: &[(u32, u32)], budget: &mut Budget) -> Result<(), FlattenFault>
    requires { IsNonDecreasingBy (λ p. p.0) pairs.now }
    ensures { OnOk result ((y : ℕ) → Contains found.new y ↔ IsReached found.old pairs.now y) }
{
    let mut done = 0;
    while done < found.numbers().len() {
        let source = found.numbers()[done];
        let targets = pairs_from(pairs, source);
        budget.take(targets.len())?;
        add_targets(found, targets)?;
        done += 1;
    }
    Ok(())
}

/// The numbers that a path of the pairs, of no step or more, reaches from one of the starts: in
/// order, each once.
pub fn reach(alloc: Global, starts: &[u32], pairs: &[(u32, u32)]) -> Result<Vec<u32>, FlattenFault>
    ensures { IfOk result (λ found. IsListing nat_cmp (IsReached starts.now pairs.now) found.items) }
{
    let sorted = by_source(alloc, pairs)?;
    let mut found = found_at(alloc, starts)?;
    follow(&mut found, &sorted, &mut Budget::new(usize::MAX))?;
    Ok(found.listed())
}

/// The numbers that a path of the pairs, of no step or more, reaches from this one; the pairs are
/// in the order of their sources. Each pair that it follows is taken from the budget.
pub(crate) fn closed(
    alloc: Global,
    start: u32,
    pairs: &[(u32, u32)],
    budget: &mut Budget,
) -> Result<Found, FlattenFault>
    requires { IsNonDecreasingBy (λ p. p.0) pairs.now }
    ensures { IfOk result (λ found. (y : ℕ) → Contains found y ↔ Path pairs.now start y) }
{
    let mut found = found_at(alloc, &[start])?;
    follow(&mut found, pairs, budget)?;
    Ok(found)
}
