//! Numbers in the order in which they were found, each once: the queue of a breadth-first search
//! (`closure.rt`) and, as a hash set, what it has visited.
ghost use Rattle.std.specs.Prelude.{◌≡◌, ◌∷◌, [], Contains, IfOk, OnOk};
ghost use Rattle.std.specs.Ordering.{nat_cmp};
ghost use Rattle.dump.specs.Places.{IsListing};
ghost use Rattle.flatten.specs.Steps.Found.{Gains};

use std::alloc::{AllocError, Global};
use std::collections::HashSet;
use std::marker::Model;

/// Numbers in the order in which they were found, each once.
#[derive(Drop)]
pub(crate) struct Found {
    numbers: Vec<u32>,
    /// The same numbers, so that one is looked up without a search.
    seen: HashSet<u32>,
}

impl Model for Found {
    ghost use Rattle.std.specs.Prelude.{◌≡◌, ℕ, List, nat_eq};
    ghost use Rattle.std.specs.HashSet.{contains};
    ghost use Rattle.std.specs.List.{list_any};

    ghost Value = { List ℕ };

    ghost view = { λ f. f.numbers.items };

    ghost invariant = { λ f. (n : ℕ) → contains nat_eq f.seen n ≡ list_any (nat_eq n) f.numbers.items };
}

impl Found {
    /// No number.
    pub(crate) fn new(alloc: Global) -> Found
        ensures { result ≡ [] }
    {
        Found {
            numbers: Vec::new(alloc),
            seen: HashSet::new(alloc),
        }
    }

    pub(crate) fn numbers(&self) -> &[u32]
        ensures { result.now ≡ self.now }
    {
        &self.numbers
    }

    /// Adds the number, where it isn't there yet.
    pub(crate) fn add(&mut self, number: u32) -> Result<(), AllocError>
        ensures { OnOk result (Gains self.old (number ∷ []) self.new) }
    {
        self.numbers.reserve(1)?;
        if self.seen.insert(number)? {
            self.numbers.push_reserved(number);
        }
        Ok(())
    }

    /// The numbers in order, each once.
    pub(crate) fn listed(self) -> Vec<u32>
        ensures { IsListing nat_cmp (Contains self) result.items }
    {
        let Found { numbers, seen: _ } = self;
        let mut numbers = numbers;
        numbers.sort_unstable();
        numbers.dedup();
        numbers
    }
}
