//! The numbers of the first results that a vertex has, one for each kind of request.
//! `results_value` in `specs/Rows`.
ghost use Rattle.std.specs.Prelude.{◌≡◌, None, if◌then◌else◌};
ghost use Rattle.std.specs.Option.{option_or};
ghost use Rattle.lsif.specs.RequestKinds.{same_kind};
ghost use Rattle.lsif.specs.declared.request_kind.RequestKind.{RequestKind};
ghost use Rattle.flatten.specs.Rows.{results_value};

use lsif::{REQUEST_KINDS, REQUESTS, RequestKind};

/// The numbers of a vertex's first results along its chain of `next` edges. A result's number is
/// its line in the dump, counted from 1.
#[derive(Clone, Copy, Debug, PartialEq, Eq)]
pub struct Results {
    /// That of each kind of request, at the kind's index.
    pub numbers: [Option<u32>; REQUEST_KINDS],
}

impl Results {
    /// No result.
    pub fn none() -> Results
        ensures { (kind : RequestKind) → results_value result kind ≡ None }
    {
        Results {
            numbers: [None; REQUEST_KINDS],
        }
    }

    /// The number of the result of a request.
    pub fn of(self, kind: RequestKind) -> Option<u32>
        ensures { result ≡ results_value self kind }
    {
        self.numbers[kind.index()]
    }

    /// These, but for a request with this number.
    pub fn with(self, kind: RequestKind, number: Option<u32>) -> Results
        ensures { (other : RequestKind) → results_value result other ≡ (if same_kind kind other then number else results_value self other) }
    {
        let mut numbers = self.numbers;
        numbers[kind.index()] = number;
        Results { numbers }
    }

    /// These, and where one is lacking that of the others.
    pub fn or(self, others: Results) -> Results
        ensures { (kind : RequestKind) → results_value result kind ≡ option_or (results_value self kind) (results_value others kind) }
    {
        let mut results = self;
        for kind in REQUESTS {
            results = results.with(kind, self.of(kind).or(others.of(kind)));
        }
        results
    }
}
