//! When spans conflict, and their order: by the start, the longer first. So a span comes after all
//! that enclose it. The lists are in `sorted_spans.rt`. `specs/Steps/Spans`.
ghost use Rattle.std.specs.Prelude.{◌≡◌, ◌++◌, ◌+◌, ◌≤◌, ◌<◌, ℕ, true, false, length, IfOk, IsPermutation};
ghost use Rattle.std.specs.List.{slice_get, slice_index_or};
ghost use Rattle.positions.specs.Span.{SpanValue};
ghost use Rattle.dump.specs.Contained.{conflicts};
ghost use Rattle.dump.specs.Steps.Spans.{span_order, IsOrdered, goes_first};

use positions::Span;
use std::alloc::{AllocError, Global};
use std::cmp::Ordering;

/// Whether the spans are equal, or overlap with neither nested in the other.
pub(crate) fn conflicts(a: Span, b: Span) -> bool
    ensures { result ≡ conflicts a b }
{
    (a.nests(b) && b.nests(a)) || (a.overlaps(b) && !a.nests(b) && !b.nests(a))
}

/// By the start, and of one start the longer first.
pub(crate) fn order(a: &Span, b: &Span) -> Ordering
    ensures { result ≡ span_order a.now b.now }
{
    let ends = b.end().cmp(&a.end());
    a.start().cmp(&b.start()).then(ends)
}

/// Puts the spans in order.
pub(crate) fn sort(spans: &mut Vec<Span>)
    ensures permutation { IsPermutation spans.old.items spans.new.items }
    ensures ordered { IsOrdered spans.new.items }
{
    spans.sort_unstable_by(|a, b| order(a, b));
}

/// Whether the first list's span at `i` goes before the second list's at `j`.
fn goes_first(first: &[Span], i: usize, second: &[Span], j: usize) -> bool
    ensures value { result ≡ goes_first (slice_get first.now i) (slice_get second.now j) }
    ensures first { result ≡ true → i < length first.now }
    ensures second { result ≡ false → i < length first.now → j < length second.now }
{
    match (first.get(i), second.get(j)) {
        (Some(span), Some(other)) => order(other, span).is_ge(),
        (Some(_), None) => true,
        (None, _) => false,
    }
}

/// The spans of two ordered lists, in order.
pub(crate) fn merge(alloc: Global, first: &[Span], second: &[Span]) -> Result<Vec<Span>, AllocError>
    requires first { IsOrdered first.now }
    requires second { IsOrdered second.now }
    ensures all { IfOk result (λ spans. IsPermutation (first.now ++ second.now) spans.items) }
    ensures ordered { IfOk result (λ spans. IsOrdered spans.items) }
{
    let mut spans = Vec::new(alloc);
    let mut i = 0;
    let mut j = 0;
    while i < first.len() || j < second.len() {
        if goes_first(first, i, second, j) {
            spans.push(first[i])?;
            i += 1;
        } else {
            spans.push(second[j])?;
            j += 1;
        }
    }
    Ok(spans)
}
