//! The spans of a document's ranges, in order, and whether a further span conflicts with one of
//! them: binary search, then jump pointers from a span to the last before it that ends later
//! (binary lifting with two links a span). One look-up takes O(log n). The lists grow by the
//! logarithmic method: short ones are merged into the new one, so that n spans in any order, in any
//! number of edges, take O(n log² n) in all.
ghost use Rattle.std.specs.Prelude.{◌≡◌, ◌||◌, ◌++◌, ◌+◌, ◌≤◌, ◌<◌, ℕ, true, false, length, drop, IfOk, OnOk, OnErr, IsPermutation};
ghost use Rattle.std.specs.List.{list_any, slice_index_or};
ghost use Rattle.positions.specs.Position.{is_before};
ghost use Rattle.positions.specs.Span.{SpanValue};
ghost use Rattle.dump.specs.Contained.{conflicts, any_conflicts, has_conflict};
ghost use Rattle.dump.specs.Steps.Spans.{AreBelow, GoesOn, HasLinks, IsOrdered, JumpsTo, goes_by, conflicts_before, joined};

use crate::spans::{conflicts, merge, order, sort};
use positions::{Position, Span};
use std::alloc::{AllocError, Global};
use std::marker::Model;

/// Where a climb from a span goes on. Both are counts: the spans of the list up to and with the one
/// that the link leads to.
#[derive(Clone, Copy)]
pub(crate) struct Link {
    /// The last span before it that ends after it.
    next: usize,
    /// A span that several links in a row lead to, or the same as `next`.
    jump: usize,
    /// How many links the jump passes.
    steps: usize,
}

/// Spans in order, with a link from each to one before it, so that those that enclose a position
/// are found without a look at each span.
#[derive(Drop)]
pub(crate) struct SortedSpans {
    spans: Vec<Span>,
    links: Vec<Link>,
}

impl Model for SortedSpans {
    ghost use Rattle.std.specs.Prelude.{◌≡◌, List, length};
    ghost use Rattle.positions.specs.Span.{SpanValue};
    ghost use Rattle.dump.specs.Steps.Spans.{IsOrdered, HasLinks};

    ghost Value = { List SpanValue };

    ghost view = { λ s. s.spans.items };

    ghost invariant = { λ s. IsOrdered s.spans.items × (length s.links.items ≡ length s.spans.items) × HasLinks s.spans.items s.links.items };
}

/// Whether the position is before the span's end.
fn ends_after(span: Span, position: Position) -> bool
    ensures { result ≡ is_before position span.«end» }
{
    position.cmp(&span.end()).is_lt()
}

/// Whether the span starts before the position.
fn starts_before(span: Span, position: Position) -> bool
    ensures { result ≡ is_before span.start position }
{
    span.start().cmp(&position).is_lt()
}

/// Whether the first span doesn't come after the second.
fn goes_by(span: Span, other: Span) -> bool
    ensures { result ≡ goes_by span other }
{
    order(&other, &span).is_ge()
}

/// How many of the spans don't come after the span.
fn count_up_to(spans: &[Span], span: Span) -> usize
    requires { IsOrdered spans.now }
    ensures bound { result ≤ length spans.now }
    ensures before { (i : ℕ) (d : SpanValue) → i < result → goes_by (slice_index_or spans.now i d) span ≡ true }
    ensures after { (i : ℕ) (d : SpanValue) → result ≤ i → i < length spans.now → goes_by (slice_index_or spans.now i d) span ≡ false }
{
    spans.partition_point(|other| goes_by(*other, span))
}

/// How many of the spans start before the position.
fn count_started(spans: &[Span], position: Position) -> usize
    requires { IsOrdered spans.now }
    ensures bound { result ≤ length spans.now }
    ensures before { (i : ℕ) (d : SpanValue) → i < result → is_before (slice_index_or spans.now i d).start position ≡ true }
    ensures after { (i : ℕ) (d : SpanValue) → result ≤ i → i < length spans.now → is_before (slice_index_or spans.now i d).start position ≡ false }
{
    spans.partition_point(|span| starts_before(*span, position))
}

/// Where a climb goes on from a span that doesn't end after the position. It goes by the jump,
/// where that leads to one that doesn't end after it either.
fn further(spans: &[Span], link: Link, position: Position) -> usize
    requires { link.jump ≤ length spans.now }
    ensures { GoesOn spans.now link position result }
{
    if link.jump > 0 && !ends_after(spans[link.jump - 1], position) {
        link.jump
    } else {
        link.next
    }
}

/// How many of the first so many spans there are up to the last that ends after the position.
fn reaching(spans: &[Span], links: &[Link], count: usize, position: Position) -> usize
    requires links { HasLinks spans.now links.now }
    requires known { count ≤ length links.now }
    requires bound { count ≤ length spans.now }
    ensures bound { result ≤ count }
    ensures over { (k : ℕ) (d : SpanValue) → result ≤ k → k < count → is_before position (slice_index_or spans.now k d).«end» ≡ false }
    ensures reaches { (k : ℕ) (d : SpanValue) → k + 1 ≡ result → is_before position (slice_index_or spans.now k d).«end» ≡ true }
{
    let mut at = count;
    while at > 0 && !ends_after(spans[at - 1], position) {
        let link = links[at - 1];
        at = further(spans, link, position);
    }
    at
}

/// The link to the last of the first so many spans. Its jump goes as far as two jumps from there,
/// where both pass as many links, and else no further. So jumps double in length, and a climb along
/// n links takes O(log n) of them.
fn link_to(links: &[Link], next: usize) -> Link
    requires next { next ≤ length links.now }
    requires below { AreBelow links.now }
    ensures next { result.next ≡ next }
    ensures jump { JumpsTo links.now next result.jump }
{
    if next > 0 {
        let first = links[next - 1];
        if first.jump > 0 {
            let second = links[first.jump - 1];
            if first.steps == second.steps {
                let steps = first.steps.saturating_mul(2).saturating_add(1);
                let jump = second.jump;
                return Link { next, jump, steps };
            }
        }
    }
    Link {
        next,
        jump: next,
        steps: 1,
    }
}

/// The link of each span.
fn links_of(alloc: Global, spans: &[Span]) -> Result<Vec<Link>, AllocError>
    ensures len { IfOk result (λ links. length links.items ≡ length spans.now) }
    ensures links { IfOk result (λ links. HasLinks spans.now links.items) }
{
    let mut links = Vec::new(alloc);
    for span in spans {
        let next = reaching(spans, &links, links.len(), span.end());
        links.push(link_to(&links, next))?;
    }
    Ok(links)
}

/// Whether the span conflicts with the last of so many of these.
fn conflicts_before(spans: &[Span], count: usize, span: Span) -> bool
    requires { count ≤ length spans.now }
    ensures { result ≡ conflicts_before spans.now count span }
{
    count > 0 && conflicts(span, spans[count - 1])
}

impl SortedSpans {
    /// Spans that are in order, with their links.
    pub(crate) fn new(alloc: Global, spans: Vec<Span>) -> Result<SortedSpans, AllocError>
        requires { IsOrdered spans.items }
        ensures { IfOk result (λ sorted. sorted ≡ spans.items) }
    {
        let links = links_of(alloc, &spans)?;
        Ok(SortedSpans { spans, links })
    }

    pub(crate) fn spans(&self) -> &[Span]
        ensures value { result.now ≡ self.now }
        ensures ordered { IsOrdered self.now }
    {
        &self.spans
    }

    fn len(&self) -> usize
        ensures { result ≡ length self.now }
    {
        self.spans.len()
    }

    /// Whether the span conflicts with one of these, of which no two conflict.
    ///
    /// It does where it conflicts with the last that doesn't come after it, with the last of those
    /// that ends after its start, or with the last of those that start before its end which ends
    /// after that.
    fn conflicts_with(&self, span: Span) -> bool
        requires { has_conflict self.now ≡ false }
        ensures { result ≡ list_any (conflicts span) self.now }
    {
        let spans = self.spans();
        let up_to = count_up_to(spans, span);
        let started = count_started(spans, span.end());
        let left = reaching(spans, &self.links, up_to, span.start());
        let right = reaching(spans, &self.links, started, span.end());
        let conflicts_with_last = conflicts_before(spans, up_to, span);
        let conflicts_with_left = conflicts_before(spans, left, span);
        let conflicts_with_right = conflicts_before(spans, right, span);
        conflicts_with_last || conflicts_with_left || conflicts_with_right
    }

    /// Whether two of these conflict.
    ///
    /// They do where one conflicts with the one before it, or with the last before it that ends
    /// after its start.
    fn has_conflict(&self) -> bool
        ensures { result ≡ has_conflict self.now }
    {
        let spans = self.spans();
        for count in 0..spans.len() {
            let span = spans[count];
            let left = reaching(spans, &self.links, count, span.start());
            if conflicts_before(spans, count, span) || conflicts_before(spans, left, span) {
                return true;
            }
        }
        false
    }

    /// Whether one of the targets conflicts with one of these, of which no two conflict.
    fn any_conflict(&self, targets: &[Span]) -> bool
        requires { has_conflict self.now ≡ false }
        ensures { result ≡ any_conflicts targets.now self.now }
    {
        for target in targets {
            if self.conflicts_with(*target) {
                return true;
            }
        }
        false
    }
}

/// Whether one of the targets conflicts with a span of one of the lists, of whose spans no two
/// conflict.
fn conflict_with(lists: &[SortedSpans], targets: &[Span]) -> bool
    requires { has_conflict (joined lists.now) ≡ false }
    ensures { result ≡ any_conflicts targets.now (joined lists.now) }
{
    for list in lists {
        if list.any_conflict(targets) {
            return true;
        }
    }
    false
}

/// Whether one of the targets conflicts with a span of one of the lists, of whose spans no two
/// conflict, or with another target.
pub(crate) fn conflict_after(
    alloc: Global,
    lists: &[SortedSpans],
    targets: Vec<Span>,
) -> Result<bool, AllocError>
    requires { has_conflict (joined lists.now) ≡ false }
    ensures { IfOk result (λ b. b ≡ (any_conflicts targets.items (joined lists.now) || has_conflict targets.items)) }
{
    let mut targets = targets;
    sort(&mut targets);
    let targets = SortedSpans::new(alloc, targets)?;
    if conflict_with(lists, targets.spans()) {
        return Ok(true);
    }
    Ok(targets.has_conflict())
}

/// How many of the lists stay as they are when so many spans come: each of them is more than twice
/// as long as those after it and the new spans together.
fn staying(lists: &[SortedSpans], len: usize) -> usize
    ensures { result ≤ length lists.now }
{
    let mut total = len;
    let mut count = lists.len();
    while count > 0 && lists[count - 1].len() / 2 <= total {
        count -= 1;
        total = total.saturating_add(lists[count].len());
    }
    count
}

/// The spans of the lists from the first on and the targets, which are in order, in one list in
/// order.
fn joined(
    alloc: Global,
    lists: &[SortedSpans],
    first: usize,
    targets: Vec<Span>,
) -> Result<Vec<Span>, AllocError>
    requires first { first ≤ length lists.now }
    requires ordered { IsOrdered targets.items }
    ensures all { IfOk result (λ spans. IsPermutation (joined (drop first lists.now) ++ targets.items) spans.items) }
    ensures ordered { IfOk result (λ spans. IsOrdered spans.items) }
{
    let mut spans = targets;
    let mut count = lists.len();
    while count > first {
        count -= 1;
        spans = merge(alloc, lists[count].spans(), &spans)?;
    }
    Ok(spans)
}

/// Adds the targets to the lists: they and the short lists at the end become one list. Each list is
/// then more than twice as long as all after it. So there are at most log n of them, and a span is
/// merged at most log n times. Where memory is refused all stays as it is.
pub(crate) fn add(
    alloc: Global,
    lists: &mut Vec<SortedSpans>,
    targets: Vec<Span>,
) -> Result<(), AllocError>
    ensures ok { OnOk result (IsPermutation (joined lists.old.items ++ targets.items) (joined lists.new.items)) }
    ensures err { OnErr result (lists.new.items ≡ lists.old.items) }
{
    let mut targets = targets;
    sort(&mut targets);
    let count = staying(lists, targets.len());
    let spans = joined(alloc, lists, count, targets)?;
    let last = SortedSpans::new(alloc, spans)?;
    lists.reserve(1)?;
    lists.truncate(count);
    lists.push_reserved(last);
    Ok(())
}
