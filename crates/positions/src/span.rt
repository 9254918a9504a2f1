//! Spans of text documents, and how two of them lie: what covers a position, nests or overlaps.
//! `specs/Span`.
ghost use Rattle.std.specs.Prelude.{◌≡◌, ◌↔◌, IsTrue, IsSome, IfSome};
ghost use Rattle.positions.specs.Position.{PositionValue, IsPosition, IsAtOrBefore};
ghost use Rattle.positions.specs.Span.{SpanValue, is_span, covers, nests, overlaps, Covers, Nests};

use crate::position::Position;
use std::marker::Model;

/// The positions from a start up to an end, which is exclusive (Language Server Protocol 3.17,
/// "Range"). The start isn't after the end. Where both are equal the span is empty: it covers
/// nothing and overlaps nothing.
#[derive(Clone, Copy, Debug, PartialEq, Eq, PartialOrd, Ord)]
pub struct Span {
    start: Position,
    end: Position,
}

impl Model for Span {
    ghost use Rattle.std.specs.Prelude.{IsTrue};
    ghost use Rattle.positions.specs.Span.{SpanValue, is_span};

    ghost Value = { SpanValue };

    ghost view = { λ s. record { start = s.start; «end» = s.«end» } };

    ghost invariant = { λ s. IsTrue (is_span s.start s.«end») };

    ghost inverse = { λ s. record { start = s.start; «end» = s.«end» } };
}

impl Span {
    /// The span from a start up to an end. None where the start is after the end.
    pub fn new(start: Position, end: Position) -> Option<Span>
        ensures some { IsSome result ↔ IsTrue (is_span start end) }
        ensures meaning { IsSome result ↔ IsAtOrBefore start end }
        ensures value { IfSome result (λ s. s ≡ record { start = start; «end» = end }) }
    {
        if end.is_before(start) {
            None
        } else {
            Some(Span { start, end })
        }
    }

    /// The first position.
    pub fn start(self) -> Position
        ensures { result ≡ self.start }
    {
        self.start
    }

    /// The first position after the span.
    pub fn end(self) -> Position
        ensures { result ≡ self.«end» }
    {
        self.end
    }

    /// Whether the position lies in this span: at its start or after it, and before its end.
    pub fn covers(self, p: Position) -> bool
        ensures value { result ≡ covers self p }
        ensures meaning { IsTrue result ↔ Covers self p }
    {
        !p.is_before(self.start) && p.is_before(self.end)
    }

    /// Whether this span lies in the other: its start isn't before the other's, and its end isn't
    /// after the other's.
    pub fn nests(self, other: Span) -> bool
        ensures value { result ≡ nests self other }
        ensures meaning { IsTrue result ↔ Nests self other }
    {
        !self.start.is_before(other.start) && !other.end.is_before(self.end)
    }

    /// Whether the greater start is before the lesser end, that is, whether a position is covered
    /// by both.
    pub fn overlaps(self, other: Span) -> bool
        ensures value { result ≡ overlaps self other }
        ensures meaning { IsTrue result ↔ ((p : PositionValue) × (Covers self p × Covers other p)) }
    {
        let start = self.start.later(other.start);
        let end = self.end.earlier(other.end);
        start.is_before(end)
    }
}
