//! Positions in text documents: a line and a character in UTF-16 code units, in the range that both
//! LSP and the tables can hold. `specs/Position`.
ghost use Rattle.std.specs.Prelude.{◌≡◌, ℕ, ◌<◌, ◌↔◌, IsTrue, IsSome, IfSome, Some, pos};
ghost use Rattle.std.specs.declared.cmp.Ordering.TheVariants.{Less, Equal};
ghost use Rattle.positions.specs.Position.{PositionValue, number_limit, IsPosition, packed_of, IsBefore, is_before, later_of, earlier_of};

use std::marker::Model;

/// The first number above those of lines and characters, which are 0 to 2147483647 (Language Server
/// Protocol 3.17, "uinteger").
pub const NUMBER_LIMIT: u32 = 2147483648;

/// A place in a text document: a zero-based line, and in it a zero-based character, counted in
/// UTF-16 code units (Language Server Protocol 3.17, "Position"). Both numbers are 0 to 2147483647.
/// Ordered by line, then by character.
#[derive(Clone, Copy, Debug, PartialEq, Eq, PartialOrd, Ord)]
pub struct Position {
    line: u32,
    character: u32,
}

impl Model for Position {
    ghost use Rattle.std.specs.Prelude.{◌<◌};
    ghost use Rattle.positions.specs.Position.{PositionValue, number_limit};

    ghost Value = { PositionValue };

    ghost view = { λ p. record { line = p.line; character = p.character } };

    ghost invariant = { λ p. (p.line < number_limit) × (p.character < number_limit) };

    ghost inverse = { λ p. record { line = p.line; character = p.character } };
}

impl Position {
    /// The position at a zero-based line and a zero-based character in UTF-16 code units. None
    /// where either number is above 2147483647.
    pub fn new(line: u32, character: u32) -> Option<Position>
        ensures some { IsSome result ↔ ((line < number_limit) × (character < number_limit)) }
        ensures value { IfSome result (λ p. p ≡ record { line = line; character = character }) }
    {
        if line < NUMBER_LIMIT && character < NUMBER_LIMIT {
            Some(Position { line, character })
        } else {
            None
        }
    }

    /// The zero-based line.
    pub fn line(self) -> u32
        ensures value { result ≡ self.line }
        ensures below { result < number_limit }
    {
        self.line
    }

    /// The zero-based character, in UTF-16 code units.
    pub fn character(self) -> u32
        ensures value { result ≡ self.character }
        ensures below { result < number_limit }
    {
        self.character
    }

    /// The one number `line * 2147483648 + character`, which keeps the order. A table has it in one
    /// column, so that one comparison orders positions.
    pub fn pack(self) -> i64
        ensures value { result ≡ pos (packed_of self) }
        ensures order { (q : PositionValue) → IsPosition q → (IsBefore self q ↔ (packed_of self < packed_of q)) }
    {
        i64::from(self.line) * i64::from(NUMBER_LIMIT) + i64::from(self.character)
    }

    /// The position whose packed number this is. None where there is none.
    pub fn unpack(packed: i64) -> Option<Position>
        ensures some { IfSome result (λ p. IsPosition p × (packed ≡ pos (packed_of p))) }
        ensures only { (p : PositionValue) → IsPosition p → packed ≡ pos (packed_of p) → result ≡ Some p }
    {
        let packed = u64::try_from(packed).ok()?;
        let line = u32::try_from(packed / u64::from(NUMBER_LIMIT)).ok()?;
        let character = u32::try_from(packed % u64::from(NUMBER_LIMIT)).ok()?;
        Position::new(line, character)
    }

    /// Whether this position is before the other, by line, then by character.
    pub(crate) fn is_before(self, other: Position) -> bool
        ensures value { result ≡ is_before self other }
        ensures meaning { IsTrue result ↔ IsBefore self other }
    {
        self < other
    }

    /// The later of the two.
    pub(crate) fn later(self, other: Position) -> Position
        ensures { result ≡ later_of self other }
    {
        if self.is_before(other) { other } else { self }
    }

    /// The earlier of the two.
    pub(crate) fn earlier(self, other: Position) -> Position
        ensures { result ≡ earlier_of self other }
    {
        if other.is_before(self) { other } else { self }
    }
}

/// Positions are ordered by line, then by character.
pub fn order_law()
    ensures before { (p q : PositionValue) → (⟦<Position as Ord>⟧.cmp p q ≡ Less) ↔ IsBefore p q }
    ensures equal { (p q : PositionValue) → (⟦<Position as Ord>⟧.cmp p q ≡ Equal) ↔ (p ≡ q) }
{}
