//! Limits, order and packed forms of positions, and what spans cover, nest and overlap.
use positions::{Position, Span, order_law};
use std::test::Fail;

fn at(line: u32, character: u32) -> Result<Position, &'static str> {
    Position::new(line, character).ok_or("no position")
}

fn span(line: u32, from: u32, to: u32) -> Result<Span, &'static str> {
    Span::new(at(line, from)?, at(line, to)?).ok_or("no span")
}

#[test]
fn positions_have_limits_and_an_order(rt: HostRuntime) -> Result<(), Fail> {
    assert!(rt; Position::new(2147483648, 0).is_none());
    assert!(rt; Position::new(0, 2147483648).is_none());
    let last = at(2147483647, 2147483647)?;
    assert_eq!(rt; (last.line(), last.character()), (2147483647, 2147483647));
    order_law();
    assert!(rt; at(1, 9)? < at(2, 0)?);
    assert!(rt; at(2, 0)? < at(2, 1)?);
    Ok(())
}

#[test]
fn packed_positions(rt: HostRuntime) -> Result<(), Fail> {
    let table = [
        (0, 0, 0),
        (0, 5, 5),
        (1, 0, 2147483648),
        (2, 3, 4294967299),
        (2147483647, 2147483647, 4611686018427387903),
    ];
    for (line, character, packed) in table {
        let position = at(line, character)?;
        assert_eq!(rt; position.pack(), packed, "{line}:{character}");
        assert_eq!(rt;
            Position::unpack(packed),
            Some(position),
            "{line}:{character}"
        );
    }
    assert!(rt; Position::unpack(-1).is_none());
    assert!(rt; Position::unpack(4611686018427387904).is_none());
    Ok(())
}

#[test]
fn spans_cover_nest_and_overlap(rt: HostRuntime) -> Result<(), Fail> {
    assert!(rt; Span::new(at(0, 5)?, at(0, 4)?).is_none());
    let word = span(0, 4, 7)?;
    assert_eq!(rt; (word.start(), word.end()), (at(0, 4)?, at(0, 7)?));
    for (character, covered) in [(3, false), (4, true), (6, true), (7, false)] {
        assert_eq!(rt; word.covers(at(0, character)?), covered, "at {character}");
    }
    let empty = span(0, 5, 5)?;
    assert!(rt; !empty.covers(at(0, 5)?));
    assert!(rt; !empty.overlaps(word));
    assert!(rt; empty.nests(word));
    assert!(rt; !word.nests(span(0, 4, 6)?));
    assert!(rt; word.nests(span(0, 4, 7)?));
    assert!(rt; word.overlaps(span(0, 6, 9)?));
    assert!(rt; !word.overlaps(span(0, 7, 9)?));
    assert!(rt; !word.overlaps(span(1, 4, 7)?));
    Ok(())
}
