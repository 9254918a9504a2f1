//! What the values of columns read as: numbers, texts, positions, kinds. A value of another type is
//! refused. `specs/Columns`.
ghost use Rattle.std.specs.Prelude.{◌≡◌, ◌∷◌, [], IfOk, string_bytes};
ghost use Rattle.sqlite_value.specs.declared.value.Value.TheVariants.{Int, Text};
ghost use Rattle.sqlite_value.specs.Order.{column};
ghost use Rattle.positions.specs.Position.{IsPosition};
ghost use Rattle.positions.specs.Span.{SpanValue};
ghost use Rattle.lsif.specs.declared.element.MonikerKind.{MonikerKind};
ghost use Rattle.tables.specs.Columns.{position, IsWritten};
ghost use Rattle.flatten.specs.Flat.{kind_index};
ghost use Rattle.tables.specs.Steps.Refusals.{RefusesNoRow};

use crate::fault::Refusal;
use crate::selection::Listed;
use lsif::MonikerKind;
use positions::{Position, Span};
use sqlite::Row;
use sqlite::types::FromSql;

/// The value of one column.
pub(crate) fn column<T: FromSql>(row: &Row, at: usize) -> Result<T, Refusal>
    ensures value { IfOk result (λ x. T.reads_as (column row.now at) x) }
    ensures other { RefusesNoRow result }
{
    match row.get(at) {
        Ok(value) => Ok(value),
        Err(error) => Err(Refusal::Store(error)),
    }
}

/// The kind of a moniker that has this number in a row.
pub(crate) fn kind_of(number: u32) -> Result<MonikerKind, Refusal>
    ensures kind { IfOk result (λ kind. kind_index kind ≡ number) }
    ensures own { (kind : MonikerKind) → kind_index kind ≡ number → RefusesNoRow result }
{
    match number {
        0 => Ok(MonikerKind::Import),
        1 => Ok(MonikerKind::Export),
        2 => Ok(MonikerKind::Local),
        _ => Err(Refusal::Row),
    }
}

/// The span from and to the positions that have these numbers.
pub(crate) fn span_of(start: i64, end: i64) -> Result<Span, Refusal>
    ensures columns { IfOk result (λ span. (Int start ≡ position span.start) × (Int end ≡ position span.«end»)) }
    ensures sound { IfOk result (λ span. IsPosition span.start × IsPosition span.«end») }
    ensures own { (span : SpanValue) → IsWritten span → Int start ≡ position span.start → Int end ≡ position span.«end» → RefusesNoRow result }
{
    match (Position::unpack(start), Position::unpack(end)) {
        (Some(start), Some(end)) => Span::new(start, end).ok_or(Refusal::Row),
        _ => Err(Refusal::Row),
    }
}

impl Listed for String {
    ghost columns = { λ text. Text (string_bytes text) ∷ [] };

    fn read(row: &Row) -> Result<String, Refusal> {
        column(row, 0)
    }
}

impl Listed for i64 {
    ghost columns = { λ n. Int n ∷ [] };

    fn read(row: &Row) -> Result<i64, Refusal> {
        column(row, 0)
    }
}
