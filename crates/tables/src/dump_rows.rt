//! The rows of a dump's tables, one type each, with the statements that insert them and the values
//! of these. What they hold is in `specs/Columns`.
ghost use Rattle.std.specs.Prelude.{IfSome, ◌≡◌};
ghost use Rattle.lsif.specs.declared.request_kind.RequestKind.TheVariants.{Definition, References, Hover};
ghost use Rattle.flatten.specs.Rows.{document_value, range_value, results_value, item_value, hover_value, mark_value, bearer_value};
ghost use Rattle.tables.specs.Columns.{document_columns, range_columns, item_columns, hover_columns, mark_columns, bearer_columns};
ghost use Rattle.tables.specs.Steps.Inserts.{InsertsOne, InsertsEight};
ghost use Rattle.tables.specs.TableTrees.{document_tree, range_row_tree, item_tree, hover_tree, mark_tree, bearer_tree};

use crate::part_rows::PartRow;
use flatten::{
    BearerRow, DocRow, HoverRow, ItemRow, MarkRow, RangeRow, Results, kind_index, role_index,
};
use lsif::RequestKind;
use sqlite::params;
use sqlite::types::ValueRef;
use std::alloc::AllocError;

const INSERT_DOCUMENT: &str = "INSERT INTO document (slot, uri) VALUES (?1, ?2)";

const INSERT_RANGE: &str =
    "INSERT INTO range_row (slot, line, uri, first, last, parent, def, refs, hover) VALUES (?1, ?2, ?3, ?4, ?5, ?6, ?7, ?8, ?9)";

const INSERT_EIGHT_RANGES: &str =
    "INSERT INTO range_row (slot, line, uri, first, last, parent, def, refs, hover) VALUES (?,?,?,?,?,?,?,?,?),(?,?,?,?,?,?,?,?,?),(?,?,?,?,?,?,?,?,?),(?,?,?,?,?,?,?,?,?),(?,?,?,?,?,?,?,?,?),(?,?,?,?,?,?,?,?,?),(?,?,?,?,?,?,?,?,?),(?,?,?,?,?,?,?,?,?)";

const INSERT_ITEM: &str =
    "INSERT INTO item (slot, result, role, uri, first, last) VALUES (?1, ?2, ?3, ?4, ?5, ?6)";

const INSERT_EIGHT_ITEMS: &str =
    "INSERT INTO item (slot, result, role, uri, first, last) VALUES (?,?,?,?,?,?),(?,?,?,?,?,?),(?,?,?,?,?,?),(?,?,?,?,?,?),(?,?,?,?,?,?),(?,?,?,?,?,?),(?,?,?,?,?,?),(?,?,?,?,?,?)";

const INSERT_HOVER: &str = "INSERT INTO hover (slot, result, contents) VALUES (?1, ?2, ?3)";

const INSERT_EIGHT_HOVERS: &str =
    "INSERT INTO hover (slot, result, contents) VALUES (?,?,?),(?,?,?),(?,?,?),(?,?,?),(?,?,?),(?,?,?),(?,?,?),(?,?,?)";

const INSERT_MARK: &str = "INSERT INTO mark (slot, line, kind, keytext) VALUES (?1, ?2, ?3, ?4)";

const INSERT_EIGHT_MARKS: &str =
    "INSERT INTO mark (slot, line, kind, keytext) VALUES (?,?,?,?),(?,?,?,?),(?,?,?,?),(?,?,?,?),(?,?,?,?),(?,?,?,?),(?,?,?,?),(?,?,?,?)";

const INSERT_BEARER: &str =
    "INSERT INTO bearer (slot, line, keytext, kind, def, refs, hover) VALUES (?1, ?2, ?3, ?4, ?5, ?6, ?7)";

const INSERT_EIGHT_BEARERS: &str =
    "INSERT INTO bearer (slot, line, keytext, kind, def, refs, hover) VALUES (?,?,?,?,?,?,?),(?,?,?,?,?,?,?),(?,?,?,?,?,?,?),(?,?,?,?,?,?,?),(?,?,?,?,?,?,?),(?,?,?,?,?,?,?),(?,?,?,?,?,?,?),(?,?,?,?,?,?,?)";

/// The results that the rows of ranges and of bearers have themselves. The others are in rows of
/// their own (`more.rt`).
fn own_results(results: Results) -> (Option<u32>, Option<u32>, Option<u32>)
    ensures def { result.0 ≡ results_value results Definition }
    ensures refs { result.1 ≡ results_value results References }
    ensures hover { result.2 ≡ results_value results Hover }
{
    (
        results.of(RequestKind::Definition),
        results.of(RequestKind::References),
        results.of(RequestKind::Hover),
    )
}

// ---- the rows

impl PartRow for DocRow<'_> {
    ghost tree = { document_tree };

    ghost columns = { λ row. document_columns (document_value row) };

    #[tactic(auto, using(crate::proofs::Inserts::document_put))]
    fn insert_one() -> &'static str
        ensures { InsertsOne result.now document_tree (λ row. document_columns (document_value row)) }
    {
        INSERT_DOCUMENT
    }

    fn insert_eight() -> Option<&'static str>
        ensures { IfSome result (λ text. InsertsEight text.now document_tree (λ row. document_columns (document_value row))) }
    {
        None
    }

    fn bind<'a>(&'a self, slot: i64, values: &mut Vec<ValueRef<'a>>) -> Result<(), AllocError> {
        values.extend_from_slice(params![slot, self.uri])
    }
}

impl PartRow for RangeRow<'_> {
    ghost tree = { range_row_tree };

    ghost columns = { λ row. range_columns (range_value row) };

    #[tactic(auto, using(crate::proofs::Inserts::range_row_put))]
    fn insert_one() -> &'static str
        ensures { InsertsOne result.now range_row_tree (λ row. range_columns (range_value row)) }
    {
        INSERT_RANGE
    }

    #[tactic(auto, using(crate::proofs::Inserts::range_rows_put))]
    fn insert_eight() -> Option<&'static str>
        ensures { IfSome result (λ text. InsertsEight text.now range_row_tree (λ row. range_columns (range_value row))) }
    {
        Some(INSERT_EIGHT_RANGES)
    }

    fn bind<'a>(&'a self, slot: i64, values: &mut Vec<ValueRef<'a>>) -> Result<(), AllocError> {
        let (first, last) = (self.span.start().pack(), self.span.end().pack());
        let (def, refs, hover) = own_results(self.results);
        values.extend_from_slice(params![
            slot,
            self.line,
            self.uri,
            first,
            last,
            self.parent,
            def,
            refs,
            hover
        ])
    }
}

impl PartRow for ItemRow<'_> {
    ghost tree = { item_tree };

    ghost columns = { λ row. item_columns (item_value row) };

    #[tactic(auto, using(crate::proofs::Inserts::item_put))]
    fn insert_one() -> &'static str
        ensures { InsertsOne result.now item_tree (λ row. item_columns (item_value row)) }
    {
        INSERT_ITEM
    }

    #[tactic(auto, using(crate::proofs::Inserts::items_put))]
    fn insert_eight() -> Option<&'static str>
        ensures { IfSome result (λ text. InsertsEight text.now item_tree (λ row. item_columns (item_value row))) }
    {
        Some(INSERT_EIGHT_ITEMS)
    }

    fn bind<'a>(&'a self, slot: i64, values: &mut Vec<ValueRef<'a>>) -> Result<(), AllocError> {
        let (first, last) = (self.span.start().pack(), self.span.end().pack());
        let role = role_index(self.role);
        values.extend_from_slice(params![slot, self.result, role, self.uri, first, last])
    }
}

impl PartRow for HoverRow<'_> {
    ghost tree = { hover_tree };

    ghost columns = { λ row. hover_columns (hover_value row) };

    #[tactic(auto, using(crate::proofs::Inserts::hover_put))]
    fn insert_one() -> &'static str
        ensures { InsertsOne result.now hover_tree (λ row. hover_columns (hover_value row)) }
    {
        INSERT_HOVER
    }

    #[tactic(auto, using(crate::proofs::Inserts::hovers_put))]
    fn insert_eight() -> Option<&'static str>
        ensures { IfSome result (λ text. InsertsEight text.now hover_tree (λ row. hover_columns (hover_value row))) }
    {
        Some(INSERT_EIGHT_HOVERS)
    }

    fn bind<'a>(&'a self, slot: i64, values: &mut Vec<ValueRef<'a>>) -> Result<(), AllocError> {
        values.extend_from_slice(params![slot, self.result, self.contents])
    }
}

impl PartRow for MarkRow {
    ghost tree = { mark_tree };

    ghost columns = { λ row. mark_columns (mark_value row) };

    #[tactic(auto, using(crate::proofs::Inserts::mark_put))]
    fn insert_one() -> &'static str {
        INSERT_MARK
    }

    #[tactic(auto, using(crate::proofs::Inserts::marks_put))]
    fn insert_eight() -> Option<&'static str> {
        Some(INSERT_EIGHT_MARKS)
    }

    fn bind<'a>(&'a self, slot: i64, values: &mut Vec<ValueRef<'a>>) -> Result<(), AllocError> {
        let kind = kind_index(self.kind);
        values.extend_from_slice(params![slot, self.range, kind, self.key.as_str()])
    }
}

impl PartRow for BearerRow {
    ghost tree = { bearer_tree };

    ghost columns = { λ row. bearer_columns (bearer_value row) };

    #[tactic(auto, using(crate::proofs::Inserts::bearer_put))]
    fn insert_one() -> &'static str {
        INSERT_BEARER
    }

    #[tactic(auto, using(crate::proofs::Inserts::bearers_put))]
    fn insert_eight() -> Option<&'static str> {
        Some(INSERT_EIGHT_BEARERS)
    }

    fn bind<'a>(&'a self, slot: i64, values: &mut Vec<ValueRef<'a>>) -> Result<(), AllocError> {
        let (kind, key) = (kind_index(self.kind), self.key.as_str());
        let (def, refs, hover) = own_results(self.results);
        values.extend_from_slice(params![slot, self.line, key, kind, def, refs, hover])
    }
}
