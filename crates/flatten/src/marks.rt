//! The rows of marks, which ranges have, and of bearers, the vertices with marks of their own.
//! Which vertex has which is found in `borne.rt`. A chain is walked from bearer to bearer, past the
//! members without marks. `IsMarkRow` and `IsBearerRow` in `specs/Flat`.
ghost use Rattle.std.specs.Prelude.{◌≡◌, ◌++◌, ◌∷◌, [], IfOk, OnOk, Ok, Contains, map, option_map};
ghost use Rattle.std.specs.List.{All};
ghost use Rattle.lsif.specs.Element.{id_value, element_value};
ghost use Rattle.dump.specs.Fault.{IsFaultless};
ghost use Rattle.dump.specs.Places.{IsListing};
ghost use Rattle.flatten.specs.Flat.{IsBearerRow, IsMarkRow, bearer_cmp, kind_index, mark_cmp};
ghost use Rattle.flatten.specs.Rows.{bearer_value, mark_value as mark_row_value};
ghost use Rattle.flatten.specs.Steps.Borne.{mark_value, mark_values};
ghost use Rattle.flatten.specs.Steps.Chains.{AreChains};
ghost use Rattle.flatten.specs.Steps.Kinds.{AreThose, is_range};
ghost use Rattle.flatten.specs.Steps.Marks.{AreBorne, IsBorneMark, IsBorneRow, IsMarkAlong, IsMarkOfRange, IsMarkOfVertex, IsNextBearer, bearer_mark, mark_of, marks_in, marks_of};
ghost use Rattle.flatten.specs.Steps.Tables.{Adds};

use crate::borne::{Mark, mark_at};
use crate::budget::Budget;
use crate::chains::Chains;
use crate::closure::pairs_from;
use crate::fault::FlattenFault;
use crate::numbers::{id_of, number_of};
use crate::rows::{BearerRow, MarkRow};
use dump::{chain_law, ends_law, line_law, pick_law, vertex_law};
use lsif::{Element, Id, MonikerKind, Vertex};
use std::alloc::{AllocError, Global};
use std::cmp::Ordering;

/// Adds the row of the mark, where there is one. The text of its key is taken from the budget.
fn add_mark(
    rows: &mut Vec<MarkRow>,
    number: u32,
    mark: Option<Mark>,
    budget: &mut Budget,
) -> Result<(), FlattenFault>
    ensures { OnOk result (map mark_row_value rows.new.items ≡ map mark_row_value rows.old.items ++ mark_of number (option_map mark_value mark)) }
{
    if let Some(Mark { kind, key }) = mark {
        budget.take_text(key.len())?;
        rows.push(MarkRow {
            range: number,
            kind,
            key,
        })?;
    }
    Ok(())
}

/// Adds the rows of the number for the marks of the monikers that the pairs lead to.
fn add_targets(
    rows: &mut Vec<MarkRow>,
    marks: &[Option<Mark>],
    number: u32,
    pairs: &[(u32, u32)],
    budget: &mut Budget,
) -> Result<(), FlattenFault>
    ensures { OnOk result (map mark_row_value rows.new.items ≡ map mark_row_value rows.old.items ++ marks_of number (mark_values marks.now) pairs.now) }
{
    for pair in pairs {
        add_mark(rows, number, mark_at(marks, pair.1)?, budget)?;
    }
    Ok(())
}

/// Adds the rows of the number for the marks that the vertex has itself. Each is taken from the
/// budget, with its text.
fn add_member(
    rows: &mut Vec<MarkRow>,
    marks: &[Option<Mark>],
    chains: &Chains<'_>,
    number: u32,
    member: &Id,
    budget: &mut Budget,
) -> Result<(), FlattenFault>
    requires { AreChains chains.now }
    ensures { OnOk result (Adds (map mark_row_value rows.old.items)
        (IsMarkOfVertex chains.now.dump.now.elements chains.now.borne.items (mark_values marks.now) number (id_value member.now))
        (map mark_row_value rows.new.items)) }
{
    if let Some(vertex) = number_of(chains.dump, member.lent()) {
        let pairs = pairs_from(&chains.borne, vertex);
        budget.take(pairs.len())?;
        add_targets(rows, marks, number, pairs, budget)?;
    }
    Ok(())
}

/// The first vertex after this one along its chain that has marks itself.
fn next_bearer<'a>(
    alloc: Global,
    chains: &mut Chains<'a>,
    vertex: &Id,
) -> Result<Option<&'a Id>, AllocError>
    requires { AreChains chains.old }
    ensures bearer { IfOk result (λ o. IsNextBearer chains.old.dump.now.elements chains.old.borne.items (id_value vertex.now)
        (option_map (λ i. id_value i.now) o)) }
    ensures chains { OnOk result (AreChains chains.new) }
    ensures dump { chains.new.dump ≡ chains.old.dump }
    ensures borne { chains.new.borne ≡ chains.old.borne }
{
    match chains.dump.next(vertex) {
        Some(next) => Ok(chains.along(alloc, next)?.bearer),
        None => Ok(None),
    }
}

/// Adds the rows of the range of this number for the marks that the members of its chain have.
fn add_chain<'a>(
    alloc: Global,
    rows: &mut Vec<MarkRow>,
    marks: &[Option<Mark>],
    chains: &mut Chains<'a>,
    number: u32,
    range: &'a Id,
    budget: &mut Budget,
) -> Result<(), FlattenFault>
    requires { AreChains chains.old }
    ensures rows { OnOk result (Adds (map mark_row_value rows.old.items)
        (IsMarkAlong chains.old.dump.now.elements chains.old.borne.items (mark_values marks.now) number (id_value range.now))
        (map mark_row_value rows.new.items)) }
    ensures chains { OnOk result (AreChains chains.new) }
    ensures dump { chains.new.dump ≡ chains.old.dump }
    ensures borne { chains.new.borne ≡ chains.old.borne }
{
    chain_law();
    let dump = chains.dump;
    let mut bearer = chains.along(alloc, range)?.bearer;
    for _step in 0..dump.elements().len() + 1 {
        let Some(member) = bearer else {
            return Ok(());
        };
        add_member(rows, marks, chains, number, member, budget)?;
        bearer = next_bearer(alloc, chains, member)?;
    }
    Ok(())
}

/// Adds the rows of the element, where it's a range.
fn add_range<'a>(
    alloc: Global,
    rows: &mut Vec<MarkRow>,
    marks: &[Option<Mark>],
    chains: &mut Chains<'a>,
    element: &'a Element,
    budget: &mut Budget,
) -> Result<(), FlattenFault>
    requires { AreChains chains.old }
    ensures rows { OnOk result (Adds (map mark_row_value rows.old.items)
        (IsMarkOfRange chains.old.dump.now.elements chains.old.borne.items (mark_values marks.now) (element_value element.now))
        (map mark_row_value rows.new.items)) }
    ensures chains { OnOk result (AreChains chains.new) }
    ensures dump { chains.new.dump ≡ chains.old.dump }
    ensures borne { chains.new.borne ≡ chains.old.borne }
{
    let Element::Vertex(id, Vertex::Range(_)) = element else {
        return Ok(());
    };
    match number_of(chains.dump, id.lent()) {
        Some(number) => add_chain(alloc, rows, marks, chains, number, id, budget),
        None => Ok(()),
    }
}

/// The place of a kind in the order of kinds, from 0: the number that rows have for it.
pub fn kind_index(kind: MonikerKind) -> u32
    ensures { result ≡ kind_index kind }
{
    match kind {
        MonikerKind::Import => 0,
        MonikerKind::Export => 1,
        MonikerKind::Local => 2,
    }
}

/// By number, then kind, then key.
fn order(a: &MarkRow, b: &MarkRow) -> Ordering
    ensures { result ≡ mark_cmp (mark_row_value a.now) (mark_row_value b.now) }
{
    let kinds = kind_index(a.kind).cmp(&kind_index(b.kind));
    a.range
        .cmp(&b.range)
        .then(kinds.then(a.key.as_str().cmp(b.key.as_str())))
}

/// Puts the rows in order, each once.
fn list_rows(rows: &mut Vec<MarkRow>)
    ensures { IsListing mark_cmp (Contains (map mark_row_value rows.old.items)) (map mark_row_value rows.new.items) }
{
    rows.sort_unstable_by(|a, b| order(a, b));
    rows.dedup();
}

/// The rows of the marks of ranges: in order, each once. Where no vertex has a moniker there are
/// none.
pub(crate) fn mark_rows<'a>(
    alloc: Global,
    marks: &[Option<Mark>],
    chains: &mut Chains<'a>,
    ranges: &[&'a Element],
    limit: usize,
) -> Result<Vec<MarkRow>, FlattenFault>
    requires marks { mark_values marks.now ≡ marks_in chains.old.dump.now.elements }
    requires chains { AreChains chains.old }
    requires borne { AreBorne chains.old.dump.now.elements chains.old.borne.items }
    requires ranges { AreThose is_range chains.old.dump.now.elements ranges.now }
    requires faultless { IsFaultless (map Ok chains.old.dump.now.elements) }
    ensures rows { IfOk result (λ rows. IsListing mark_cmp (IsMarkRow chains.old.dump.now.elements) (map mark_row_value rows.items)) }
    ensures chains { OnOk result (AreChains chains.new) }
    ensures dump { chains.new.dump ≡ chains.old.dump }
    ensures borne { chains.new.borne ≡ chains.old.borne }
{
    ends_law();
    line_law();
    vertex_law();
    if chains.borne.is_empty() {
        return Ok(Vec::new(alloc));
    }
    let mut budget = Budget::new(limit);
    let mut rows = Vec::new(alloc);
    for element in ranges {
        add_range(alloc, &mut rows, marks, chains, element, &mut budget)?;
    }
    list_rows(&mut rows);
    Ok(rows)
}

/// The marks that vertices have themselves, as rows of the vertices' numbers: in order, each once.
fn borne_marks(
    alloc: Global,
    marks: &[Option<Mark>],
    pairs: &[(u32, u32)],
    limit: usize,
) -> Result<Vec<MarkRow>, FlattenFault>
    ensures { IfOk result (λ rows. IsListing mark_cmp (IsBorneMark pairs.now (mark_values marks.now)) (map mark_row_value rows.items)) }
{
    let mut budget = Budget::new(limit);
    budget.take(pairs.len())?;
    let mut rows = Vec::new(alloc);
    for pair in pairs {
        let mark = mark_at(marks, pair.1)?;
        add_mark(&mut rows, pair.0, mark, &mut budget)?;
    }
    list_rows(&mut rows);
    Ok(rows)
}

/// Adds the row of a mark that a vertex has itself.
fn add_bearer<'a>(
    alloc: Global,
    rows: &mut Vec<BearerRow>,
    chains: &mut Chains<'a>,
    mark: MarkRow,
) -> Result<(), AllocError>
    requires chains { AreChains chains.old }
    requires faultless { IsFaultless (map Ok chains.old.dump.now.elements) }
    requires borne { IsBorneRow chains.old.dump.now.elements (mark_row_value mark) }
    requires rows { All (IsBearerRow chains.old.dump.now.elements) (map bearer_value rows.old.items) }
    ensures marks { OnOk result (map bearer_mark (map bearer_value rows.new.items) ≡ map bearer_mark (map bearer_value rows.old.items)
        ++ mark_row_value mark ∷ []) }
    ensures rows { OnOk result (All (IsBearerRow chains.old.dump.now.elements) (map bearer_value rows.new.items)) }
    ensures chains { OnOk result (AreChains chains.new) }
    ensures dump { chains.new.dump ≡ chains.old.dump }
    ensures borne { chains.new.borne ≡ chains.old.borne }
{
    ends_law();
    line_law();
    let MarkRow { range, kind, key } = mark;
    let Some(id) = id_of(chains.dump, range) else {
        return Ok(());
    };
    let along = chains.along(alloc, id)?;
    rows.push(BearerRow {
        line: range,
        key,
        kind,
        results: along.results,
    })?;
    Ok(())
}

/// The rows of bearers: in order, each once.
pub(crate) fn bearer_rows<'a>(
    alloc: Global,
    marks: &[Option<Mark>],
    chains: &mut Chains<'a>,
    limit: usize,
) -> Result<Vec<BearerRow>, FlattenFault>
    requires marks { mark_values marks.now ≡ marks_in chains.old.dump.now.elements }
    requires chains { AreChains chains.old }
    requires borne { AreBorne chains.old.dump.now.elements chains.old.borne.items }
    requires faultless { IsFaultless (map Ok chains.old.dump.now.elements) }
    ensures { IfOk result (λ rows. IsListing bearer_cmp (IsBearerRow chains.old.dump.now.elements) (map bearer_value rows.items)) }
{
    ends_law();
    line_law();
    pick_law();
    vertex_law();
    let mut left = borne_marks(alloc, marks, &chains.borne, limit)?;
    left.reverse();
    let mut rows = Vec::new(alloc);
    while let Some(mark) = left.pop() {
        add_bearer(alloc, &mut rows, chains, mark)?;
    }
    Ok(rows)
}
