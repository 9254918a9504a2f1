//! What vertices have along their chains of `next` edges: their first results, and the first member
//! with marks of its own. What is found of a vertex is kept (memoised walks), so that all chains
//! together take one step a vertex. `AreResults` in `specs/Flat`.
ghost use Rattle.std.specs.Prelude.{◌≡◌, IfOk, IfSome, OnOk, get_or, map, option_map};
ghost use Rattle.std.specs.List.Sorted.{IsNonDecreasingBy};
ghost use Rattle.lsif.specs.Element.{id_value};
ghost use Rattle.lsif.specs.declared.request_kind.RequestKind.{RequestKind};
ghost use Rattle.flatten.specs.Rows.{results_value};
ghost use Rattle.flatten.specs.Steps.Chains.{AreAlong, AreChains, IsWalk, is_bearing, along_value, nothing, or_later, own_number, own_of};

use crate::closure::target_of;
use crate::numbers::number_of;
use crate::results::Results;
use dump::{CheckedDump, chain_law, line_law};
use lsif::{Id, REQUESTS, RequestKind};
use std::alloc::{AllocError, Global};

/// What a vertex has from the first member of its chain that has it: the number of the result of
/// each request, and the first member that has marks itself.
#[derive(Clone, Copy)]
pub(crate) struct Along<'a> {
    pub(crate) results: Results,
    pub(crate) bearer: Option<&'a Id>,
}

/// The number of a vertex, and what it has along its chain.
#[derive(Clone, Copy)]
struct VertexAlong<'a> {
    vertex: u32,
    along: Along<'a>,
}

/// What is found so far of the vertices; and the pairs of vertices and the monikers that they have
/// themselves, in the order of their sources.
#[derive(Drop)]
pub(crate) struct Chains<'a> {
    pub(crate) dump: &'a CheckedDump,
    pub(crate) borne: Vec<(u32, u32)>,
    found: Vec<VertexAlong<'a>>,
    /// For the number of each vertex of which something is found, its index in `found`; for any
    /// other, any number. There are as many as the greatest such number needs.
    places: Vec<u32>,
}

/// A walk along a chain: the vertices that it came to, and what those after them have.
#[derive(Drop)]
struct Walk<'a> {
    path: Vec<&'a Id>,
    after: Along<'a>,
}

/// No vertex has anything.
fn nothing<'a>() -> Along<'a>
    ensures { along_value result ≡ nothing }
{
    Along {
        results: Results::none(),
        bearer: None,
    }
}

/// The one, or what it lacks from the other.
fn or_later<'a>(own: Along<'a>, later: Along<'a>) -> Along<'a>
    ensures { along_value result ≡ or_later (along_value own.entry) (along_value later.entry) }
{
    Along {
        results: own.results.or(later.results),
        bearer: own.bearer.or(later.bearer),
    }
}

/// Whether a pair has this vertex as its source.
fn is_bearing(dump: &CheckedDump, borne: &[(u32, u32)], vertex: &Id) -> bool
    requires { IsNonDecreasingBy (λ p. p.0) borne.now }
    ensures { result ≡ is_bearing dump.now.elements borne.now (id_value vertex.now) }
{
    match number_of(dump, vertex.lent()) {
        Some(number) => target_of(borne, number).is_some(),
        None => false,
    }
}

/// The number of the request's result of the vertex itself.
fn own_number(dump: &CheckedDump, request: RequestKind, vertex: &Id) -> Option<u32>
    ensures { result ≡ own_number dump.now.elements request (id_value vertex.now) }
{
    number_of(dump, dump.result(request, vertex)?.lent())
}

/// The numbers of the results of the vertex itself.
fn own_results(dump: &CheckedDump, vertex: &Id) -> Results
    ensures { (kind : RequestKind) → results_value result kind ≡ own_number dump.now.elements kind (id_value vertex.now) }
{
    let mut results = Results::none();
    for kind in REQUESTS {
        results = results.with(kind, own_number(dump, kind, vertex));
    }
    results
}

/// What the vertex itself has.
fn own_of<'a>(dump: &'a CheckedDump, borne: &[(u32, u32)], vertex: &'a Id) -> Along<'a>
    requires { IsNonDecreasingBy (λ p. p.0) borne.now }
    ensures { along_value result ≡ own_of dump.now.elements borne.now (id_value vertex.now) }
{
    Along {
        results: own_results(dump, vertex),
        bearer: is_bearing(dump, borne, vertex).then_some(vertex),
    }
}

/// Sets the place at the number, after 0 at those numbers up to it at which none is set.
fn set_place(places: &mut Vec<u32>, number: u32, place: u32) -> Result<(), AllocError>
    ensures { OnOk result (get_or places.new.items number 0 ≡ place) }
{
    let number = number as usize;
    if number >= places.len() {
        places.resize(number + 1, 0)?;
    }
    places[number] = place;
    Ok(())
}

impl<'a> Chains<'a> {
    /// Nothing is found yet.
    pub(crate) fn new(
        alloc: Global,
        dump: &'a CheckedDump,
        borne: Vec<(u32, u32)>,
    ) -> Result<Chains<'a>, AllocError>
        requires { IsNonDecreasingBy (λ p. p.0) borne.items }
        ensures chains { IfOk result (λ chains. AreChains chains) }
        ensures dump { IfOk result (λ chains. chains.dump.now ≡ dump.now) }
        ensures borne { IfOk result (λ chains. chains.borne ≡ borne) }
    {
        let count = dump.elements().len();
        Ok(Chains {
            dump,
            borne,
            found: Vec::with_capacity(alloc, count / 8)?,
            places: Vec::with_capacity(alloc, count + 1)?,
        })
    }

    /// What is found of the vertex.
    fn found_at(&self, vertex: &Id) -> Option<Along<'a>>
        requires { AreChains self.now }
        ensures { IfSome result (λ along. AreAlong self.now.dump.now.elements self.now.borne.items (id_value vertex.now) (along_value along)) }
    {
        let number = number_of(self.dump, vertex.lent())?;
        let place = self.places.get(number as usize)?;
        let found = self.found.get(*place as usize)?;
        if found.vertex == number {
            Some(found.along)
        } else {
            None
        }
    }

    /// Keeps what is found of the vertex.
    fn keep(&mut self, vertex: &Id, along: Along<'a>) -> Result<(), AllocError>
        requires chains { AreChains self.old }
        requires along { AreAlong self.old.dump.now.elements self.old.borne.items (id_value vertex.now) (along_value along) }
        ensures chains { OnOk result (AreChains self.new) }
        ensures dump { self.new.dump ≡ self.old.dump }
        ensures borne { self.new.borne ≡ self.old.borne }
    {
        line_law();
        if let Some(number) = number_of(self.dump, vertex.lent()) {
            let place = u32::try_from(self.found.len()).unwrap_or(0);
            self.found.push(VertexAlong {
                vertex: number,
                along,
            })?;
            set_place(&mut self.places, number, place)?;
        }
        Ok(())
    }

    /// Goes along the chain of `next` edges from the vertex, up to a vertex for which the answer is
    /// kept.
    fn walk(&self, alloc: Global, vertex: &'a Id) -> Result<Walk<'a>, AllocError>
        requires { AreChains self.now }
        ensures { IfOk result (λ walk. IsWalk self.now.dump.now.elements self.now.borne.items (id_value vertex.now) (map (λ i. id_value i.now) walk.path.items)
            (along_value walk.after)) }
    {
        chain_law();
        let mut path = Vec::new(alloc);
        let mut at = vertex;
        for _step in 0..self.dump.elements().len() + 1 {
            if let Some(after) = self.found_at(at) {
                return Ok(Walk { path, after });
            }
            path.push(at)?;
            match self.dump.next(at) {
                Some(next) => at = next,
                None => {
                    let after = nothing();
                    return Ok(Walk { path, after });
                }
            }
        }
        let after = nothing();
        Ok(Walk { path, after })
    }

    /// What the vertex has along its chain. Keeps this for each vertex that it comes to, and comes
    /// to each once.
    fn kept_along(&mut self, alloc: Global, vertex: &'a Id) -> Result<Along<'a>, AllocError>
        requires { AreChains self.old }
        ensures along { IfOk result (λ along. AreAlong self.old.dump.now.elements self.old.borne.items (id_value vertex.now) (along_value along)) }
        ensures chains { OnOk result (AreChains self.new) }
        ensures dump { self.new.dump ≡ self.old.dump }
        ensures borne { self.new.borne ≡ self.old.borne }
    {
        let Walk { path, after } = self.walk(alloc, vertex)?;
        let mut path = path;
        let mut along = after;
        while let Some(member) = path.pop() {
            along = or_later(own_of(self.dump, &self.borne, member), along);
            self.keep(member, along)?;
        }
        Ok(along)
    }

    /// What the vertex has along its chain. Keeps what the vertices after it have.
    pub(crate) fn along(&mut self, alloc: Global, vertex: &'a Id) -> Result<Along<'a>, AllocError>
        requires { AreChains self.old }
        ensures along { IfOk result (λ along. AreAlong self.old.dump.now.elements self.old.borne.items (id_value vertex.now) (along_value along)) }
        ensures chains { OnOk result (AreChains self.new) }
        ensures dump { self.new.dump ≡ self.old.dump }
        ensures borne { self.new.borne ≡ self.old.borne }
    {
        let own = own_of(self.dump, &self.borne, vertex);
        match self.dump.next(vertex) {
            Some(next) => {
                let after = self.kept_along(alloc, next)?;
                Ok(or_later(own, after))
            }
            None => Ok(own),
        }
    }
}
