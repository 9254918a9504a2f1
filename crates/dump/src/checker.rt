//! The checker of a dump, which takes its elements line by line, and a checked dump with its
//! look-ups. What forbids an element is in `order.rt`. `specs/Progress`.
ghost use Rattle.std.specs.Prelude.{◌≡◌, true, map, []};
ghost use Rattle.lsif.specs.Code.{is_shape_code};
ghost use Rattle.lsif.specs.Element.{element_value, reading_value};
ghost use Rattle.dump.specs.declared.fault.FeedFault.TheVariants.{Line};

use crate::fault::{FeedFault, LineFault};
use crate::graph::Graph;
use crate::laws::chain_law;
use crate::order::{add, end_fault};
use crate::reading::Reading;
use crate::single::SingleLabel;
use crate::vertices::vertex_at;
use crate::walks::first_result;
use lsif::{Code, Element, Id, IdRef, Profile, RequestKind, Vertex};
use std::alloc::Global;
use std::marker::Model;

/// Takes the readings of a dump's lines one after the other. At the first faulty line it stops for
/// good.
#[derive(Drop)]
pub struct Checker {
    profile: Profile,
    graph: Graph,
    fault: Option<LineFault>,
}

impl Model for Checker {
    ghost use Rattle.std.specs.Prelude.{◌≤◌, map, length};
    ghost use Rattle.lsif.specs.Element.{element_value};
    ghost use Rattle.dump.specs.Conditions.{most_elements};
    ghost use Rattle.dump.specs.Progress.{CheckerValue, progress_of, IsSound};

    ghost Value = { CheckerValue };

    ghost view = { λ c. record { profile = c.profile; progress = progress_of c.fault c.graph } };

    ghost invariant = { λ c. (length c.graph ≤ most_elements) × IsSound c.graph };
}

impl Checker {
    ghost use Rattle.std.specs.Result.{ForErr};
    ghost use Rattle.dump.specs.Progress.{running, stopped, next, Feeds, Finishes};

    /// A checker that has seen no line. The lines are to be read by this profile.
    pub fn new(alloc: Global, profile: Profile) -> Checker
        ensures { result ≡ record { profile = profile; progress = running [] } }
    {
        Checker {
            profile,
            graph: Graph::new(alloc),
            fault: None,
        }
    }

    /// The profile that the lines are to be read by.
    pub fn profile(&self) -> Profile
        ensures { result ≡ self.now.profile }
    {
        self.profile
    }

    /// Takes the next line: its element, or the fault of its shape. Returns the fault of the line,
    /// if it has one, and from then on that fault for good. Where memory is refused the line
    /// doesn't count as taken.
    pub fn feed(&mut self, reading: Reading) -> Result<(), FeedFault>
        requires { ForErr reading (λ code. is_shape_code code ≡ true) }
        ensures line { Feeds result self.old.progress (next self.old.progress (reading_value reading)) self.new.progress }
        ensures profile { self.new.profile ≡ self.old.profile }
    {
        if let Some(fault) = self.fault {
            drop(reading);
            return Err(FeedFault::Line(fault));
        }
        let line = self.graph.len() as u32 + 1;
        let refused = match reading {
            Ok(element) => add(&mut self.graph, element)?,
            Err(code) => Some(code),
        };
        match refused {
            Some(code) => Err(self.stop(LineFault { line, code })),
            None => Ok(()),
        }
    }

    /// Keeps the fault, and returns it.
    fn stop(&mut self, fault: LineFault) -> FeedFault
        ensures fault { result ≡ Line fault }
        ensures stopped { self.new ≡ record { profile = self.old.profile; progress = stopped fault } }
    {
        self.fault = Some(fault);
        FeedFault::Line(fault)
    }

    /// The dump where no line is faulty and nothing is missing at its end; else the fault.
    pub fn finish(self) -> Result<CheckedDump, FeedFault>
        ensures { Finishes result self }
    {
        let Checker {
            profile,
            graph,
            fault,
        } = self;
        if let Some(fault) = fault {
            return Err(FeedFault::Line(fault));
        }
        if graph.is_empty() {
            return Err(FeedFault::Line(LineFault {
                line: 1,
                code: Code::L06,
            }));
        }
        match end_fault(&graph) {
            Some(fault) => Err(FeedFault::Line(fault)),
            None => Ok(CheckedDump { profile, graph }),
        }
    }
}

/// The elements of a dump that has no fault, in the order of their lines, and the profile that it
/// was read by.
#[derive(Drop)]
pub struct CheckedDump {
    profile: Profile,
    graph: Graph,
}

impl Model for CheckedDump {
    ghost use Rattle.std.specs.Prelude.{◌≡◌, ◌≤◌, length, None};
    ghost use Rattle.dump.specs.Conditions.{most_elements};
    ghost use Rattle.dump.specs.Progress.{DumpValue, IsSound, end_fault};

    ghost Value = { DumpValue };

    ghost view = { λ d. record { profile = d.profile; elements = d.graph } };

    ghost invariant = { λ d. (length d.graph ≤ most_elements) × IsSound d.graph × (end_fault d.graph ≡ None) };
}

impl CheckedDump {
    ghost use Rattle.std.specs.Prelude.{◌≤◌, Ok, length};
    ghost use Rattle.dump.specs.Conditions.{most_elements};
    ghost use Rattle.std.specs.Prelude.{Option, Some, IfSome, IfNone, option_map};
    ghost use Rattle.lsif.specs.Element.{IdValue, document, id_value, vertex_value};
    ghost use Rattle.lsif.specs.Lent.{lent_value};
    ghost use Rattle.dump.specs.Graph.{line_of, vertex_at};
    ghost use Rattle.dump.specs.Places.{HasDocument};
    ghost use Rattle.dump.specs.Contained.{container, is_in};
    ghost use Rattle.dump.specs.Fault.{IsFaultless};
    ghost use Rattle.dump.specs.Requests.{First};
    ghost use Rattle.dump.specs.Walks.{first_to, next_pairs, single_pairs};
    ghost use Rattle.dump.specs.declared.single.SingleLabel.TheVariants.{PackageInformation, Request};

    /// The profile that the dump was read by.
    pub fn profile(&self) -> Profile
        ensures { result ≡ self.now.profile }
    {
        self.profile
    }

    /// The elements, in the order of their lines.
    pub fn elements(&self) -> &[Element]
        ensures value { map element_value result.now ≡ self.now.elements }
        ensures few { length result.now ≤ most_elements }
        ensures faultless { IsFaultless (map Ok self.now.elements) }
    {
        self.graph.elements()
    }

    /// The result that a request at this vertex is answered by: that of the first vertex along the
    /// chain of `next` edges from it that has one.
    pub fn first<'a>(&'a self, request: RequestKind, vertex: &'a Id) -> Option<&'a Id>
        ensures value { First request self.now.elements (id_value vertex.now) (option_map (λ i. id_value i.now) result) }
        ensures only { (other : Option IdValue) → First request self.now.elements (id_value vertex.now) other
            → other ≡ option_map (λ i. id_value i.now) result }
        ensures faultless { IsFaultless (map Ok self.now.elements) }
    {
        chain_law();
        first_result(&self.graph, SingleLabel::Request(request), vertex)
    }

    /// The vertex that the `next` edge out of this one leads to (LSIF 0.6.0, "next").
    pub fn next(&self, vertex: &Id) -> Option<&Id>
        ensures { option_map (λ i. id_value i.now) result ≡ first_to (next_pairs self.now.elements) (id_value vertex.now) }
    {
        self.graph.target_of(SingleLabel::Next, vertex.lent())
    }

    /// The result that the vertex itself has for a request, whatever its chain has.
    pub fn result(&self, request: RequestKind, vertex: &Id) -> Option<&Id>
        ensures { option_map (λ i. id_value i.now) result ≡ first_to (single_pairs (Request request) self.now.elements) (id_value vertex.now) }
    {
        self.graph
            .target_of(SingleLabel::Request(request), vertex.lent())
    }

    /// The package that a `packageInformation` edge out of this moniker names.
    pub fn package_of(&self, moniker: &Id) -> Option<&Id>
        ensures { option_map (λ i. id_value i.now) result ≡ first_to (single_pairs PackageInformation self.now.elements) (id_value moniker.now) }
    {
        self.graph
            .target_of(SingleLabel::PackageInformation, moniker.lent())
    }

    /// What the vertex of this id says. None where the id is that of an edge, or of no element.
    pub fn vertex_at(&self, id: IdRef<'_>) -> Option<&Vertex>
        ensures { option_map (λ v. vertex_value v.now) result ≡ vertex_at self.now.elements (lent_value id.entry) }
    {
        vertex_at(&self.graph, id)
    }

    /// The line, counted from 0, of the element of this id.
    pub fn line_of(&self, id: IdRef<'_>) -> Option<u32>
        ensures { result ≡ line_of self.now.elements (lent_value id.entry) }
    {
        match self.graph.index_of(id) {
            Some(index) => Some(index as u32),
            None => None,
        }
    }

    /// The document of this serialized URL.
    pub fn document_of(&self, uri: &str) -> Option<&Id>
        ensures some { IfSome result (λ d. vertex_at self.now.elements (id_value d.now) ≡ Some (document uri.now)) }
        ensures only { IfSome result (λ d. (other : IdValue) → vertex_at self.now.elements other ≡ Some (document uri.now) → other ≡ id_value d.now) }
        ensures none { IfNone result (HasDocument self.now.elements uri.now → ⊥) }
    {
        self.graph.document_of(uri)
    }

    /// The document that contains the range.
    pub fn container(&self, range: IdRef<'_>) -> Option<&Id>
        ensures { option_map (λ i. id_value i.now) result ≡ container self.now.elements (lent_value range.entry) }
    {
        self.graph.container(range)
    }

    /// Whether this document contains the range.
    pub fn is_in(&self, document: IdRef<'_>, range: IdRef<'_>) -> bool
        ensures { result ≡ is_in self.now.elements (lent_value document.entry) (lent_value range.entry) }
    {
        self.graph.is_in(document, range)
    }
}
