//! The kinds of requests, and in what they differ: the labels by which a dump spells them, the
//! profile that reads these, and the kinds of monikers by which they join dumps. A new kind is a
//! variant, a member of `REQUESTS` and a row of `spelling`, here and in `specs/RequestKinds`.
ghost use Rattle.std.specs.Prelude.{◌≡◌, ◌<◌, length};
ghost use Rattle.lsif.specs.RequestKinds.{asks_for_uses, finds, follows, gives_places, is_read, kind_number, kinds, named_by_edge, named_by_vertex, spelling_of, spelling_value};

use crate::element::MonikerKind;
use crate::profile::Profile;

/// A request that a vertex has a result for (LSIF 0.6.0, "Requests").
#[derive(Clone, Copy, Debug, PartialEq, Eq)]
pub enum RequestKind {
    Definition,
    References,
    Hover,
    Declaration,
    Implementation,
}

/// How many kinds there are.
pub const REQUEST_KINDS: usize = 5;

/// All kinds, each at its index.
pub const REQUESTS: [RequestKind; REQUEST_KINDS] = [
    RequestKind::Definition,
    RequestKind::References,
    RequestKind::Hover,
    RequestKind::Declaration,
    RequestKind::Implementation,
];

/// How a dump spells a kind of request (LSIF 0.6.0, "Vertices", "Edges").
#[derive(Clone, Copy)]
struct Spelling {
    /// The label of the edges that name its results.
    edge: &'static str,
    /// The label of its results.
    result: &'static str,
    /// The least profile that reads these labels.
    profile: Profile,
}

impl RequestKind {
    /// Its number, from 0.
    pub fn index(self) -> usize
        ensures value { result ≡ kind_number self }
        ensures within { result < length kinds }
    {
        self as usize
    }

    /// The kind's row: how a dump spells it.
    fn spelling(self) -> Spelling
        ensures { spelling_value result ≡ spelling_of self }
    {
        match self {
            RequestKind::Definition => Spelling {
                edge: "textDocument/definition",
                result: "definitionResult",
                profile: Profile::One,
            },
            RequestKind::References => Spelling {
                edge: "textDocument/references",
                result: "referenceResult",
                profile: Profile::One,
            },
            RequestKind::Hover => Spelling {
                edge: "textDocument/hover",
                result: "hoverResult",
                profile: Profile::One,
            },
            RequestKind::Declaration => Spelling {
                edge: "textDocument/declaration",
                result: "declarationResult",
                profile: Profile::Two,
            },
            RequestKind::Implementation => Spelling {
                edge: "textDocument/implementation",
                result: "implementationResult",
                profile: Profile::Two,
            },
        }
    }

    /// Whether the labels of the kind are read in this profile, and not as other labels.
    fn is_read(self, profile: Profile) -> bool
        ensures { result ≡ is_read profile self }
    {
        self.spelling().profile.number() <= profile.number()
    }

    /// The kind of which edges with this label name results, in a profile.
    pub(crate) fn named_by_edge(profile: Profile, label: &str) -> Option<RequestKind>
        ensures { result ≡ named_by_edge profile label.now }
    {
        for kind in REQUESTS {
            if kind.is_read(profile) && label == kind.spelling().edge {
                return Some(kind);
            }
        }
        None
    }

    /// The kind of which vertices with this label are results, in a profile.
    pub(crate) fn named_by_vertex(profile: Profile, label: &str) -> Option<RequestKind>
        ensures { result ≡ named_by_vertex profile label.now }
    {
        for kind in REQUESTS {
            if kind.is_read(profile) && label == kind.spelling().result {
                return Some(kind);
            }
        }
        None
    }

    /// Whether the request is answered by places; one for hovers is by a text.
    pub fn gives_places(self) -> bool
        ensures { result ≡ gives_places self }
    {
        !matches!(self, RequestKind::Hover)
    }

    /// Whether it asks for each use of a symbol, and not for its definitions alone.
    pub fn asks_for_uses(self) -> bool
        ensures { result ≡ asks_for_uses self }
    {
        matches!(self, RequestKind::References)
    }

    /// Whether the request goes on to other projects by monikers of this kind (LSIF 0.6.0,
    /// "Multiple Projects").
    pub fn follows(self, kind: MonikerKind) -> bool
        ensures { result ≡ follows self kind }
    {
        match kind {
            MonikerKind::Import => true,
            MonikerKind::Export => self.asks_for_uses(),
            MonikerKind::Local => false,
        }
    }

    /// Whether it looks in other projects for monikers of this kind.
    pub fn finds(self, kind: MonikerKind) -> bool
        ensures { result ≡ finds self kind }
    {
        match kind {
            MonikerKind::Import => self.asks_for_uses(),
            MonikerKind::Export => true,
            MonikerKind::Local => false,
        }
    }
}
