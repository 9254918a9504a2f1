//! Laws of the definitions of dumps, which mention no program: that there is one first fault, one
//! listing, one range that answers and so on.
ghost use Rattle.std.specs.Prelude.{◌≡◌, ◌≢◌, ◌++◌, ◌<◌, ◌≤◌, ◌+◌, ℕ, List, Contains, Option, Some, None, Ok, map, length, slice_get, ◌↔◌, IsTrue};
ghost use Rattle.positions.specs.Position.{PositionValue};
ghost use Rattle.lsif.specs.Element.{IdValue, VertexValue, document, hover_result, ElementValue, vertex, Reading};
ghost use Rattle.dump.specs.declared.fault.LineFault.{LineFault};
ghost use Rattle.dump.specs.Conditions.{order_code, most_elements};
ghost use Rattle.dump.specs.Contained.{IsNested, container, is_in};
ghost use Rattle.dump.specs.Fault.{AreSoundLines, IsFault, IsFaultless, IsLineFault};
ghost use Rattle.dump.specs.Places.{PlaceValue, IsItemPlace, Places, place_cmp};
ghost use Rattle.dump.specs.Requests.{Cover, First, Pick, RangeValue};
ghost use Rattle.std.specs.List.Sorted.{IsStrictlySortedBy};
ghost use Rattle.lsif.specs.declared.request_kind.RequestKind.{RequestKind};
ghost use Rattle.lsif.specs.declared.request_kind.RequestKind.TheVariants.{Hover, References};
ghost use Rattle.dump.specs.declared.role.Role.{Role};
ghost use Rattle.dump.specs.Progress.{progress, running, stopped, finished};
ghost use Rattle.dump.specs.Graph.{vertex_at, ends, line_of};
ghost use Rattle.dump.specs.Walks.{Pair, Path, IsChain, HasChain, reaches, next_pairs};

/// Each dump has one fault or none, and feeding its lines in turn and then finishing returns it. A
/// checker that runs on keeps the elements of all lines, at most 100,000. It stops at the first
/// line that has a fault, and every dump that begins with these lines has that fault.
pub fn fault_law()
    ensures holds { (dump : List Reading) → IsFault dump (finished (progress dump)) }
    ensures only { (dump : List Reading) (fault : Option LineFault) → IsFault dump fault → fault ≡ finished (progress dump) }
    ensures elements { (dump : List Reading) (elements : List ElementValue) → progress dump ≡ running elements
        → dump ≡ map Ok elements }
    ensures room { (elements : List ElementValue) (x : ElementValue) → order_code elements x ≡ None
        → length elements < most_elements }
    ensures line { (dump : List Reading) (fault : LineFault) → (progress dump ≡ stopped fault) ↔ IsLineFault dump fault }
    ensures sound { (dump : List Reading) (elements : List ElementValue) → progress dump ≡ running elements → AreSoundLines dump }
    ensures stays { (dump more : List Reading) (fault : LineFault) → progress dump ≡ stopped fault
        → progress (dump ++ more) ≡ stopped fault }
{}

/// The test of a path of `next` edges is true exactly where there is one.
pub fn path_law()
    ensures { (pairs : List Pair) (from to : IdValue) → IsTrue (reaches pairs from to) ↔ Path pairs from to }
{}

/// In a dump without fault the chain of `next` edges from each vertex ends. It has at most one more
/// member than the dump has elements.
pub fn chain_law()
    ensures chain { (elements : List ElementValue) → IsFaultless (map Ok elements) → (x : IdValue) → HasChain (next_pairs elements) x }
    ensures short { (elements : List ElementValue) (x : IdValue) (xs : List IdValue) → IsChain (next_pairs elements) x xs → length xs ≤ length elements + 1 }
{}

/// In a dump without fault each end of an edge is a vertex.
pub fn ends_law()
    ensures { (elements : List ElementValue) → IsFaultless (map Ok elements) → (x : ElementValue) → Contains elements x → (i : IdValue) → Contains (ends x) i
        → (v : VertexValue) × (vertex_at elements i ≡ Some v) }
{}

/// The line of an id is that of no other. In a dump without fault a vertex has a line, and is the
/// element there.
pub fn line_law()
    ensures one { (elements : List ElementValue) (i j : IdValue) (k : ℕ) → line_of elements i ≡ Some k → line_of elements j ≡ Some k → i ≡ j }
    ensures there { (elements : List ElementValue) → IsFaultless (map Ok elements) → (i : IdValue) (v : VertexValue) → vertex_at elements i ≡ Some v
        → (k : ℕ) × (line_of elements i ≡ Some k) × (slice_get elements k ≡ Some (vertex i v)) }
{}

/// In a dump without fault a range is in at most one document, the one that contains it.
pub fn container_law()
    ensures { (elements : List ElementValue) → IsFaultless (map Ok elements) → (d r : IdValue) → IsTrue (is_in elements d r) ↔ (container elements r ≡ Some d) }
{}

/// In a dump without fault two ranges that one document contains don't conflict.
pub fn nesting_law()
    ensures { (elements : List ElementValue) → IsFaultless (map Ok elements) → IsNested elements }
{}

/// In a dump without fault the vertex of an id is the one element with this id.
pub fn vertex_law()
    ensures { (elements : List ElementValue) → IsFaultless (map Ok elements) → (i : IdValue) (v : VertexValue) → vertex_at elements i ≡ Some v
        ↔ Contains elements (vertex i v) }
{}

/// In a dump without fault two documents of one serialized URL are one.
pub fn uri_law()
    ensures { (elements : List ElementValue) → IsFaultless (map Ok elements) → (d e : IdValue) (uri : List ℕ) → vertex_at elements d ≡ Some (document uri)
        → vertex_at elements e ≡ Some (document uri) → d ≡ e }
{}

/// In a dump without fault a result of another request than references has the places of its own
/// items alone.
pub fn own_law()
    ensures { (elements : List ElementValue) → IsFaultless (map Ok elements) → (request : RequestKind) → (request ≢ References) → (x result : IdValue)
        → First request elements x (Some result) → (in_roles : List Role) (place : PlaceValue) → Places in_roles elements result place
        ↔ IsItemPlace in_roles elements result place }
{}

/// In a dump without fault the first result of a hover request is a hover result.
pub fn hover_law()
    ensures { (elements : List ElementValue) → IsFaultless (map Ok elements) → (x result : IdValue) → First Hover elements x (Some result) → (contents : List ℕ)
        × (vertex_at elements result ≡ Some (hover_result contents)) }
{}

/// Places have one list in order, each once.
pub fn listing_law()
    ensures { (places others : List PlaceValue) → IsStrictlySortedBy place_cmp places → IsStrictlySortedBy place_cmp others
        → ((place : PlaceValue) → Contains places place ↔ Contains others place) → places ≡ others }
{}

/// A request at a vertex is answered by at most one result. The ranges that cover a position have
/// one list, and at most one range answers a request at the position.
pub fn pick_law()
    ensures first { (request : RequestKind) (elements : List ElementValue) (x : IdValue) (found other : Option IdValue) → First request elements x found
        → First request elements x other → found ≡ other }
    ensures cover { (elements : List ElementValue) (uri : List ℕ) (position : PositionValue) (ranges others : List RangeValue)
        → Cover elements uri position ranges → Cover elements uri position others → ranges ≡ others }
    ensures pick { (request : RequestKind) (elements : List ElementValue) (uri : List ℕ) (position : PositionValue) (picked other : Option RangeValue)
        → Pick request elements uri position picked → Pick request elements uri position other → picked ≡ other }
{}
