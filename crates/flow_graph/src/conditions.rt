//! What a system must meet before its exceeded bounds may be named, tested.

ghost use Rattle.std.specs.Prelude.{◌≡◌, ◌<◌, ℕ, ◌↔◌, IsTrue, length};
ghost use Rattle.lattice_core.specs.Order.{size};
ghost use Rattle.qual_base.specs.declared.places.Owner.TheVariants.{Function};
ghost use Rattle.flow_graph.specs.System.{Calls, IsWellOwned, IsWithin};
ghost use Rattle.flow_graph.specs.Unfolding.{NamesElementsIn};
ghost use Rattle.flow_graph.specs.Conditions.{IsInOrder, IsNamedAt, IsOwned, IsOwnedAt};

use crate::constraint::Link;
use crate::graph::FlowGraph;
use lattice_core::Lattice;
use qual_base::{EdgeId, Elem, LatticeNo, Numbered, Owner, SiteId};

/// Whether no flow joins variables of two functions, and each `Enter` leads from its site's owner to its target and each
/// `Leave` back. Linear in the constraints, and takes no memory.
pub fn is_well_owned(graph: &FlowGraph) -> bool
    ensures { IsTrue result ↔ IsWellOwned graph.now }
{
    for n in 0..graph.len() {
        if !is_owned_at(graph, EdgeId::new(n)) {
            return false;
        }
    }
    true
}

/// Whether a constraint joins variables of the owners that it may.
fn is_owned_at(graph: &FlowGraph, at: EdgeId) -> bool
    requires { at < length graph.now.constraints }
    ensures { IsTrue result ↔ IsOwnedAt graph.now at }
{
    let link = graph.constraint(at).link;
    is_owned(graph, link)
}

/// Whether a link joins variables of the owners that it may.
fn is_owned(graph: &FlowGraph, link: Link) -> bool
    requires { IsWithin (length graph.now.sites) link }
    ensures { IsTrue result ↔ IsOwned graph.now link }
{
    match link {
        Link::Le(from, to) => may_flow(graph.owner(from), graph.owner(to)),
        Link::Const(_, _, _) => true,
        Link::Bound(_, _, _) => true,
        Link::Enter(site, from, to) => calls(graph, site, graph.owner(from), graph.owner(to)),
        Link::Leave(site, from, to) => calls(graph, site, graph.owner(to), graph.owner(from)),
    }
}

/// Whether two owners are no two functions.
fn may_flow(one: Owner, other: Owner) -> bool
    ensures { IsTrue result ↔ ((f g : ℕ) → one ≡ Function f → other ≡ Function g → f ≡ g) }
{
    match one {
        Owner::Nobody => true,
        Owner::Function(_) => match other {
            Owner::Nobody => true,
            Owner::Function(_) => one == other,
        },
    }
}

/// Whether a call at a site leads from one owner to another.
fn calls(graph: &FlowGraph, site: SiteId, outer: Owner, inner: Owner) -> bool
    requires { site < length graph.now.sites }
    ensures { IsTrue result ↔ Calls graph.now site outer inner }
{
    let it = graph.site(site);
    outer == it.owner && inner == Owner::Function(it.target)
}

/// Whether each constant and bound of a lattice names an element of it. Linear in the constraints, and takes no memory.
pub fn names_elements(graph: &FlowGraph, lattice_no: LatticeNo, lattice: &Lattice) -> bool
    ensures { IsTrue result ↔ NamesElementsIn graph.now lattice_no lattice.now.order }
{
    for n in 0..graph.len() {
        if !is_named_at(graph, lattice_no, lattice, EdgeId::new(n)) {
            return false;
        }
    }
    true
}

/// Whether a constraint names an element, where it is a constant or a bound of a lattice.
fn is_named_at(graph: &FlowGraph, lattice_no: LatticeNo, lattice: &Lattice, at: EdgeId) -> bool
    requires { at < length graph.now.constraints }
    ensures { IsTrue result ↔ IsNamedAt graph.now lattice_no lattice.now.order at }
{
    let link = graph.constraint(at).link;
    is_in_order(link, lattice_no, lattice)
}

/// Whether a link names an element, where it is a constant or a bound of a lattice.
fn is_in_order(link: Link, lattice_no: LatticeNo, lattice: &Lattice) -> bool
    ensures { IsTrue result ↔ IsInOrder lattice_no lattice.now.order link }
{
    match link {
        Link::Const(named, elem, _) => is_other_or_below(named, lattice_no, elem, lattice),
        Link::Bound(_, named, elem) => is_other_or_below(named, lattice_no, elem, lattice),
        Link::Le(_, _) => true,
        Link::Enter(_, _, _) => true,
        Link::Leave(_, _, _) => true,
    }
}

/// Whether a lattice is another one, or has an element of this number.
fn is_other_or_below(named: LatticeNo, lattice_no: LatticeNo, elem: Elem, lattice: &Lattice) -> bool
    ensures { IsTrue result ↔ (named ≡ lattice_no → elem < size lattice.now.order) }
{
    named != lattice_no || elem.number() < lattice.size()
}
