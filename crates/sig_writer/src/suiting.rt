//! Which libraries may have signatures.

ghost use Rattle.std.specs.Prelude.{◌≡◌, ◌<◌, ◌↔◌, IfOk, IfSome, IfNone, IsTrue, IsErrOf, IfErr, length};
ghost use Rattle.flow_graph.specs.System.{IsWellOwned};
ghost use Rattle.sig_writer.specs.Suits.{AreOwnBelow, IsFirstShared, IsNobodys, IsOnePlain};
ghost use Rattle.sig_writer.specs.Suits.{IsPlain, IsShared, Suits, IsUnsuited};

use flow_graph::{FlowGraph, Link};
use lattice_core::{Lattice, Lattices, Level};
use qual_base::{EdgeId, Elem, LatticeNo, Numbered, Owner, VarId};

/// Why a library has no signatures.
#[derive(Clone, Copy, PartialEq, Eq, Debug, Drop)]
pub enum Unsuited {
    /// There is not one lattice, or it is none of values, or something passes in it by pointers or fields.
    Lattice,
    /// This is the first constraint that has a variable of nobody.
    Shared(EdgeId),
}

/// Whether a lattice is one of values, and has no attribute of the whole.
fn is_plain(lattice: &Lattice) -> bool
    ensures { IsTrue result ↔ IsPlain lattice.now }
{
    lattice.law();
    lattice.entry(Elem::new(0)).level == Level::Value
        && lattice.ptrflow().is_none()
        && !lattice.fieldflow()
}

/// Whether there is one lattice, and it is such a one.
fn is_one_plain(lattices: &Lattices) -> bool
    ensures { IsTrue result ↔ IsOnePlain lattices.now }
{
    lattices.len() == 1 && is_plain(lattices.get(LatticeNo::new(0)))
}

/// Whether a variable is nobody's.
fn is_nobodys(graph: &FlowGraph, at: VarId) -> bool
    ensures { IsTrue result ↔ IsNobodys graph.now at }
{
    match graph.owner(at) {
        Owner::Nobody => true,
        Owner::Function(_) => false,
    }
}

/// Whether a variable of a link is nobody's.
fn is_shared(graph: &FlowGraph, link: Link) -> bool
    ensures { IsTrue result ↔ IsShared graph.now link }
{
    match link {
        Link::Le(from, to) => is_nobodys(graph, from) || is_nobodys(graph, to),
        Link::Const(_, _, at) => is_nobodys(graph, at),
        Link::Bound(at, _, _) => is_nobodys(graph, at),
        Link::Enter(_, from, to) => is_nobodys(graph, from) || is_nobodys(graph, to),
        Link::Leave(_, from, to) => is_nobodys(graph, from) || is_nobodys(graph, to),
    }
}

/// The first constraint that has a variable of nobody. Linear in the constraints.
fn first_shared(graph: &FlowGraph) -> Option<EdgeId>
    ensures some { IfSome result (IsFirstShared graph.now) }
    ensures none { IfNone result (AreOwnBelow graph.now (length graph.now.constraints)) }
{
    for n in 0..graph.len() {
        if is_shared(graph, graph.constraint(EdgeId::new(n)).link) {
            return Some(EdgeId::new(n));
        }
    }
    None
}

/// Whether a library may have signatures, and else why not: what is said of the lattice comes first. Linear in the constraints, and
/// takes no memory.
pub fn suits(graph: &FlowGraph, lattices: &Lattices) -> Result<(), Unsuited>
    ensures suits { IfOk result (λ _. Suits graph.now lattices.now) }
    ensures unsuited { IfErr result (IsUnsuited graph.now lattices.now) }
{
    if !is_one_plain(lattices) {
        return Err(Unsuited::Lattice);
    }
    match first_shared(graph) {
        Some(edge) => Err(Unsuited::Shared(edge)),
        None => Ok(()),
    }
}
