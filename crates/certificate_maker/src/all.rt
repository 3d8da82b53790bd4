//! The certificates of all lattices.

ghost use Rattle.std.specs.Prelude.{◌≡◌, ◌<◌, None, Some, IfOk, IfSome, slice_get};
ghost use Rattle.lattice_core.specs.View.{orders_of};
ghost use Rattle.flow_graph.specs.System.{IsWellOwned};
ghost use Rattle.flow_graph.specs.Unfolding.{IsAccepted, IsAcceptedIn, NamesElements, NamesElementsIn};
ghost use Rattle.certificate_laws.specs.Certificates.{IsWritten};
ghost use Rattle.closure_check.specs.Parts.{certificate_of, IsPart};
ghost use Rattle.certificate_maker.specs.Certified.{AreWritten, IsCertificate};

use crate::maker::certificate;
use certificate_text::certificate_text;
use closure_check::Part;
use flow_graph::FlowGraph;
use lattice_core::{Lattice, Lattices};
use lattice_solver::Solver;
use match_summary::summarise;
use qual_base::{LatticeNo, NoMemory, Numbered};
use std::alloc::Global;

/// The certificate of a lattice, where the program is accepted in it.
fn part_in(
    alloc: Global,
    graph: &FlowGraph,
    lattice: &Lattice,
    at: LatticeNo,
) -> Result<Option<Part>, NoMemory>
    requires lattice { at < 16 }
    requires named { NamesElementsIn graph.now at lattice.now.order }
    requires owned { IsWellOwned graph.now }
    ensures part { IfOk result (λ found. IfSome found (λ part.
        IsPart graph.now lattice.now.order part × IsWritten graph.now at (certificate_of part))) }
    ensures accepted { IfOk result (λ found. IfSome found (λ part.
        IsAcceptedIn graph.now at lattice.now.order)) }
    ensures rejected { IfOk result (λ found. found ≡ None →
        IsAcceptedIn graph.now at lattice.now.order → ⊥) }
{
    let summaries = summarise(alloc, graph, at)?;
    let mut solver = Solver::new(alloc, graph, &summaries, at)?;
    solver.run(graph, &summaries);
    match solver.first_exceeded(graph, lattice) {
        Some(_) => Ok(None),
        None => Ok(Some(certificate(alloc, graph, at, &summaries, &solver)?)),
    }
}

/// The certificates of all lattices, where the program is accepted. Each lattice is solved once, and none behind one in which it is not.
fn all_parts(
    alloc: Global,
    graph: &FlowGraph,
    lattices: &Lattices,
) -> Result<Option<Vec<Part>>, NoMemory>
    requires named { NamesElements graph.now (orders_of lattices.now) }
    requires owned { IsWellOwned graph.now }
    ensures parts { IfOk result (λ found. IfSome found (λ parts.
        AreWritten graph.now (orders_of lattices.now) parts.items)) }
    ensures accepted { IfOk result (λ found. IfSome found (λ parts.
        IsAccepted graph.now (orders_of lattices.now))) }
    ensures rejected { IfOk result (λ found. found ≡ None →
        IsAccepted graph.now (orders_of lattices.now) → ⊥) }
{
    let mut parts = Vec::new(alloc);
    for n in 0..lattices.len() {
        let at = LatticeNo::new(n);
        match part_in(alloc, graph, lattices.get(at), at)? {
            Some(part) => parts.push(part)?,
            None => return Ok(None),
        }
    }
    Ok(Some(parts))
}

/// The text of the certificates of all lattices, where the program is accepted, and else nothing.
///
/// Each lattice is solved once, and only one at a time: beside the certificates, which take 16 bytes a variable and 8 a pair in each
/// lattice, the memory is that of the summaries and the solver of one lattice.
pub fn certified(
    alloc: Global,
    graph: &FlowGraph,
    lattices: &Lattices,
) -> Result<Option<Vec<u8>>, NoMemory>
    requires named { NamesElements graph.now (orders_of lattices.now) }
    requires owned { IsWellOwned graph.now }
    ensures text { IfOk result (λ found. IfSome found (λ text.
        IsCertificate graph.now (orders_of lattices.now) text.items)) }
    ensures accepted { IfOk result (λ found. IfSome found (λ text.
        IsAccepted graph.now (orders_of lattices.now))) }
    ensures rejected { IfOk result (λ found. found ≡ None →
        IsAccepted graph.now (orders_of lattices.now) → ⊥) }
{
    match all_parts(alloc, graph, lattices)? {
        Some(parts) => Ok(Some(certificate_text(alloc, graph, &parts)?)),
        None => Ok(None),
    }
}
