//! The signatures of a library, from its constraints.

ghost use Rattle.std.specs.Prelude.{◌≡◌, ◌≢◌, ◌↔◌, IfErr, IfOk, IfSome, IsTrue, None};
ghost use Rattle.sig_writer.specs.declared.lines.SigFault.TheVariants.{NoMemory as OutOfMemory};
ghost use Rattle.std.specs.List.{flat_map};
ghost use Rattle.lattice_core.specs.Order.{IsLattice};
ghost use Rattle.flow_graph.specs.System.{IsWellOwned};
ghost use Rattle.flow_graph.specs.Unfolding.{IsAcceptedIn, NamesElementsIn};
ghost use Rattle.match_summary.specs.Summary.{SummarisesFrom};
ghost use Rattle.lattice_solver.specs.Solution.{IsSolved};
ghost use Rattle.split_laws.specs.Same.{SamePaths};
ghost use Rattle.split_laws.specs.Splits.{ServedIsWhole, WholeIsServed};
ghost use Rattle.annotate.specs.Scenes.{units_of, AreApart};
ghost use Rattle.sig_writer.specs.Library.{externals_by};
ghost use Rattle.sig_writer.specs.Nodes.{AreInOrder};
ghost use Rattle.sig_writer.specs.Parts.{AreOwnedApart};
ghost use Rattle.sig_writer.specs.Signatures.{nodes_of};
ghost use Rattle.sig_writer.specs.Signing.{IsFault, IsWritten};

use crate::lines::{Library, SigFault, signatures};
use crate::nodes::signature_vars;
use crate::says::Known;
use bounds_below::bounds_below;
use flow_graph::FlowGraph;
use lattice_core::Lattice;
use lattice_solver::Solver;
use match_summary::{Summaries, summarise_from};
use qual_base::LatticeNo;
use split_laws::{same_paths, served_is_whole, whole_is_served};
use std::alloc::Global;

/// The laws that serving rests on.
fn laws(lattice: &Lattice)
    ensures lattice { IsLattice lattice.now.order }
    ensures paths { SamePaths }
    ensures served { ServedIsWhole }
    ensures whole { WholeIsServed }
{
    lattice.law();
    same_paths();
    served_is_whole();
    whole_is_served();
}

/// Whether no bound is exceeded.
#[tactic(auto, using(crate::proofs::Written::none_is_accepted))]
fn is_accepted(graph: &FlowGraph, lattice: &Lattice, solver: &Solver) -> bool
    requires solved { IsSolved graph.now solver.now }
    requires number { solver.now.lattice ≡ 0 }
    requires owned { IsWellOwned graph.now }
    requires named { NamesElementsIn graph.now 0 lattice.now.order }
    ensures { IsTrue result ↔ IsAcceptedIn graph.now 0 lattice.now.order }
{
    solver.first_exceeded(graph, lattice).is_none()
}

/// The lines of a library, by its summaries and its solver.
fn signed_by(
    alloc: Global,
    library: &Library<'_>,
    graph: &FlowGraph,
    lattice: &Lattice,
    summaries: &Summaries,
    solver: &Solver,
) -> Result<Vec<u8>, SigFault>
    requires units { AreApart (units_of library.now.units.now) }
    requires skeletons { AreInOrder library.now.skeletons.now }
    requires summaries { SummarisesFrom graph.now 0
        (flat_map nodes_of (externals_by library.now)) summaries.now }
    requires solved { IsSolved graph.now solver.now }
    requires number { solver.now.lattice ≡ 0 }
    requires owned { IsWellOwned graph.now }
    requires apart { AreOwnedApart graph.now (externals_by library.now) }
    requires named { NamesElementsIn graph.now 0 lattice.now.order }
    requires accepted { IsAcceptedIn graph.now 0 lattice.now.order }
    ensures lines { IfOk result
        (λ text. IsWritten graph.now lattice.now (externals_by library.now) text.items) }
    ensures fault { IfErr result (IsFault graph.now lattice.now (externals_by library.now)) }
{
    laws(lattice);
    let below = bounds_below(alloc, graph, solver.lattice(), summaries)?;
    let known = Known::new(lattice, summaries, solver, &below);
    signatures(alloc, library, &known)
}

/// The lines of a library over its one lattice, or why a function has no signature; nothing where the library is not accepted.
///
/// The lattice is solved once. Beside that linear in the constraints, each of which is followed at most 64 times, and in what
/// `signatures` takes.
pub fn signed(
    alloc: Global,
    library: &Library<'_>,
    graph: &FlowGraph,
    lattice: &Lattice,
) -> Result<Option<Vec<u8>>, SigFault>
    requires units { AreApart (units_of library.now.units.now) }
    requires skeletons { AreInOrder library.now.skeletons.now }
    requires owned { IsWellOwned graph.now }
    requires apart { AreOwnedApart graph.now (externals_by library.now) }
    requires named { NamesElementsIn graph.now 0 lattice.now.order }
    ensures lines { IfOk result (λ found. IfSome found (λ text.
        IsWritten graph.now lattice.now (externals_by library.now) text.items)) }
    ensures accepted { IfOk result (λ found. IfSome found (λ text.
        IsAcceptedIn graph.now 0 lattice.now.order)) }
    ensures rejected { IfOk result (λ found. found ≡ None →
        IsAcceptedIn graph.now 0 lattice.now.order → ⊥) }
    ensures fault { IfErr result (IsFault graph.now lattice.now (externals_by library.now)) }
    ensures accepted_too { IfErr result (λ fault. fault ≢ OutOfMemory →
        IsAcceptedIn graph.now 0 lattice.now.order) }
{
    let at = LatticeNo::new(0);
    let vars = signature_vars(alloc, library.functions, library.skeletons)?;
    let summaries = summarise_from(alloc, graph, at, &vars)?;
    let mut solver = Solver::new(alloc, graph, &summaries, at)?;
    solver.run(graph, &summaries);
    if !is_accepted(graph, lattice, &solver) {
        return Ok(None);
    }
    let text = signed_by(alloc, library, graph, lattice, &summaries, &solver)?;
    Ok(Some(text))
}
