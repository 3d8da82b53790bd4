//! The certificate of a lattice.

ghost use Rattle.std.specs.Prelude.{◌≡◌, [], IfOk};
ghost use Rattle.lattice_core.specs.Order.{IsOrder, Order};
ghost use Rattle.flow_graph.specs.System.{IsWellOwned};
ghost use Rattle.flow_graph.specs.Unfolding.{IsAcceptedIn, NamesElementsIn};
ghost use Rattle.certificate_laws.specs.Certificates.{IsWritten, Obeys};
ghost use Rattle.closure_check.specs.Parts.{certificate_of, IsPart};
ghost use Rattle.match_summary.specs.Summary.{SummarisesFrom};
ghost use Rattle.lattice_solver.specs.Solution.{IsSolved};

use crate::pairs::joined_pairs;
use crate::sets::{first_sets, second_sets};
use certificate_laws::accepted_is_certified;
use closure_check::Part;
use flow_graph::FlowGraph;
use lattice_solver::Solver;
use match_summary::Summaries;
use qual_base::{LatticeNo, NoMemory};
use std::alloc::Global;

/// The certificate of a lattice: as its pairs the variables that matched paths join, nothing or of more parts, from the inner
/// ends of calls; as the first set of a variable the constants that lead to it with no call open since the last variable of
/// nobody, as its second all that lead to it. Of a system that is well owned and accepted it obeys the rules.
///
/// Linear in the constraints and the variables, and in the summaries and the calls but for a logarithm. Memory: 16 bytes a
/// variable and 8 a pair, and while the pairs are sorted 16 for each summary and each call; the lists double, so that they may
/// have room for twice as many.
pub fn certificate(
    alloc: Global,
    graph: &FlowGraph,
    lattice: LatticeNo,
    summaries: &Summaries,
    solver: &Solver,
) -> Result<Part, NoMemory>
    requires lattice { solver.now.lattice ≡ lattice }
    requires solved { IsSolved graph.now solver.now }
    requires summaries { SummarisesFrom graph.now lattice [] summaries.now }
    ensures written { IfOk result
        (λ part. IsWritten graph.now lattice (certificate_of part)) }
    ensures holds { IfOk result (λ part. (order : Order) → IsWellOwned graph.now →
        IsOrder order → IsAcceptedIn graph.now lattice order →
        Obeys graph.now lattice order (certificate_of part)) }
    ensures part { IfOk result (λ part. (order : Order) →
        NamesElementsIn graph.now lattice order → IsPart graph.now order part) }
{
    accepted_is_certified();
    let pairs = joined_pairs(alloc, graph, lattice, summaries)?;
    let vars = graph.vars();
    let first = first_sets(alloc, vars, solver)?;
    let second = second_sets(alloc, vars, solver)?;
    Ok(Part {
        pairs,
        first,
        second,
    })
}
