//! Reading a report and checking its path proofs.

ghost use Rattle.std.specs.Prelude.{◌≡◌, ◌≢◌, ◌<◌, ◌-◌, ◌^◌, [], map, length, Some};
ghost use Rattle.std.specs.Prelude.{All, IfOk, MatchOption};
ghost use Rattle.lattice_core.specs.View.{orders_of};
ghost use Rattle.path_checker.specs.Report.{shape_of};
ghost use Rattle.path_checker.specs.ReportChecks.Checks.{StepsHold, FailsFirst, ComesTo, Refutes, bad_of};

use crate::{BadStep, PathProof, ReportFault, Why, check, read_report};
use flow_graph::FlowGraph;
use lattice_core::Lattices;
use qual_base::NoMemory;
use std::alloc::Global;

/// What is wrong with a report at a line.
#[derive(Clone, Copy, PartialEq, Eq, Debug)]
pub enum Code {
    /// The line does not fit where it stands, or the report ends before it too soon.
    K1,
    /// The line is a step by the number of no constraint.
    K2,
    /// The step fails a rule of path proofs, or one is missing.
    Rule(Why),
}

/// What a report comes to. Lines count from 1.
#[derive(Clone, Copy, PartialEq, Eq, Debug)]
pub enum Checked {
    /// It reads, and all its path proofs hold.
    Hold,
    Bad { line: u32, code: Code },
}

/// The first step that fails of the first proof that does.
fn first_bad(graph: &FlowGraph, lattices: &Lattices, proofs: &[PathProof]) -> Option<BadStep>
    ensures first { MatchOption result
        (All (StepsHold graph.now (orders_of lattices.now)) (map shape_of proofs.now))
        (FailsFirst graph.now (orders_of lattices.now) (map shape_of proofs.now)) }
    ensures rejects { MatchOption result
        (proofs.now ≢ [] → Refutes graph.now (orders_of lattices.now)) (λ bad. Unit {0}) }
{
    for proof in proofs {
        if let Err(bad) = check(graph, lattices, proof) {
            return Some(bad);
        }
    }
    None
}

/// What a report that does not read comes to.
fn unread(fault: ReportFault) -> Result<Checked, NoMemory>
    ensures { IfOk result (λ checked. bad_of fault ≡ Some checked) }
{
    match fault {
        ReportFault::Grammar(line) => Ok(Checked::Bad {
            line,
            code: Code::K1,
        }),
        ReportFault::NoSuchConstraint(line) => Ok(Checked::Bad {
            line,
            code: Code::K2,
        }),
        ReportFault::NoMemory => Err(NoMemory),
    }
}

/// What a report comes to.
fn judge(
    alloc: Global,
    graph: &FlowGraph,
    lattices: &Lattices,
    bytes: &[u8],
) -> Result<Checked, NoMemory>
    requires { length bytes.now < 2 ^ 32 - 1 }
    ensures is { IfOk result (ComesTo graph.now (orders_of lattices.now) bytes.now) }
    ensures rejects { IfOk result (λ checked. checked ≡ Checked.Hold →
        Refutes graph.now (orders_of lattices.now)) }
{
    let proofs = match read_report(alloc, bytes, graph.len()) {
        Ok(proofs) => proofs,
        Err(fault) => return unread(fault),
    };
    match first_bad(graph, lattices, &proofs) {
        None => Ok(Checked::Hold),
        Some(bad) => Ok(Checked::Bad {
            line: bad.line,
            code: Code::Rule(bad.why),
        }),
    }
}

/// Judges the text of a report against a constraint graph and its lattices: whether it reads as `crate::read_report`
/// says and each of its path proofs holds as `crate::check` says. Where the paths hold, the system is well owned and its
/// constants and bounds name elements, the program is not accepted.
///
/// Takes time and memory linear in the text.
///
/// # Errors
///
/// Want of memory.
pub fn judge_report(
    alloc: Global,
    graph: &FlowGraph,
    lattices: &Lattices,
    bytes: &[u8],
) -> Result<Checked, NoMemory>
    requires { length bytes.now < 2 ^ 32 - 1 }
    ensures is { IfOk result (ComesTo graph.now (orders_of lattices.now) bytes.now) }
    ensures only { IfOk result (λ checked. (other : _) →
        ComesTo graph.now (orders_of lattices.now) bytes.now other → checked ≡ other) }
    ensures rejects { IfOk result (λ checked. checked ≡ Checked.Hold →
        Refutes graph.now (orders_of lattices.now)) }
{
    judge(alloc, graph, lattices, bytes)
}
