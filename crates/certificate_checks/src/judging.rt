//! Reading a certificate and checking it.

ghost use Rattle.std.specs.Prelude.{◌≡◌, ◌<◌, ◌-◌, ◌^◌, ℕ, None, Some, IfOk, IfSome};
ghost use Rattle.std.specs.Prelude.{MatchOption, length, slice_get};
ghost use Rattle.lattice_core.specs.View.{orders_of};
ghost use Rattle.flow_graph.specs.Unfolding.{IsAccepted, NamesElements};
ghost use Rattle.closure_check.specs.Index.{IsIndex};
ghost use Rattle.certificate_reader.specs.Grammar.{ArePlain};
ghost use Rattle.certificate_checks.specs.Checks.{ComesTo, FailsFirst, ObeysAt, unread_of};

use certificate_laws::CertRule;
use certificate_reader::{CertFault, read_certificate};
use closure_check::{CheckIndex, Part, check_part};
use flow_graph::FlowGraph;
use lattice_core::Lattices;
use qual_base::{LatticeNo, NoMemory, Numbered};
use std::alloc::Global;

/// Why a text is no certificate.
#[derive(Clone, Copy, PartialEq, Eq, Debug)]
pub enum CertCode {
    /// The line does not fit where it stands, or the text ends before it too soon.
    V1,
    /// A name in the line is not that of a variable.
    V2,
}

/// What a certificate comes to. Lines and lattices count from 1.
#[derive(Clone, Copy, PartialEq, Eq, Debug)]
pub enum Verdict {
    /// It reads, and obeys the rules in every lattice.
    Holds,
    /// It reads, and this is the first lattice in which it breaks a rule, with the lowest that it breaks there.
    Fails { lattice: u32, rule: CertRule },
    /// It does not read.
    Unread { line: u32, code: CertCode },
}

/// The certificate of a lattice.
fn part_of(parts: &[Part], lattice: LatticeNo) -> &Part
    requires { lattice < length parts.now }
    ensures { slice_get parts.now lattice ≡ Some result.now }
{
    &parts[usize::from(lattice.number())]
}

/// The first lattice in which a certificate breaks a rule, and the lowest that it breaks there.
fn first_failing(
    graph: &FlowGraph,
    index: &CheckIndex,
    lattices: &Lattices,
    parts: &[Part],
) -> Option<(u32, CertRule)>
    requires index { IsIndex graph.now index.now }
    requires named { NamesElements graph.now (orders_of lattices.now) }
    requires parts { ArePlain graph.now (orders_of lattices.now) parts.now }
    ensures first { MatchOption result
        ((n : ℕ) → ObeysAt graph.now (orders_of lattices.now) parts.now n)
        (λ found. FailsFirst graph.now (orders_of lattices.now) parts.now found.0 found.1) }
    ensures accepted { result ≡ None → IsAccepted graph.now (orders_of lattices.now) }
    ensures few { IfSome result (λ found. found.0 < 16) }
{
    for at in 0..lattices.len() {
        let lattice = LatticeNo::new(at);
        if let Err(rule) = check_part(
            graph,
            index,
            lattices.get(lattice),
            lattice,
            part_of(parts, lattice),
        ) {
            return Some((u32::from(at), rule));
        }
    }
    None
}

/// What a certificate that does not read comes to.
fn unread(fault: CertFault) -> Result<Verdict, NoMemory>
    ensures { IfOk result (λ verdict. unread_of fault ≡ Some verdict) }
{
    match fault {
        CertFault::Grammar(line) => Ok(Verdict::Unread {
            line,
            code: CertCode::V1,
        }),
        CertFault::NoSuchVariable(line) => Ok(Verdict::Unread {
            line,
            code: CertCode::V2,
        }),
        CertFault::NoMemory => Err(NoMemory),
    }
}

/// Judges the text of a certificate against a constraint graph and its lattices: whether it reads as
/// `certificate_reader::read_certificate` says and obeys the rules in each lattice as `closure_check::check_part` says. Where it
/// holds, the program is accepted, whoever wrote the certificate.
///
/// Takes time and memory as those two do, and as `closure_check::CheckIndex::build`, which is made once for all lattices.
///
/// # Errors
///
/// Want of memory.
pub fn judge_certificate(
    alloc: Global,
    graph: &FlowGraph,
    lattices: &Lattices,
    bytes: &[u8],
) -> Result<Verdict, NoMemory>
    requires length { length bytes.now < 2 ^ 32 - 1 }
    requires named { NamesElements graph.now (orders_of lattices.now) }
    ensures is { IfOk result (ComesTo graph.now (orders_of lattices.now) bytes.now) }
    ensures accepted { IfOk result (λ verdict. verdict ≡ Verdict.Holds →
        IsAccepted graph.now (orders_of lattices.now)) }
{
    let parts = match read_certificate(alloc, bytes, graph, lattices) {
        Ok(parts) => parts,
        Err(fault) => return unread(fault),
    };
    let index = CheckIndex::build(alloc, graph)?;
    match first_failing(graph, &index, lattices, &parts) {
        None => Ok(Verdict::Holds),
        Some((before, rule)) => Ok(Verdict::Fails {
            lattice: before + 1,
            rule,
        }),
    }
}
