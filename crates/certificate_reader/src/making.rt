//! Certificates made of what their lines say.

ghost use Rattle.std.specs.Prelude.{◌≡◌, ◌<◌, ◌*◌, ℕ, IfOk, length, map, slice_index};
ghost use Rattle.certificate_reader.specs.Reader.{AreLines, IsPartOf};
ghost use Rattle.certificate_reader.specs.Making.{AreFilled, ArePairsOf, PairsExist, SetsExist};
ghost use Rattle.certificate_reader.specs.Making.{vars_at};

use certificate_text::{SetLine, end_at, put_in_order};
use closure_check::Part;
use flow_graph::FlowGraph;
use qual_base::{ElemSet, NoMemory, Numbered, VarId};
use std::alloc::{AllocError, Global};

/// The certificate of a lattice whose lines are these. Linear in the lines and the variables, but for the sorting of the pairs.
pub fn part_of(
    alloc: Global,
    graph: &FlowGraph,
    sets: &[SetLine],
    pairs: &[(u32, u32)],
) -> Result<Part, NoMemory>
    requires { AreLines graph.now sets.now pairs.now }
    ensures { IfOk result (IsPartOf graph.now sets.now pairs.now) }
{
    let (first, second) = sets_of_vars(alloc, graph, sets)?;
    let pairs = pairs_of(alloc, graph, pairs)?;
    Ok(Part {
        pairs,
        first,
        second,
    })
}

/// The two sets of each variable, those that no line says empty.
fn sets_of_vars(
    alloc: Global,
    graph: &FlowGraph,
    sets: &[SetLine],
) -> Result<(Vec<ElemSet>, Vec<ElemSet>), AllocError>
    requires { SetsExist graph.now sets.now }
    ensures { IfOk result (λ it. AreFilled graph.now sets.now it.0.items it.1.items) }
{
    let mut first = empty_sets(alloc, graph.vars())?;
    let mut second = empty_sets(alloc, graph.vars())?;
    for set in sets {
        let at = end_at(graph, set.name).number() as usize;
        first[at] = ElemSet::new(set.first);
        second[at] = ElemSet::new(set.second);
    }
    Ok((first, second))
}

/// So many empty sets.
fn empty_sets(alloc: Global, count: u32) -> Result<Vec<ElemSet>, AllocError>
    ensures size { IfOk result (λ sets. length sets.items ≡ count) }
    ensures empty { IfOk result (λ sets. (v : ℕ) → slice_index sets.items v ≡ 0) }
{
    vec![in alloc; ElemSet::new(0); count as usize]
}

/// The pairs of variables that names say, in the order of their numbers.
fn pairs_of(
    alloc: Global,
    graph: &FlowGraph,
    pairs: &[(u32, u32)],
) -> Result<Vec<(VarId, VarId)>, AllocError>
    requires { PairsExist graph.now pairs.now }
    ensures { IfOk result (λ found. ArePairsOf graph.now pairs.now found.items) }
{
    let mut numbers = numbers_of(alloc, graph, pairs)?;
    put_in_order(&mut numbers)?;
    vars_of(alloc, numbers.as_slice())
}

/// The numbers of the variables that names say.
fn numbers_of(
    alloc: Global,
    graph: &FlowGraph,
    pairs: &[(u32, u32)],
) -> Result<Vec<(u32, u32)>, AllocError>
    requires { PairsExist graph.now pairs.now }
    ensures { IfOk result (λ numbers. numbers.items ≡ map (λ pair. vars_at graph.now pair) pairs.now) }
{
    let mut numbers = Vec::new(alloc);
    for pair in pairs {
        numbers.push(numbers_at(graph, *pair))?;
    }
    Ok(numbers)
}

/// The numbers of the variables at two ends.
fn numbers_at(graph: &FlowGraph, pair: (u32, u32)) -> (u32, u32)
    requires from { pair.0 < 2 * length graph.now.constraints }
    requires to { pair.1 < 2 * length graph.now.constraints }
    ensures { result ≡ vars_at graph.now pair }
{
    (
        end_at(graph, pair.0).number(),
        end_at(graph, pair.1).number(),
    )
}

/// The variables with these numbers.
fn vars_of(alloc: Global, numbers: &[(u32, u32)]) -> Result<Vec<(VarId, VarId)>, AllocError>
    ensures { IfOk result (λ found. found.items ≡ numbers.now) }
{
    let mut found = Vec::new(alloc);
    for pair in numbers {
        found.push((VarId::new(pair.0), VarId::new(pair.1)))?;
    }
    Ok(found)
}
