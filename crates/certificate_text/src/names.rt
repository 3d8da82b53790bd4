//! The names of variables.

ghost use Rattle.std.specs.Prelude.{◌≡◌, ◌*◌, ◌<◌, ℕ, Some, None, IfOk, length, slice_get};
ghost use Rattle.flow_graph.specs.System.{vars_of};
ghost use Rattle.certificate_text.specs.Names.{AreNames, ends_in};

use flow_graph::{FlowGraph, Link};
use qual_base::{EdgeId, NoMemory, Numbered, VarId};
use std::alloc::{AllocError, Global};

/// The variable at the first end of a link, which is its only one at a constant or a bound.
fn first_end(link: Link) -> VarId
    ensures { result ≡ Rattle.certificate_text.specs.Names.first_end link }
{
    match link {
        Link::Le(from, _) => from,
        Link::Const(_, _, at) => at,
        Link::Bound(at, _, _) => at,
        Link::Enter(_, from, _) => from,
        Link::Leave(_, from, _) => from,
    }
}

/// The variable at the second end of a link, which is its only one at a constant or a bound.
fn second_end(link: Link) -> VarId
    ensures { result ≡ Rattle.certificate_text.specs.Names.second_end link }
{
    match link {
        Link::Le(_, to) => to,
        Link::Const(_, _, at) => at,
        Link::Bound(at, _, _) => at,
        Link::Enter(_, _, to) => to,
        Link::Leave(_, _, to) => to,
    }
}

/// The variable at an end. Constraint n has the ends 2n and 2n + 1.
pub fn end_at(graph: &FlowGraph, end: u32) -> VarId
    requires { end < 2 * length graph.now.constraints }
    ensures there { slice_get (ends_in graph.now) end ≡ Some result }
    ensures below { result < vars_of graph.now }
{
    let _vars = graph.vars();
    let link = graph.constraint(EdgeId::new(end / 2)).link;
    if end % 2 == 0 {
        first_end(link)
    } else {
        second_end(link)
    }
}

/// How many ends there are.
pub fn ends(graph: &FlowGraph) -> u32
    ensures { result ≡ 2 * length graph.now.constraints }
{
    graph.law();
    2 * graph.len()
}

/// The name of each variable: the first end at which it stands, where it stands at one. Time and memory are linear in the
/// constraints and the variables.
pub fn name_table(alloc: Global, graph: &FlowGraph) -> Result<Vec<Option<u32>>, NoMemory>
    ensures { IfOk result (λ names. AreNames graph.now names.items) }
{
    let mut names = nameless(alloc, graph.vars())?;
    let mut end = ends(graph);
    'ends: while end > 0 {
        end -= 1;
        names[end_at(graph, end).number() as usize] = Some(end);
    }
    Ok(names)
}

/// So many variables without a name.
fn nameless(alloc: Global, count: u32) -> Result<Vec<Option<u32>>, AllocError>
    ensures size { IfOk result (λ names. length names.items ≡ count) }
    ensures nameless { IfOk result (λ names. (v : ℕ) →
        Rattle.certificate_text.specs.Names.name_in names.items v ≡ None) }
{
    vec![in alloc; None; count as usize]
}

/// The name of a variable.
pub fn name_in(names: &[Option<u32>], at: VarId) -> Option<u32>
    ensures { result ≡ Rattle.certificate_text.specs.Names.name_in names.now at }
{
    match names.get(at.number() as usize) {
        Some(name) => *name,
        None => None,
    }
}
