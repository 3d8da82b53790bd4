//! Graphs of constraints: pieces of one, and rows and rings of calls.

ghost use Rattle.std.specs.Prelude.{◌≡◌, length};
ghost use Rattle.flow_graph.specs.System.{IsWithin};

use flow_graph::{Constraint, FlowGraph, Link, Site};
use qual_base::{FuncId, NoMemory, Numbered, Owner, SiteId, Span, TokenId, UnitNo, VarId};
use std::alloc::Global;

/// The number of variables.
const VARIABLES: u32 = 16_777_216;

/// Adds a call of a function in another, or at file scope.
pub(crate) fn call(graph: &mut FlowGraph, target: u32, owner: Owner) -> Result<(), NoMemory> {
    if graph.sites() >= 1_000_000 {
        return Err(NoMemory);
    }
    graph.add_site(Site {
        unit: UnitNo::new(1),
        token: TokenId::new(0),
        target: FuncId::new(target),
        owner,
    })?;
    Ok(())
}

/// Has a function own a variable.
pub(crate) fn own(graph: &mut FlowGraph, at: u32, function: u32) -> Result<(), NoMemory> {
    if at >= VARIABLES {
        return Err(NoMemory);
    }
    graph.set_owner(VarId::new(at), Owner::Function(FuncId::new(function)))
}

/// Adds a constraint of the second lattice.
fn put(graph: &mut FlowGraph, link: Link) -> Result<(), NoMemory>
    requires { IsWithin (length graph.old.sites) link }
    ensures { graph.new.sites ≡ graph.old.sites }
{
    let added = graph.add(Constraint {
        link,
        lattices: 2,
        span: Span {
            unit: UnitNo::new(1),
            from: TokenId::new(0),
            to: TokenId::new(0),
        },
    });
    match added {
        Ok(_) => Ok(()),
        Err(_) => Err(NoMemory),
    }
}

/// Adds a flow.
pub(crate) fn flow(graph: &mut FlowGraph, from: u32, to: u32) -> Result<(), NoMemory> {
    if from >= VARIABLES || to >= VARIABLES {
        return Err(NoMemory);
    }
    put(graph, Link::Le(VarId::new(from), VarId::new(to)))
}

/// Adds a flow into the function that is called at a site.
pub(crate) fn enter(graph: &mut FlowGraph, site: u32, from: u32, to: u32) -> Result<(), NoMemory> {
    if site >= graph.sites() || from >= VARIABLES || to >= VARIABLES {
        return Err(NoMemory);
    }
    put(
        graph,
        Link::Enter(SiteId::new(site), VarId::new(from), VarId::new(to)),
    )
}

/// Adds a flow out of the function that is called at a site.
pub(crate) fn leave(graph: &mut FlowGraph, site: u32, from: u32, to: u32) -> Result<(), NoMemory> {
    if site >= graph.sites() || from >= VARIABLES || to >= VARIABLES {
        return Err(NoMemory);
    }
    put(
        graph,
        Link::Leave(SiteId::new(site), VarId::new(from), VarId::new(to)),
    )
}

/// The first of the two variables of a function, and the second is the next one.
fn variable(function: u32) -> u32 {
    function.saturating_mul(2)
}

fn next(variable: u32) -> u32 {
    variable.saturating_add(1)
}

/// Functions with two variables each.
fn functions_of_two(alloc: Global, functions: u32) -> Result<FlowGraph, NoMemory> {
    let mut graph = FlowGraph::new(alloc);
    for k in 0..functions {
        own(&mut graph, variable(k), k)?;
        own(&mut graph, next(variable(k)), k)?;
    }
    Ok(graph)
}

/// Adds the call and the return of a site, or the other way round, from one function of two variables to another.
fn put_call(
    graph: &mut FlowGraph,
    caller: u32,
    target: u32,
    is_reversed: bool,
) -> Result<(), NoMemory> {
    let outer = variable(caller);
    let inner = variable(target);
    if is_reversed {
        leave(graph, caller, next(inner), next(outer))?;
        enter(graph, caller, outer, inner)
    } else {
        enter(graph, caller, outer, inner)?;
        leave(graph, caller, next(inner), next(outer))
    }
}

/// Functions that call one another in a row, function k with variables 2k and 2k + 1: site k is a call of the function
/// behind function k, which takes variable 2k and gives variable 2k + 1. In the last function 2k flows to 2k + 1. The
/// constraints stand from the first function on, or the other way round.
pub(crate) fn row_of_calls(
    alloc: Global,
    functions: u32,
    is_reversed: bool,
) -> Result<FlowGraph, NoMemory> {
    let mut graph = functions_of_two(alloc, functions)?;
    let last = functions.saturating_sub(1);
    for k in 0..last {
        call(
            &mut graph,
            k.saturating_add(1),
            Owner::Function(FuncId::new(k)),
        )?;
    }
    if is_reversed {
        flow(&mut graph, variable(last), next(variable(last)))?;
    }
    for n in 0..last {
        let k = if is_reversed {
            last.saturating_sub(1).saturating_sub(n)
        } else {
            n
        };
        put_call(&mut graph, k, k.saturating_add(1), is_reversed)?;
    }
    if !is_reversed {
        flow(&mut graph, variable(last), next(variable(last)))?;
    }
    Ok(graph)
}

/// The same, but the last function calls the first, and the flow is in the middle.
pub(crate) fn ring_of_calls(alloc: Global, functions: u32) -> Result<FlowGraph, NoMemory> {
    let mut graph = functions_of_two(alloc, functions)?;
    for k in 0..functions {
        let behind = k.saturating_add(1);
        let target = if behind == functions { 0 } else { behind };
        call(&mut graph, target, Owner::Function(FuncId::new(k)))?;
        put_call(&mut graph, k, target, false)?;
    }
    flow(&mut graph, functions, functions.saturating_add(1))?;
    Ok(graph)
}
