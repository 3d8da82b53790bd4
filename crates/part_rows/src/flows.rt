//! Constraints between skeletons of types, in lattices 0 and 2.
//!
//! A constraint from variable u to v is printed as `u<v`, a call of the site as `u>v`, a return of it as `u^v`, and with a `!`
//! behind it if its lattices or its tokens are not those that were asked for, or its site is another.

use crate::rows::Flow;
use crate::types::type_of;
use crate::words::{halves, number, put, put_number};
use flow_graph::{Constraint, FlowGraph, GraphFault, Link, Site};
use flow_rules::{cross, equate, flow, smash, unsmash};
use qual_base::{
    EdgeId, FuncId, NoMemory, Numbered, Owner, SiteId, SkelId, Span, TokenId, TypeId, UnitNo,
};
use qual_types::VarTable;
use std::alloc::Global;
use type_table::TypeTable;

/// The lattices of constraints.
const LATTICES: u16 = 5;

fn span() -> Span {
    Span {
        unit: UnitNo::new(1),
        from: TokenId::new(2),
        to: TokenId::new(3),
    }
}

/// A list of constraints that was added, or why it was not.
fn added(outcome: Result<(), GraphFault>) -> Result<(), NoMemory> {
    match outcome {
        Ok(()) => Ok(()),
        Err(_) => Err(NoMemory),
    }
}

/// A skeleton of nobody.
fn skeleton(
    vars: &mut VarTable,
    types: &TypeTable,
    ty: TypeId,
    outer: bool,
) -> Result<SkelId, NoMemory> {
    let token = TokenId::new(vars.count());
    match vars.fresh(types, ty, outer, UnitNo::new(0), token, Owner::Nobody) {
        Ok(at) => Ok(at),
        Err(_) => Err(NoMemory),
    }
}

/// Adds the constraints of a call at a site of nobody.
fn call(
    vars: &VarTable,
    graph: &mut FlowGraph,
    signature: SkelId,
    instance: SkelId,
) -> Result<(), NoMemory> {
    if graph.sites() >= 1_000_000 {
        return Err(NoMemory);
    }
    let site = graph.add_site(Site {
        unit: UnitNo::new(1),
        token: TokenId::new(9),
        target: FuncId::new(3),
        owner: Owner::Nobody,
    })?;
    added(cross(vars, graph, site, signature, instance, LATTICES, span()))
}

/// Adds the constraints between two skeletons.
fn put_flow(
    vars: &VarTable,
    graph: &mut FlowGraph,
    how: Flow,
    one: SkelId,
    other: SkelId,
) -> Result<(), NoMemory> {
    match how {
        Flow::Into => added(flow(vars, graph, one, other, LATTICES, span())),
        Flow::Equal => added(equate(vars, graph, one, other, LATTICES, span())),
        Flow::IntoVariable => added(smash(vars, graph, one, vars.var(other), LATTICES, span())),
        Flow::OutOfVariable => added(unsmash(vars, graph, vars.var(other), one, LATTICES, span())),
        Flow::Cross => call(vars, graph, one, other),
    }
}

/// Adds a constraint to an answer.
fn put_constraint(alloc: Global, out: &mut String, it: &Constraint) -> Result<(), NoMemory> {
    let first = SiteId::new(0);
    let (from, sign, to, is_first) = match it.link {
        Link::Le(from, to) => (from.number(), '<', to.number(), true),
        Link::Enter(site, from, to) => (from.number(), '>', to.number(), site == first),
        Link::Leave(site, from, to) => (from.number(), '^', to.number(), site == first),
        Link::Const(_, _, to) => (0, '?', to.number(), false),
        Link::Bound(from, _, _) => (from.number(), '?', 0, false),
    };
    let text = format!(in alloc; "{from}{sign}{to}")?;
    put(out, text.as_str())?;
    if it.lattices != LATTICES || it.span != span() || !is_first {
        out.push('!')?;
    }
    Ok(())
}

/// The constraints of a graph, in order.
fn graph_text(alloc: Global, graph: &FlowGraph) -> Result<String, NoMemory> {
    let mut out = String::new(alloc);
    for n in 0..graph.len() {
        let it = graph.constraint(EdgeId::new(n));
        put_constraint(alloc, &mut out, &it)?;
    }
    Ok(out)
}

/// The constraints between skeletons of two types; those of a call are between skeletons with a reference around.
pub(crate) fn flow_text(alloc: Global, how: Flow, words: &str) -> Result<String, NoMemory> {
    let (one, other) = halves(words, ' ');
    let mut types = TypeTable::new(alloc);
    let one = type_of(alloc, &mut types, one)?;
    let other = type_of(alloc, &mut types, other)?;
    let mut vars = VarTable::new(alloc);
    let outer = how == Flow::Cross;
    let one = skeleton(&mut vars, &types, one, outer)?;
    let other = skeleton(&mut vars, &types, other, outer)?;
    let mut graph = FlowGraph::new(alloc);
    put_flow(&vars, &mut graph, how, one, other)?;
    graph_text(alloc, &graph)
}

/// How many constraints there are behind a flow between two skeletons of a type, behind an equation of them, and behind a
/// flow of the first into one variable.
pub(crate) fn lengths_text(alloc: Global, word: &str) -> Result<String, NoMemory> {
    let mut types = TypeTable::new(alloc);
    let ty = type_of(alloc, &mut types, word)?;
    let base = type_of(alloc, &mut types, "B")?;
    let mut vars = VarTable::new(alloc);
    let one = skeleton(&mut vars, &types, ty, false)?;
    let other = skeleton(&mut vars, &types, ty, false)?;
    let last = skeleton(&mut vars, &types, base, false)?;
    let mut graph = FlowGraph::new(alloc);
    let mut out = String::new(alloc);
    put_flow(&vars, &mut graph, Flow::Into, one, other)?;
    put_number(alloc, &mut out, graph.len())?;
    put_flow(&vars, &mut graph, Flow::Equal, one, other)?;
    put_number(alloc, &mut out, graph.len())?;
    put_flow(&vars, &mut graph, Flow::IntoVariable, one, last)?;
    put_number(alloc, &mut out, graph.len())?;
    Ok(out)
}

/// Adds a flow, what became of it, and how many constraints there are.
fn put_last(
    alloc: Global,
    out: &mut String,
    vars: &VarTable,
    graph: &mut FlowGraph,
    one: SkelId,
    other: SkelId,
) -> Result<(), NoMemory> {
    match flow(vars, graph, one, other, LATTICES, span()) {
        Ok(()) => put(out, "added")?,
        Err(GraphFault::TooMany) => put(out, "full")?,
        Err(GraphFault::NoMemory) => return Err(NoMemory),
    }
    put_number(alloc, out, graph.len())
}

/// What becomes of three flows between two skeletons behind so many equations of them, and how many constraints there are.
pub(crate) fn full_text(alloc: Global, words: &str) -> Result<String, NoMemory> {
    let (count, word) = halves(words, ' ');
    let mut types = TypeTable::new(alloc);
    let ty = type_of(alloc, &mut types, word)?;
    let mut vars = VarTable::new(alloc);
    let one = skeleton(&mut vars, &types, ty, false)?;
    let other = skeleton(&mut vars, &types, ty, false)?;
    let mut graph = FlowGraph::new(alloc);
    for _ in 0..number(count) {
        put_flow(&vars, &mut graph, Flow::Equal, one, other)?;
    }
    let mut out = String::new(alloc);
    for _ in 0..3_u32 {
        put_last(alloc, &mut out, &vars, &mut graph, one, other)?;
    }
    Ok(out)
}
