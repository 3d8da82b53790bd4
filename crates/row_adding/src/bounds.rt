//! Bounds on what is written to and on what is dereferenced.
#![tactic(auto, using(crate::proofs::Lists::with_none, crate::proofs::Lists::with_append, crate::proofs::Lists::stop_front, crate::proofs::Lists::stop_back))]

ghost use Rattle.std.specs.Prelude.{◌≡◌, ◌<◌, ◌^◌, IfErr, OnOk, drop};
ghost use Rattle.flow_rules.specs.Adding.{with};
ghost use Rattle.qual_types.specs.Skel.{root};
ghost use Rattle.qual_types.specs.Table.{IsVar};
ghost use Rattle.row_rules.specs.Annotations as rules;
ghost use Rattle.row_rules.specs.Annotations.{bounds_of, bounds_from, derefs_where};
ghost use Rattle.row_rules.specs.Rows as rows;
ghost use Rattle.row_world.specs.Shown.{skel};
ghost use Rattle.row_adding.specs.Adding.{StopsEarly, Adds, Halts};
ghost use Rattle.row_adding.specs.Parts.{has, bound_by};

use crate::flows::add;
use flow_graph::{FlowGraph, GraphFault, Link};
use lattice_core::{Deref, Entry, Lattice, Lattices};
use qual_base::{Elem, LatticeNo, SkelId, Span, VarId};
use row_world::{Known, contents, is_fun};

/// What an element may say: that it bounds what is written to, what is dereferenced, or what is dereferenced and not only addressed.
#[derive(Clone, Copy, PartialEq, Eq, Debug)]
enum Attribute {
    Write,
    Deref,
    Access,
}

/// Whether an element bounds all that is dereferenced.
fn is_deref(entry: &Entry) -> bool
    ensures { result ≡ rules.is_deref entry.now.deref }
{
    match entry.deref {
        Deref::No => false,
        Deref::Yes => true,
        Deref::Access => false,
    }
}

/// Whether it bounds what is dereferenced and not only addressed.
fn is_deref_or_access(entry: &Entry) -> bool
    ensures { result ≡ rules.is_deref_or_access entry.now.deref }
{
    match entry.deref {
        Deref::No => false,
        Deref::Yes => true,
        Deref::Access => true,
    }
}

fn has(attribute: Attribute, entry: &Entry) -> bool
    ensures { result ≡ has attribute entry.now }
{
    match attribute {
        Attribute::Write => entry.write,
        Attribute::Deref => is_deref(entry),
        Attribute::Access => is_deref_or_access(entry),
    }
}

/// What bounds a place that is dereferenced; `aims`: it is only addressed.
fn attribute_of(aims: bool) -> Attribute
    ensures { has result ≡ λ entry. derefs_where aims entry.deref }
{
    if aims {
        Attribute::Deref
    } else {
        Attribute::Access
    }
}

/// The mask of one lattice.
pub(crate) fn alone(lattice: LatticeNo) -> u16
    requires { lattice < 16 }
    ensures { result ≡ 2 ^ lattice }
{
    1u16 << lattice.number()
}

/// The bound by one element, where it has the attribute.
fn add_bound(
    graph: &mut FlowGraph,
    attribute: Attribute,
    var: VarId,
    span: &Span,
    lattice: LatticeNo,
    elem: Elem,
    entry: &Entry,
) -> Result<(), GraphFault>
    requires var { IsVar var }
    requires lattice { lattice < 16 }
    requires elem { elem < 64 }
    ensures ok { OnOk result (graph.new ≡ with graph.old
        (bound_by (has attribute) var span.now lattice elem entry.now)) }
    ensures err { IfErr result (λ fault. StopsEarly graph.old graph.new fault
        (bound_by (has attribute) var span.now lattice elem entry.now)) }
{
    if has(attribute, entry) {
        add(graph, alone(lattice), span, Link::Bound(var, lattice, elem))
    } else {
        Ok(())
    }
}

/// The bounds by the elements of a lattice from one on. In at most 64 steps.
#[cycle(elements)]
#[tactic(auto, using(crate::proofs::Bounding::entry_added, crate::proofs::Bounding::no_entry_left, crate::proofs::Bounding::stops_at_entry, crate::proofs::Bounding::stops_behind_entry))]
fn add_bounds_of(
    graph: &mut FlowGraph,
    attribute: Attribute,
    var: VarId,
    span: &Span,
    number: LatticeNo,
    lattice: &Lattice,
    n: u8,
) -> Result<(), GraphFault>
    requires var { IsVar var }
    requires number { number < 16 }
    ensures ok { OnOk result (graph.new ≡ with graph.old
        (bounds_of (has attribute) var span.now number n (drop n lattice.now.entries))) }
    ensures err { IfErr result (λ fault. StopsEarly graph.old graph.new fault
        (bounds_of (has attribute) var span.now number n (drop n lattice.now.entries))) }
{
    lattice.law();
    if n >= lattice.size() {
        return Ok(());
    }
    let elem = Elem::new(n);
    add_bound(
        graph,
        attribute,
        var,
        span,
        number,
        elem,
        lattice.entry(elem),
    )?;
    add_bounds_of(graph, attribute, var, span, number, lattice, n + 1)
}

/// The bounds by the elements of the lattices from one on. In at most 1,024 steps.
#[cycle(lattices)]
#[tactic(auto, using(crate::proofs::Bounding::view_added, crate::proofs::Bounding::no_view_left, crate::proofs::Bounding::stops_at_view, crate::proofs::Bounding::stops_behind_view))]
fn add_bounds_from(
    graph: &mut FlowGraph,
    attribute: Attribute,
    var: VarId,
    span: &Span,
    lattices: &Lattices,
    n: u8,
) -> Result<(), GraphFault>
    requires { IsVar var }
    ensures ok { OnOk result (graph.new ≡ with graph.old
        (bounds_from (has attribute) var span.now n (drop n lattices.now))) }
    ensures err { IfErr result (λ fault. StopsEarly graph.old graph.new fault
        (bounds_from (has attribute) var span.now n (drop n lattices.now))) }
{
    if n >= lattices.len() {
        return Ok(());
    }
    let number = LatticeNo::new(n);
    add_bounds_of(graph, attribute, var, span, number, lattices.get(number), 0)?;
    add_bounds_from(graph, attribute, var, span, lattices, n + 1)
}

/// What is written to is bounded by each element that says so. In at most 1,024 steps.
pub fn write_bounds(
    known: &Known,
    graph: &mut FlowGraph,
    var: VarId,
    span: &Span,
) -> Result<(), GraphFault>
    requires { IsVar var }
    ensures ok { OnOk result (Adds known.now graph.old graph.new
        (λ w. rules.write_bounds w var span.now)) }
    ensures err { IfErr result (λ fault. Halts known.now graph.old graph.new fault
        (λ w. rules.write_bounds w var span.now)) }
{
    add_bounds_from(graph, Attribute::Write, var, span, known.lattices, 0)
}

/// What is written to, by its skeleton, is bounded by each element that says so. In at most 1,024 steps.
pub(crate) fn written(
    known: &Known,
    graph: &mut FlowGraph,
    at: SkelId,
    span: &Span,
) -> Result<(), GraphFault>
    ensures ok { OnOk result (Adds known.now graph.old graph.new
        (λ w. rules.write_bounds w (root (skel known.now at)) span.now)) }
    ensures err { IfErr result (λ fault. Halts known.now graph.old graph.new fault
        (λ w. rules.write_bounds w (root (skel known.now at)) span.now)) }
{
    write_bounds(known, graph, known.vars.var(at), span)
}

/// What is dereferenced is bounded by each element that says so; `aims`: its place is only addressed. In at most 1,024 steps.
pub fn deref_bounds(
    known: &Known,
    graph: &mut FlowGraph,
    var: VarId,
    aims: bool,
    span: &Span,
) -> Result<(), GraphFault>
    requires { IsVar var }
    ensures ok { OnOk result (Adds known.now graph.old graph.new
        (λ w. rules.deref_bounds w var aims span.now)) }
    ensures err { IfErr result (λ fault. Halts known.now graph.old graph.new fault
        (λ w. rules.deref_bounds w var aims span.now)) }
{
    let attribute = attribute_of(aims);
    add_bounds_from(graph, attribute, var, span, known.lattices, 0)
}

/// What is dereferenced is bounded, but where it points to a function; `aims`: its place is only addressed. In at most 1,024 steps.
pub fn dereferenced(
    known: &Known,
    graph: &mut FlowGraph,
    at: SkelId,
    aims: bool,
    span: &Span,
) -> Result<(), GraphFault>
    ensures ok { OnOk result (Adds known.now graph.old graph.new
        (λ w. rows.dereferenced w (skel known.now at) aims span.now)) }
    ensures err { IfErr result (λ fault. Halts known.now graph.old graph.new fault
        (λ w. rows.dereferenced w (skel known.now at) aims span.now)) }
{
    if is_fun(known.vars, contents(known.vars, at)) {
        return Ok(());
    }
    deref_bounds(known, graph, known.vars.var(at), aims, span)
}
