//! The constants and the bounds of lattices, and those that may have to do with a variable.

ghost use Rattle.std.specs.Prelude.{◌≡◌, ◌<◌, ◌+◌, ◌↔◌, ℕ, false, IfNone, IfOk, IfSome, IsTrue};
ghost use Rattle.std.specs.Prelude.{MatchOption, OnOk, Some, length, slice_get};
ghost use Rattle.std.specs.Int.{bit_at};
ghost use Rattle.std.specs.List.Sorted.{IsPermutation};
ghost use Rattle.flow_graph.specs.Leading.{Leads};
ghost use Rattle.flow_graph.specs.declared.constraint.Link.TheVariants.{Const};
ghost use Rattle.flow_query.specs.Answers.{IsFrom, IsTo};
ghost use Rattle.flow_query.specs.Ends.{AllEnds, AreEnds, AreStartsBelow, IsBound, IsConstant};
ghost use Rattle.flow_query.specs.Ends.{IsThere, Lists};
ghost use Rattle.flow_query.specs.Searches.{IsBoundAt, IsConstantAt};
ghost use Rattle.flow_query.specs.Searches.{IsNoConstant, IsSection};

use crate::searches::Section;
use flow_graph::{FlowGraph, Link};
use lattice_core::Lattices;
use qual_base::{EdgeId, Elem, ElemSet, LatticeNo, NoMemory, Numbered, VarId};
use std::alloc::Global;
use walk_laws::leads_are_walks;

/// The numbers of the constants of a lattice and of its bounds, ascending; and its constants by their variables, so that those of
/// one variable follow one another.
#[derive(Drop)]
pub struct Ends {
    pub constants: Vec<EdgeId>,
    pub bounds: Vec<EdgeId>,
    pub starts: Vec<Constant>,
}

/// Whether a set has an element.
fn has_element(set: ElemSet, elem: Elem) -> bool
    requires { elem < 64 }
    ensures { IsTrue result ↔ (bit_at set elem ≡ 1) }
{
    (set.number() >> elem.number()) & 1 == 1
}

/// A constant: its variable and its element.
#[derive(Clone, Copy)]
pub struct Constant {
    pub at: VarId,
    pub elem: Elem,
}

/// The constant that a link is in a lattice.
fn constant_in(link: Link, lattice: LatticeNo) -> Option<Constant>
    ensures { MatchOption result (IsNoConstant link lattice)
        (λ constant. link ≡ Const lattice constant.elem constant.at) }
{
    match link {
        Link::Const(named, elem, at) => {
            if named == lattice {
                Some(Constant { at, elem })
            } else {
                None
            }
        }
        _ => None,
    }
}

/// Lists a constraint, where it is a constant of a lattice.
fn list_constant(
    constants: &mut Vec<EdgeId>,
    starts: &mut Vec<Constant>,
    graph: &FlowGraph,
    lattice: LatticeNo,
    number: EdgeId,
) -> Result<(), NoMemory>
    requires { number < length graph.now.constraints }
    ensures constants { OnOk result
        (Lists (IsConstant graph.now lattice) number constants.old.items constants.new.items) }
    ensures starts { OnOk result (AreStartsBelow graph.now lattice number starts.old.items →
        AreStartsBelow graph.now lattice (number + 1) starts.new.items) }
{
    match constant_in(graph.constraint(number).link, lattice) {
        None => Ok(()),
        Some(constant) => {
            constants.push(number)?;
            starts.push(constant)?;
            Ok(())
        }
    }
}

/// Lists a constraint, where it is a bound of a lattice.
fn list_bound(
    bounds: &mut Vec<EdgeId>,
    graph: &FlowGraph,
    lattice: LatticeNo,
    number: EdgeId,
) -> Result<(), NoMemory>
    requires { number < length graph.now.constraints }
    ensures { OnOk result
        (Lists (IsBound graph.now lattice) number bounds.old.items bounds.new.items) }
{
    match graph.constraint(number).bound_in(lattice) {
        None => Ok(()),
        Some(_) => {
            bounds.push(number)?;
            Ok(())
        }
    }
}

/// Orders constants by their variables.
fn order(starts: &mut Vec<Constant>) -> Result<(), NoMemory>
    ensures { OnOk result (IsPermutation starts.old.items starts.new.items) }
{
    starts.sort_by_key(|start| start.at.number())?;
    Ok(())
}

/// The constants and the bounds of a lattice. Linear in the constraints, but for the order of the constants by their variables, which takes
/// a factor of a logarithm, and 12 bytes for each constant and 4 for each bound.
fn ends_of(alloc: Global, graph: &FlowGraph, lattice: LatticeNo) -> Result<Ends, NoMemory>
    ensures { IfOk result (AreEnds graph.now lattice) }
{
    let mut constants = Vec::new(alloc);
    let mut bounds = Vec::new(alloc);
    let mut starts = Vec::new(alloc);
    for n in 0..graph.len() {
        let number = EdgeId::new(n);
        list_constant(&mut constants, &mut starts, graph, lattice, number)?;
        list_bound(&mut bounds, graph, lattice, number)?;
    }
    order(&mut starts)?;
    Ok(Ends {
        constants,
        bounds,
        starts,
    })
}

/// The constants and the bounds of each lattice, in order. Goes once for each lattice over the constraints.
pub fn all_ends(
    alloc: Global,
    graph: &FlowGraph,
    lattices: &Lattices,
) -> Result<Vec<Ends>, NoMemory>
    ensures { IfOk result (λ ends. AllEnds graph.now (length lattices.now) ends.items) }
{
    let mut ends = Vec::new(alloc);
    for n in 0..lattices.len() {
        ends.push(ends_of(alloc, graph, LatticeNo::new(n))?)?;
    }
    Ok(ends)
}

/// The constants and the bounds of a lattice.
pub fn ends_in(ends: &[Ends], lattice: LatticeNo) -> &Ends
    requires { lattice < length ends.now }
    ensures { slice_get ends.now lattice ≡ Some result.now }
{
    &ends[usize::from(lattice.number())]
}

/// Whether no element of the lattice reaches the variable that is asked of, so no constant leads there. Constant time.
pub fn is_unreached(section: &Section<'_>) -> bool
    requires { IsSection section.now }
    ensures { IsTrue result → (number : ℕ) →
        IsFrom section.now.graph.now section.now.lattice section.now.var number → ⊥ }
{
    leads_are_walks();
    section.solved.solver.reached(section.var).number() == 0
}

/// Whether the element of a constant leads to the variable that is asked of: where it does not, nor does its variable. Constant time.
pub fn is_candidate(section: &Section<'_>, at: VarId, elem: Elem) -> bool
    requires section { IsSection section.now }
    requires constant { IsThere section.now.graph.now section.now.lattice elem at }
    ensures { result ≡ false →
        Leads section.now.graph.now section.now.lattice at section.now.var → ⊥ }
{
    leads_are_walks();
    has_element(section.solved.solver.reached(section.var), elem)
}

/// The variable of a constraint that is a constant of the lattice, whose element leads to the variable that is asked of: no
/// other leads there. Constant time.
pub fn constant_at(section: &Section<'_>, number: EdgeId) -> Option<VarId>
    requires section { IsSection section.now }
    requires number { number < length section.now.graph.now.constraints }
    ensures found { IfSome result
        (IsConstantAt section.now.graph.now section.now.lattice number) }
    ensures none { IfNone result
        (IsFrom section.now.graph.now section.now.lattice section.now.var number → ⊥) }
{
    leads_are_walks();
    let constant = constant_in(section.graph.constraint(number).link, section.lattice)?;
    if !has_element(section.solved.solver.reached(section.var), constant.elem) {
        return None;
    }
    Some(constant.at)
}

/// The variable of a constraint that is a bound of the lattice. Constant time.
pub fn bound_at(section: &Section<'_>, number: EdgeId) -> Option<VarId>
    requires section { IsSection section.now }
    requires number { number < length section.now.graph.now.constraints }
    ensures found { IfSome result (IsBoundAt section.now.graph.now section.now.lattice number) }
    ensures none { IfNone result
        (IsTo section.now.graph.now section.now.lattice section.now.var number → ⊥) }
{
    let bound = section.graph.constraint(number).bound_in(section.lattice)?;
    Some(bound.at)
}
