//! Whether a path proof or a walk holds, one step at a time.

ghost use Rattle.std.specs.Prelude.{◌≡◌, ◌↔◌, [], ◌∷◌, None, Some, IsOk, IfErr, OnOk, map, slice_get};
ghost use Rattle.std.specs.Prelude.{option_map};
ghost use Rattle.lattice_core.specs.Order.{leq};
ghost use Rattle.flow_graph.specs.declared.step.Seen.TheVariants.{Edge};
ghost use Rattle.flow_graph.specs.System.{IsWellOwned};
ghost use Rattle.flow_graph.specs.Unfolding.{NamesElements, IsAccepted};
ghost use Rattle.flow_graph.specs.PathRules.{begins, ends, is_kept, rule_at};
ghost use Rattle.flow_graph.specs.PathProofs.{edge_or, edge_at, look, line_of, first_of, last_of};
ghost use Rattle.flow_graph.specs.PathProofs.{of_step, through, ends_with_nobody, stays_in_call};
ghost use Rattle.flow_graph.specs.PathProofs.{home_of, start_of};
ghost use Rattle.flow_graph.specs.PathProofs.{end_fault, main_fault, steps_of, fault_of, Holds};
ghost use Rattle.flow_laws.specs.Holding.{steps_in_proof, IsUnmetWithin};
ghost use Rattle.path_checker.specs.Orders.{order_at, AreOrders};
ghost use Rattle.path_checker.specs.Walks.{behind, faults_for, order_for, rule_for, subs_faults_for};
ghost use Rattle.flow_graph.specs.Walks.{WalkHolds, constant_to, walk_end_fault, walk_fault_of};
ghost use Rattle.lattice_core.specs.View.{orders_of};
ghost use Rattle.path_checker.specs.Start.{start_fault};

use crate::rules::{
    begins, ends, fails_b1, fails_b2, fails_b3, is_bound, is_foreign, is_missing, is_outside,
    is_unmatched_enter,
};
use flow_graph::{
    BadStep, Constraint, FlowGraph, Link, Path, PathProof, PathStep, Seen, StepInPath, SubPath,
    Walk, Why,
};
use flow_laws::{holds_is_unmet, holds_rejects};
use lattice_core::Lattices;
use qual_base::{EdgeId, Elem, LatticeNo, Numbered, Owner, Span, TokenId, UnitNo, VarId};

/// Each of the lattices is an order. It does nothing.
fn are_orders(lattices: &Lattices)
    ensures { AreOrders (orders_of lattices.now) }
{
    lattices.law();
}

/// Whether element a is at or below element b of a lattice. False where there is no such lattice or element.
fn is_at_or_below(lattices: &Lattices, lattice: LatticeNo, a: Elem, b: Elem) -> bool
    ensures { result ≡ leq (order_at lattices.now lattice) a b }
{
    if lattice.number() >= lattices.len() {
        return false;
    }
    let order = lattices.get(lattice);
    order.law();
    a.number() < order.size() && b.number() < order.size() && order.leq(a, b)
}

/// Rule B7: the constant's element is at or below the bound's. With no lattices nothing is.
fn is_kept(lattices: Option<&Lattices>, lattice: LatticeNo, elem: Elem, step: &Seen) -> bool
    ensures { result ≡ is_kept (order_for (option_map (λ l. l.now) lattices.entry) lattice) elem step.now }
{
    let Some(lattices) = lattices else {
        return false;
    };
    match step {
        Seen::Edge(
            Constraint {
                link: Link::Bound(_, _, bound),
                ..
            },
        ) => is_at_or_below(lattices, lattice, elem, *bound),
        _ => false,
    }
}

/// The first rule that fails at a step.
#[tactic(auto, unfolding(flow_graph::specs::PathRules::rule_at))]
fn rule_at(graph: &FlowGraph, lattices: Option<&Lattices>, p: &StepInPath) -> Option<Why>
    ensures { result
        ≡ rule_at graph.now (order_for (option_map (λ l. l.now) lattices.entry) p.now.lattice) p.now }
{
    if fails_b1(p) {
        return Some(Why::B1);
    }
    if fails_b2(p) {
        return Some(Why::B2);
    }
    if fails_b3(p) {
        return Some(Why::B3);
    }
    if is_missing(&p.step) {
        return Some(Why::B4);
    }
    if is_foreign(graph, &p.path, &p.step) {
        return Some(Why::B5);
    }
    if is_outside(p.lattice, &p.step) {
        return Some(Why::B6);
    }
    if is_kept(lattices, p.lattice, p.elem, &p.step) {
        return Some(Why::B7);
    }
    None
}

/// The first rule that fails at a step of a path proof over lattices; with none, of a walk, in which no bound may stand.
fn rule_for(graph: &FlowGraph, lattices: Option<&Lattices>, p: &StepInPath) -> Option<Why>
    ensures { result ≡ rule_for graph.now (option_map (λ l. l.now) lattices.entry) p.now }
{
    if lattices.is_none() && is_bound(&p.step) {
        return Some(Why::B1);
    }
    rule_at(graph, lattices, p)
}

/// The constraint of a number.
fn edge(graph: &FlowGraph, at: EdgeId) -> Seen
    ensures { result ≡ edge_or (slice_get graph.now.constraints at) }
{
    if at.number() < graph.len() {
        Seen::Edge(graph.constraint(at))
    } else {
        Seen::NoEdge
    }
}

/// What a step names that is no number of a sub-path.
fn edge_at(graph: &FlowGraph, step: &PathStep) -> Seen
    ensures { result ≡ edge_at graph.now step.now }
{
    match step {
        PathStep::Take { edge: at, line: _ } => edge(graph, *at),
        PathStep::Sub { number: _, line: _ } => Seen::NoSub,
    }
}

fn through(from: Option<VarId>, to: Option<VarId>) -> Seen
    ensures { result ≡ through from to }
{
    match (from, to) {
        (Some(from), Some(to)) => Seen::Through(from, to),
        _ => Seen::NoSub,
    }
}

/// The variable where a sub-path begins: where its first step does.
fn first_variable(graph: &FlowGraph, steps: &[PathStep]) -> Option<VarId>
    ensures { result ≡ of_step graph.now (first_of steps.now) begins }
{
    match steps {
        [first, ..] => begins(&edge_at(graph, first)),
        [] => None,
    }
}

/// The variable where a sub-path ends: where its last step does.
fn last_variable(graph: &FlowGraph, steps: &[PathStep]) -> Option<VarId>
    ensures { result ≡ of_step graph.now (last_of steps.now) ends }
{
    match steps.last() {
        Some(last) => ends(&edge_at(graph, last)),
        None => None,
    }
}

/// What a step names, where these sub-paths are the earlier ones: they count from 1.
fn look(graph: &FlowGraph, earlier: &[SubPath], step: &PathStep) -> Seen
    ensures { result ≡ look graph.now (steps_of earlier.now) step.now }
{
    match step {
        PathStep::Take { edge: at, line: _ } => edge(graph, *at),
        PathStep::Sub { number, line: _ } => {
            if *number == 0 {
                return Seen::NoSub;
            }
            match earlier.get(*number as usize - 1) {
                Some(sub) => through(
                    first_variable(graph, &sub.steps),
                    last_variable(graph, &sub.steps),
                ),
                None => Seen::NoSub,
            }
        }
    }
}

fn first_seen(graph: &FlowGraph, earlier: &[SubPath], steps: &[PathStep]) -> Option<Seen>
    ensures { result ≡ first_of (map (look graph.now (steps_of earlier.now)) steps.now) }
{
    match steps {
        [first, ..] => Some(look(graph, earlier, first)),
        [] => None,
    }
}

fn line_of(step: &PathStep) -> u32
    ensures { result ≡ line_of step.now }
{
    match step {
        PathStep::Take { edge: _, line } => *line,
        PathStep::Sub { number: _, line } => *line,
    }
}

fn ends_with_nobody(graph: &FlowGraph, step: &Seen) -> bool
    ensures { result ≡ ends_with_nobody graph.now (ends step.now) }
{
    match ends(step) {
        Some(v) => matches!(graph.owner(v), Owner::Nobody),
        None => false,
    }
}

/// Whether an unmatched `Enter` is a step or stands before it, with no variable of nobody since.
fn stays_in_call(graph: &FlowGraph, p: &StepInPath) -> bool
    ensures { result ≡ stays_in_call graph.now p.now }
{
    !ends_with_nobody(graph, &p.step) && (is_unmatched_enter(p) || p.in_call)
}

/// The owner of a sub-path is that of its first variable.
fn home_of(graph: &FlowGraph, steps: &[PathStep]) -> Owner
    ensures { result ≡ home_of graph.now steps.now }
{
    match first_variable(graph, steps) {
        Some(v) => graph.owner(v),
        None => Owner::Nobody,
    }
}

/// Whether a main path ends in a bound.
fn end_fault(graph: &FlowGraph, main: &[PathStep], end: u32) -> Option<BadStep>
    ensures { result ≡ end_fault graph.now main.now end }
{
    let ends = match main.last() {
        Some(last) => is_bound(&edge_at(graph, last)),
        None => false,
    };
    if ends {
        None
    } else {
        Some(BadStep {
            line: end,
            why: Why::B1,
        })
    }
}

/// A constant to a variable, as a step: a walk from the variable stands behind it. (Its element and its span play no part.)
fn constant_to(lattice: LatticeNo, from: VarId) -> Seen
    ensures { result ≡ Edge (constant_to lattice from) }
{
    Seen::Edge(Constraint {
        link: Link::Const(lattice, Elem::new(0), from),
        lattices: 0,
        span: Span {
            unit: UnitNo::new(0),
            from: TokenId::new(0),
            to: TokenId::new(0),
        },
    })
}

/// What stands before a path's first step: nothing, or a constant to the first variable of a walk.
fn before(lattice: LatticeNo, from: Option<VarId>) -> Option<Seen>
    ensures { result ≡ first_of (behind lattice from) }
{
    match from {
        Some(from) => Some(constant_to(lattice, from)),
        None => None,
    }
}

/// The first step of a path that fails, of a walk where a variable is given from which it leads. Linear in the path.
fn path_fault(
    graph: &FlowGraph,
    lattices: Option<&Lattices>,
    earlier: &[SubPath],
    path: &Path,
    lattice: LatticeNo,
    elem: Elem,
    from: Option<VarId>,
    steps: &[PathStep],
) -> Option<BadStep>
    ensures { result ≡ faults_for graph.now (option_map (λ l. l.now) lattices.entry) path.now lattice elem
        (look graph.now (steps_of earlier.now)) (behind lattice from) steps.now }
{
    let mut rest = steps;
    let mut two_before = None;
    let mut one_before = before(lattice, from);
    let mut in_call = false;
    'steps: while let Some((first, after)) = rest.split_first() {
        let here = StepInPath {
            path: *path,
            two_before,
            one_before,
            step: look(graph, earlier, first),
            one_after: first_seen(graph, earlier, after),
            in_call,
            lattice,
            elem,
        };
        if let Some(why) = rule_for(graph, lattices, &here) {
            return Some(BadStep {
                line: line_of(first),
                why,
            });
        }
        in_call = stays_in_call(graph, &here);
        two_before = here.one_before;
        one_before = Some(here.step);
        rest = after;
    }
    None
}

/// The first step that fails of the sub-paths, each of which may name the earlier ones alone. Linear in their steps.
fn subs_fault(
    graph: &FlowGraph,
    lattices: Option<&Lattices>,
    subs: &[SubPath],
    lattice: LatticeNo,
    elem: Elem,
) -> Option<BadStep>
    ensures { result ≡ subs_faults_for graph.now
        (option_map (λ l. l.now) lattices.entry) lattice elem [] (steps_of subs.now) }
{
    for (i, sub) in subs.iter().enumerate() {
        let path = Path::Sub(home_of(graph, &sub.steps));
        let fault = path_fault(
            graph,
            lattices,
            &subs[..i],
            &path,
            lattice,
            elem,
            None,
            &sub.steps,
        );
        if fault.is_some() {
            return fault;
        }
    }
    None
}

/// The rule that the first step of a main path fails.
fn start_fault(
    graph: &FlowGraph,
    lattices: &Lattices,
    subs: &[SubPath],
    lattice: LatticeNo,
    elem: Elem,
    first: &PathStep,
    rest: &[PathStep],
) -> Option<BadStep>
    ensures { result ≡ start_fault graph.now
        (order_at lattices.now lattice) lattice elem (steps_of subs.now) first.now rest.now }
{
    let here = StepInPath {
        path: Path::Main,
        two_before: None,
        one_before: None,
        step: look(graph, subs, first),
        one_after: first_seen(graph, subs, rest),
        in_call: false,
        lattice,
        elem,
    };
    match rule_at(graph, Some(lattices), &here) {
        Some(why) => Some(BadStep {
            line: line_of(first),
            why,
        }),
        None => None,
    }
}

/// The lattice and the element of a constant.
fn start_of(step: &Seen) -> (LatticeNo, Elem)
    ensures { result ≡ start_of step.now }
{
    match step {
        Seen::Edge(
            Constraint {
                link: Link::Const(lattice, elem, _),
                ..
            },
        ) => (*lattice, *elem),
        _ => (LatticeNo::new(0), Elem::new(0)),
    }
}

/// The first step that fails of a proof whose main path begins with a step. Each constraint is read in one lattice.
fn main_fault(
    graph: &FlowGraph,
    lattices: &Lattices,
    proof: &PathProof,
    lattice: LatticeNo,
    elem: Elem,
    first: &PathStep,
    rest: &[PathStep],
) -> Option<BadStep>
    requires { proof.now.main.items ≡ first.now ∷ rest.now }
    ensures { result ≡ main_fault graph.now (order_at lattices.now lattice) lattice elem
        (steps_of proof.now.subs.items) first.now rest.now proof.now.end }
{
    if let Some(fault) = start_fault(graph, lattices, &proof.subs, lattice, elem, first, rest) {
        return Some(fault);
    }
    if let Some(fault) = subs_fault(graph, Some(lattices), &proof.subs, lattice, elem) {
        return Some(fault);
    }
    if let Some(fault) = path_fault(
        graph,
        Some(lattices),
        &proof.subs,
        &Path::Main,
        lattice,
        elem,
        None,
        &proof.main,
    ) {
        return Some(fault);
    }
    end_fault(graph, &proof.main, proof.end)
}

/// The first step that fails.
fn first_fault(graph: &FlowGraph, lattices: &Lattices, proof: &PathProof) -> Option<BadStep>
    ensures { result ≡ fault_of graph.now (orders_of lattices.now) proof.now }
{
    match proof.main.split_first() {
        Some((first, rest)) => {
            let (lattice, elem) = start_of(&edge_at(graph, first));
            main_fault(graph, lattices, proof, lattice, elem, first, rest)
        }
        None => Some(BadStep {
            line: proof.end,
            why: Why::B1,
        }),
    }
}

/// Checks a path proof, one step at a time, in time linear in its steps. Takes no memory.
///
/// # Errors
///
/// The line of the first step that fails, and the first of the rules that it fails.
pub fn check(graph: &FlowGraph, lattices: &Lattices, proof: &PathProof) -> Result<(), BadStep>
    ensures holds { IsOk result ↔ Holds graph.now (orders_of lattices.now) proof.now }
    ensures rejects { OnOk result (IsWellOwned graph.now → NamesElements graph.now
        (orders_of lattices.now) → IsAccepted graph.now (orders_of lattices.now) → ⊥) }
    ensures unmet { OnOk result
        (IsWellOwned graph.now → NamesElements graph.now (orders_of lattices.now) →
        IsUnmetWithin graph.now (orders_of lattices.now) (steps_in_proof proof.now)) }
    ensures fails { IfErr result
        (λ bad. fault_of graph.now (orders_of lattices.now) proof.now ≡ Some bad) }
{
    match first_fault(graph, lattices, proof) {
        Some(bad) => Err(bad),
        None => {
            are_orders(lattices);
            holds_rejects();
            holds_is_unmet();
            Ok(())
        }
    }
}

/// Whether a walk from a variable ends where it is to.
fn walk_end_fault(
    graph: &FlowGraph,
    from: VarId,
    to: VarId,
    steps: &[PathStep],
    end: u32,
) -> Option<BadStep>
    ensures { result ≡ walk_end_fault graph.now from to steps.now end }
{
    let last = match steps.last() {
        Some(last) => ends(&edge_at(graph, last)),
        None => Some(from),
    };
    if last == Some(to) {
        None
    } else {
        Some(BadStep {
            line: end,
            why: Why::B2,
        })
    }
}

/// The first step of a walk that fails.
fn walk_fault(
    graph: &FlowGraph,
    lattice: LatticeNo,
    from: VarId,
    to: VarId,
    walk: &Walk,
) -> Option<BadStep>
    ensures { result ≡ walk_fault_of graph.now lattice from to walk.now }
{
    let elem = Elem::new(0);
    if let Some(fault) = subs_fault(graph, None, &walk.subs, lattice, elem) {
        return Some(fault);
    }
    if let Some(fault) = path_fault(
        graph,
        None,
        &walk.subs,
        &Path::Main,
        lattice,
        elem,
        Some(from),
        &walk.steps,
    ) {
        return Some(fault);
    }
    walk_end_fault(graph, from, to, &walk.steps, walk.end)
}

/// Checks a walk from a variable to another in a lattice, one step at a time, in time linear in its steps. Takes no memory.
///
/// # Errors
///
/// The line of the first step that fails, of the sub-paths before the walk's own, and the first of the rules that it fails. An
/// end elsewhere fails B2, at `end`.
pub fn check_walk(
    graph: &FlowGraph,
    lattice: LatticeNo,
    from: VarId,
    to: VarId,
    walk: &Walk,
) -> Result<(), BadStep>
    ensures holds { IsOk result ↔ WalkHolds graph.now lattice from to walk.now }
    ensures fails { IfErr result
        (λ bad. walk_fault_of graph.now lattice from to walk.now ≡ Some bad) }
{
    match walk_fault(graph, lattice, from, to, walk) {
        Some(bad) => Err(bad),
        None => Ok(()),
    }
}
