//! The rules of path proofs, each a test of where a step stands.

ghost use Rattle.std.specs.Prelude.{◌≡◌, ◌==◌};
ghost use Rattle.flow_graph.specs.PathRules.{begins, ends, enters, leaves, is_const, is_bound};
ghost use Rattle.flow_graph.specs.PathRules.{is_sub, agree, differ, site_entered, end_of};
ghost use Rattle.flow_graph.specs.PathRules.{begins_group, is_after_sub, closes};
ghost use Rattle.flow_graph.specs.PathRules.{is_unmatched_enter, is_unmatched_leave, is_unknown};
ghost use Rattle.flow_graph.specs.PathRules.{is_headless, is_late_const, is_stray_bound};
ghost use Rattle.flow_graph.specs.PathRules.{is_late_return, is_unmatched_in_sub, is_loose_sub};
ghost use Rattle.flow_graph.specs.PathRules.{follows_bound, fails_b1, fails_b2, fails_b3};
ghost use Rattle.flow_graph.specs.PathRules.{is_missing, is_foreign, is_outside};

use flow_graph::{Constraint, FlowGraph, Link, Path, Seen, StepInPath};
use qual_base::{LatticeNo, Owner, SiteId, VarId};

/// The variable where a step begins. A constant begins nowhere.
pub fn begins(step: &Seen) -> Option<VarId>
    ensures { result ≡ begins step.now }
{
    match step {
        Seen::Edge(c) => c.link.begin(),
        Seen::Through(u, _) => Some(*u),
        Seen::NoSub => None,
        Seen::NoEdge => None,
    }
}

/// The variable where a step ends. A bound ends where it begins.
pub fn ends(step: &Seen) -> Option<VarId>
    ensures { result ≡ ends step.now }
{
    match step {
        Seen::Edge(c) => Some(c.link.end()),
        Seen::Through(_, v) => Some(*v),
        Seen::NoSub => None,
        Seen::NoEdge => None,
    }
}

/// The call site that a step enters.
fn enters(step: &Seen) -> Option<SiteId>
    ensures { result ≡ enters step.now }
{
    let Seen::Edge(constraint) = step else {
        return None;
    };
    match constraint.link.as_enter() {
        Some(call) => Some(call.site),
        None => None,
    }
}

/// The call site that a step leaves.
fn leaves(step: &Seen) -> Option<SiteId>
    ensures { result ≡ leaves step.now }
{
    let Seen::Edge(constraint) = step else {
        return None;
    };
    match constraint.link.as_leave() {
        Some(back) => Some(back.site),
        None => None,
    }
}

fn is_sub(step: &Seen) -> bool
    ensures { result ≡ is_sub step.now }
{
    matches!(step, Seen::Through(_, _) | Seen::NoSub)
}

fn is_const(step: &Seen) -> bool
    ensures { result ≡ is_const step.now }
{
    matches!(
        step,
        Seen::Edge(Constraint {
            link: Link::Const(_, _, _),
            ..
        })
    )
}

pub fn is_bound(step: &Seen) -> bool
    ensures { result ≡ is_bound step.now }
{
    matches!(
        step,
        Seen::Edge(Constraint {
            link: Link::Bound(_, _, _),
            ..
        })
    )
}

fn is_unknown(step: &Seen) -> bool
    ensures { result ≡ is_unknown step.now }
{
    matches!(step, Seen::NoEdge)
}

pub fn is_missing(step: &Seen) -> bool
    ensures { result ≡ is_missing step.now }
{
    matches!(step, Seen::NoSub)
}

/// Whether both are there and are one site.
fn agree(a: Option<SiteId>, b: Option<SiteId>) -> bool
    ensures { result ≡ agree a b }
{
    match (a, b) {
        (Some(a), Some(b)) => a == b,
        _ => false,
    }
}

/// Whether both are there and are two variables.
fn differ(a: Option<VarId>, b: Option<VarId>) -> bool
    ensures { result ≡ differ a b }
{
    match (a, b) {
        (Some(a), Some(b)) => a != b,
        _ => false,
    }
}

fn site_entered(step: &Option<Seen>) -> Option<SiteId>
    ensures { result ≡ site_entered step.now }
{
    match step {
        Some(s) => enters(s),
        None => None,
    }
}

fn end_of(step: &Option<Seen>) -> Option<VarId>
    ensures { result ≡ end_of step.now }
{
    match step {
        Some(s) => ends(s),
        None => None,
    }
}

fn is_main(path: &Path) -> bool
    ensures { result ≡ Rattle.flow_graph.specs.PathRules.is_main path.now }
{
    matches!(path, Path::Main)
}

/// An `Enter` begins a group exactly where the next step is a sub-path or a `Leave` of its site.
#[tactic(auto, unfolding(flow_graph::specs::PathRules::begins_group))]
fn begins_group(step: &Seen, after: &Option<Seen>) -> bool
    ensures { result ≡ begins_group step.now after.now }
{
    match after {
        Some(next) => is_sub(next) || agree(enters(step), leaves(next)),
        None => false,
    }
}

#[tactic(auto, unfolding(flow_graph::specs::PathRules::is_after_sub))]
fn is_after_sub(p: &StepInPath) -> bool
    ensures { result ≡ is_after_sub p.now }
{
    match &p.one_before {
        Some(one) => is_sub(one) && site_entered(&p.two_before).is_some(),
        None => false,
    }
}

#[tactic(auto, unfolding(flow_graph::specs::PathRules::closes))]
fn closes(p: &StepInPath) -> bool
    ensures { result ≡ closes p.now }
{
    agree(site_entered(&p.one_before), leaves(&p.step))
}

#[tactic(auto, unfolding(flow_graph::specs::PathRules::is_unmatched_enter))]
pub fn is_unmatched_enter(p: &StepInPath) -> bool
    ensures { result ≡ is_unmatched_enter p.now }
{
    enters(&p.step).is_some() && !begins_group(&p.step, &p.one_after) && !is_after_sub(p)
}

#[tactic(auto, unfolding(flow_graph::specs::PathRules::is_unmatched_leave))]
fn is_unmatched_leave(p: &StepInPath) -> bool
    ensures { result ≡ is_unmatched_leave p.now }
{
    leaves(&p.step).is_some() && !closes(p) && !is_after_sub(p)
}

#[tactic(auto, unfolding(flow_graph::specs::PathRules::is_headless))]
fn is_headless(p: &StepInPath) -> bool
    ensures { result ≡ is_headless p.now }
{
    is_main(&p.path) && !p.one_before.is_some() && !is_const(&p.step)
}

#[tactic(auto, unfolding(flow_graph::specs::PathRules::is_late_const))]
fn is_late_const(p: &StepInPath) -> bool
    ensures { result ≡ is_late_const p.now }
{
    is_const(&p.step) && !(is_main(&p.path) && !p.one_before.is_some())
}

#[tactic(auto, unfolding(flow_graph::specs::PathRules::is_stray_bound))]
fn is_stray_bound(p: &StepInPath) -> bool
    ensures { result ≡ is_stray_bound p.now }
{
    is_bound(&p.step) && !is_main(&p.path)
}

#[tactic(auto, unfolding(flow_graph::specs::PathRules::is_late_return))]
fn is_late_return(p: &StepInPath) -> bool
    ensures { result ≡ is_late_return p.now }
{
    is_main(&p.path) && is_unmatched_leave(p) && p.in_call
}

#[tactic(auto, unfolding(flow_graph::specs::PathRules::is_unmatched_in_sub))]
fn is_unmatched_in_sub(p: &StepInPath) -> bool
    ensures { result ≡ is_unmatched_in_sub p.now }
{
    !is_main(&p.path) && (is_unmatched_enter(p) || is_unmatched_leave(p))
}

#[tactic(auto, unfolding(flow_graph::specs::PathRules::is_loose_sub))]
fn is_loose_sub(p: &StepInPath) -> bool
    ensures { result ≡ is_loose_sub p.now }
{
    is_sub(&p.step) && !site_entered(&p.one_before).is_some() && !is_after_sub(p)
}

#[tactic(auto, unfolding(flow_graph::specs::PathRules::follows_bound))]
fn follows_bound(p: &StepInPath) -> bool
    ensures { result ≡ follows_bound p.now }
{
    match &p.one_before {
        Some(one) => is_bound(one),
        None => false,
    }
}

/// Rule B1: the step is none that may stand there.
#[tactic(auto, unfolding(flow_graph::specs::PathRules::fails_b1))]
pub fn fails_b1(p: &StepInPath) -> bool
    ensures { result ≡ fails_b1 p.now }
{
    is_unknown(&p.step)
        || is_headless(p)
        || is_late_const(p)
        || is_stray_bound(p)
        || is_late_return(p)
        || is_unmatched_in_sub(p)
        || is_loose_sub(p)
        || follows_bound(p)
}

/// Rule B2: the step does not begin at the variable where the one before ended.
#[tactic(auto, unfolding(flow_graph::specs::PathRules::fails_b2))]
pub fn fails_b2(p: &StepInPath) -> bool
    ensures { result ≡ fails_b2 p.now }
{
    differ(end_of(&p.one_before), begins(&p.step))
}

/// Rule B3: the step after a group's sub-path does not leave the group's site, or there is none.
#[tactic(auto, unfolding(flow_graph::specs::PathRules::fails_b3))]
pub fn fails_b3(p: &StepInPath) -> bool
    ensures { result ≡ fails_b3 p.now }
{
    is_after_sub(p) && !agree(site_entered(&p.two_before), leaves(&p.step))
        || is_sub(&p.step) && !p.one_after.is_some()
}

/// Whether a sub-path's owner is no function or does not own a variable.
fn lacks(graph: &FlowGraph, path: &Path, at: VarId) -> bool
    ensures { result ≡ Rattle.flow_graph.specs.PathRules.lacks graph.now path.now at }
{
    match path {
        Path::Main => false,
        Path::Sub(home) => match (home, graph.owner(at)) {
            (Owner::Function(f), Owner::Function(g)) => *f != g,
            _ => true,
        },
    }
}

/// Rule B5: a variable of a sub-path's own parts does not have its one owner, which is a function.
pub fn is_foreign(graph: &FlowGraph, path: &Path, step: &Seen) -> bool
    ensures { result ≡ is_foreign graph.now path.now step.now }
{
    match step {
        Seen::Edge(c) => match &c.link {
            Link::Le(u, v) => lacks(graph, path, *u) || lacks(graph, path, *v),
            Link::Enter(_, u, _) => lacks(graph, path, *u),
            Link::Leave(_, _, v) => lacks(graph, path, *v),
            Link::Const(_, _, _) => false,
            Link::Bound(_, _, _) => false,
        },
        Seen::Through(_, _) => false,
        Seen::NoSub => false,
        Seen::NoEdge => false,
    }
}

/// Rule B6: the step is not in the lattice of the main path's constant.
pub fn is_outside(lattice: LatticeNo, step: &Seen) -> bool
    ensures { result ≡ is_outside lattice step.now }
{
    match step {
        Seen::Edge(c) => !c.is_in(lattice),
        Seen::Through(_, _) => false,
        Seen::NoSub => false,
        Seen::NoEdge => false,
    }
}
