//! What leads to each variable, by turns that take one variable each.

ghost use Rattle.std.specs.Prelude.{◌≡◌, ◌<◌, ◌≤◌, ◌^◌, ◌↔◌, ℕ, length};
ghost use Rattle.flow_graph.specs.declared.constraint.Link.TheVariants.{Const, Enter};
ghost use Rattle.flow_graph.specs.declared.phase.Phase.{Phase};
ghost use Rattle.flow_graph.specs.declared.phase.Phase.TheVariants.{First, Second};
ghost use Rattle.flow_graph.specs.Index.{IsKeyed, link_site};
ghost use Rattle.flow_graph.specs.PathRules.{link_begins};
ghost use Rattle.flow_graph.specs.System.{System, AllBelow, Stands};
ghost use Rattle.match_summary.specs.Summary.{HasPair};
ghost use Rattle.lattice_solver.specs.Phases.{AllLeadIn, AllLeadTo, HasIn, Includes, LeadsIn};
ghost use Rattle.lattice_solver.specs.Phases.{set_of, size_of};
ghost use Rattle.lattice_solver.specs.Stable.{AreBegun, AreOfSystem, IsCarried, IsOver, IsPassed};
ghost use Rattle.lattice_solver.specs.Stable.{IsPassedFrom, StaySound};
ghost use Rattle.lattice_solver.specs.Waiting.{AreNone};
ghost use Rattle.lattice_solver.specs.Working.{Gains, had_of};

use crate::passed::Passed;
use crate::work::{Taken, Work};
use flow_graph::{Adjacency, Crossing, FlowGraph, Link, Phase};
use match_summary::{Crossings, InnerEnd, Summaries, Way, joins};
use qual_base::{EdgeId, Elem, LatticeNo, Numbered, VarId};

/// A graph with its index, its calls and returns by their inner ends, and the summaries of a lattice.
#[derive(Clone, Copy)]
pub struct Flows<'a> {
    pub graph: &'a FlowGraph,
    pub index: &'a Adjacency,
    pub crossings: &'a Crossings,
    pub summaries: &'a Summaries,
    pub lattice: LatticeNo,
}

/// Finds all constants that lead to each variable in each phase, from empty sets and nobody that waits.
///
/// A variable is taken once for the constants at it, and once more each time that a set of it has grown since: at most once
/// for each element and phase that it gains. To take it costs a step for each constraint that begins at it. The groups of a
/// site that begin at one variable are gone round at most once for each element and phase that comes to any of their
/// `Enter`s, with a step for each pair from that variable, and the `Leave`s of the site from one variable at most once for
/// each element and phase that comes to them. To begin costs a step for each constraint. Takes no memory.
pub fn saturate(work: &mut Work, passed: &mut Passed, flows: &Flows)
    requires ready { AreOfSystem flows.now (size_of work.old.sets) }
    requires room { length flows.now.graph.now.constraints ≤ size_of passed.old }
    requires none { (p : Phase) (n : ℕ) → set_of passed.old p n ≡ 0 }
    requires empty { (p : Phase) (v : ℕ) → set_of work.old.sets p v ≡ 0 }
    ensures exact { (p : Phase) (v e : ℕ) →
        HasIn work.new.sets p v e ↔ LeadsIn flows.now.graph.now flows.now.lattice p e v }
    ensures size { size_of work.new.sets ≡ size_of work.old.sets }
    ensures same { size_of passed.new ≡ size_of passed.old }
{
    begin_all(work, flows);
    while let Some(taken) = work.take(flows.graph) {
        pass_on(work, passed, flows, &taken);
    }
}

/// Adds the element of each constant to the first set of its variable.
fn begin_all(work: &mut Work, flows: &Flows)
    requires lattice { flows.now.lattice < 16 }
    requires below { AllBelow flows.now.graph.now (size_of work.old.sets) }
    ensures gains { Gains work.old work.new }
    ensures sound { AllLeadIn flows.now.graph.now flows.now.lattice work.old.sets →
        AllLeadIn flows.now.graph.now flows.now.lattice work.new.sets }
    ensures begun { AreBegun flows.now.graph.now flows.now.lattice work.new.sets }
{
    for n in 0..flows.graph.len() {
        begin(work, flows, EdgeId::new(n));
    }
}

/// Adds the element of a constraint, where that is a constant of the lattice.
fn begin(work: &mut Work, flows: &Flows, edge: EdgeId)
    requires edge { edge < length flows.now.graph.now.constraints }
    requires below { AllBelow flows.now.graph.now (size_of work.old.sets) }
    ensures gains { Gains work.old work.new }
    ensures sound { AllLeadIn flows.now.graph.now flows.now.lattice work.old.sets →
        AllLeadIn flows.now.graph.now flows.now.lattice work.new.sets }
    ensures begun { (e v : ℕ) → Stands flows.now.graph.now flows.now.lattice edge
        (Const flows.now.lattice e v) → HasIn work.new.sets First v e }
{
    let link = flows.graph.constraint(edge).link;
    match link {
        Link::Const(named, elem, at) => {
            if named == flows.lattice {
                work.gain(Phase::First, at, only(elem));
            }
        }
        _ => {}
    }
}

/// The set of one element.
fn only(elem: Elem) -> u64
    requires { elem < 64 }
    ensures { result ≡ 2 ^ elem }
{
    1u64 << elem.number()
}

/// Carries what a variable had on along each constraint that begins at it.
fn pass_on(work: &mut Work, passed: &mut Passed, flows: &Flows, taken: &Taken)
    requires ready { AreOfSystem flows.now (size_of work.old.sets) }
    requires over { IsOver
        flows.now.graph.now flows.now.lattice flows.now.summaries.now passed.old work.old.sets }
    ensures gains { Gains work.old work.new }
    ensures sound { StaySound flows.now taken.now work.old.sets work.new.sets }
    ensures carried { (n : ℕ) → IsCarried flows.now.graph.now
        flows.now.lattice flows.now.summaries.now (had_of taken.now) work.new.sets taken.now.at n }
    ensures over { IsOver
        flows.now.graph.now flows.now.lattice flows.now.summaries.now passed.new work.new.sets }
    ensures same { size_of passed.new ≡ size_of passed.old }
{
    for edge in flows.index.out(taken.at) {
        follow(work, passed, flows, taken, *edge);
    }
}

/// Carries what a variable had on along a constraint that begins at it, and round the groups that it begins.
fn follow(work: &mut Work, passed: &mut Passed, flows: &Flows, taken: &Taken, edge: EdgeId)
    requires ready { AreOfSystem flows.now (size_of work.old.sets) }
    requires over { IsOver
        flows.now.graph.now flows.now.lattice flows.now.summaries.now passed.old work.old.sets }
    requires begins { IsKeyed flows.now.graph.now link_begins taken.now.at edge }
    ensures gains { Gains work.old work.new }
    ensures sound { StaySound flows.now taken.now work.old.sets work.new.sets }
    ensures carried { IsCarried flows.now.graph.now flows.now.lattice flows.now.summaries.now
        (had_of taken.now) work.new.sets taken.now.at edge }
    ensures over { IsOver
        flows.now.graph.now flows.now.lattice flows.now.summaries.now passed.new work.new.sets }
    ensures same { size_of passed.new ≡ size_of passed.old }
{
    let constraint = flows.graph.constraint(edge);
    if !constraint.is_in(flows.lattice) {
        return;
    }
    let link = constraint.link;
    match link {
        Link::Le(_, to) => give_both(work, taken, to),
        Link::Enter(site, from, to) => {
            let call = Crossing { site, from, to };
            give_called(work, taken, to);
            pass_groups(work, passed, flows, taken, &call);
        }
        Link::Leave(_, _, to) => work.gain(Phase::First, to, taken.first),
        _ => {}
    }
}

/// Adds what a variable had in each phase to the same phase of another.
fn give_both(work: &mut Work, taken: &Taken, to: VarId)
    requires { to < size_of work.old.sets }
    ensures gains { Gains work.old work.new }
    ensures sound { (sys : System) (lattice : ℕ) →
        ((p : Phase) → AllLeadTo sys lattice (had_of taken.now p) p to) →
        AllLeadIn sys lattice work.old.sets → AllLeadIn sys lattice work.new.sets }
    ensures has { (p : Phase) → Includes (had_of taken.now p) work.new.sets p to }
{
    work.gain(Phase::First, to, taken.first);
    work.gain(Phase::Second, to, taken.second);
}

/// Adds what a variable had in either phase to the second phase of another.
fn give_called(work: &mut Work, taken: &Taken, to: VarId)
    requires { to < size_of work.old.sets }
    ensures gains { Gains work.old work.new }
    ensures sound { (sys : System) (lattice : ℕ) →
        ((p : Phase) → AllLeadTo sys lattice (had_of taken.now p) Second to) →
        AllLeadIn sys lattice work.old.sets → AllLeadIn sys lattice work.new.sets }
    ensures has { (p : Phase) → Includes (had_of taken.now p) work.new.sets Second to }
{
    work.gain(Phase::Second, to, taken.first | taken.second);
}

/// Carries what a variable had round the groups of an `Enter` that begins at it, where it was not carried round the groups
/// of an `Enter` of the same site to the same variable.
fn pass_groups(work: &mut Work, passed: &mut Passed, flows: &Flows, taken: &Taken, call: &Crossing)
    requires ready { AreOfSystem flows.now (size_of work.old.sets) }
    requires over { IsOver
        flows.now.graph.now flows.now.lattice flows.now.summaries.now passed.old work.old.sets }
    requires call { (n : ℕ) × Stands flows.now.graph.now flows.now.lattice n
        (Enter call.now.site taken.now.at call.now.to) }
    ensures gains { Gains work.old work.new }
    ensures sound { StaySound flows.now taken.now work.old.sets work.new.sets }
    ensures passed { (m : ℕ) → IsPassed flows.now.graph.now flows.now.lattice
        flows.now.summaries.now (had_of taken.now) work.new.sets call.now.site call.now.to m }
    ensures over { IsOver
        flows.now.graph.now flows.now.lattice flows.now.summaries.now passed.new work.new.sets }
    ensures same { size_of passed.new ≡ size_of passed.old }
{
    let end = InnerEnd {
        way: Way::In,
        site: call.site,
        at: call.to,
    };
    let Some(entry) = flows.crossings.newest(flows.graph, &end) else {
        return;
    };
    if passed.covers(entry, taken) {
        return;
    }
    pass_leaves(work, passed, flows, taken, call, call.to);
    pass_pairs(work, passed, flows, taken, call);
    passed.add(entry, taken);
}

/// Carries what a variable had round the groups of an `Enter` in which a pair leads to the `Leave`, the newest pair first.
fn pass_pairs(work: &mut Work, passed: &mut Passed, flows: &Flows, taken: &Taken, call: &Crossing)
    requires ready { AreOfSystem flows.now (size_of work.old.sets) }
    requires over { IsOver
        flows.now.graph.now flows.now.lattice flows.now.summaries.now passed.old work.old.sets }
    requires call { (n : ℕ) × Stands flows.now.graph.now flows.now.lattice n
        (Enter call.now.site taken.now.at call.now.to) }
    ensures gains { Gains work.old work.new }
    ensures sound { StaySound flows.now taken.now work.old.sets work.new.sets }
    ensures passed { (b m : ℕ) → HasPair flows.now.summaries.now call.now.to b →
        IsPassedFrom flows.now.graph.now flows.now.lattice flows.now.summaries.now
        (had_of taken.now) work.new.sets call.now.site call.now.to b m }
    ensures over { IsOver
        flows.now.graph.now flows.now.lattice flows.now.summaries.now passed.new work.new.sets }
    ensures same { size_of passed.new ≡ size_of passed.old }
{
    let mut next = flows.summaries.newest_from(call.to);
    while let Some(at) = next {
        let pair = flows.summaries.row(at);
        pass_leaves(work, passed, flows, taken, call, pair.to);
        next = flows.summaries.before_from(at);
    }
}

/// Carries what a variable had round the groups of an `Enter` whose `Leave` begins at a variable, where nothing or a summary
/// leads to it inside one function and it was not carried over these `Leave`s.
fn pass_leaves(
    work: &mut Work,
    passed: &mut Passed,
    flows: &Flows,
    taken: &Taken,
    call: &Crossing,
    last: VarId,
)
    requires ready { AreOfSystem flows.now (size_of work.old.sets) }
    requires over { IsOver
        flows.now.graph.now flows.now.lattice flows.now.summaries.now passed.old work.old.sets }
    requires call { (n : ℕ) × Stands flows.now.graph.now flows.now.lattice n
        (Enter call.now.site taken.now.at call.now.to) }
    ensures gains { Gains work.old work.new }
    ensures sound { StaySound flows.now taken.now work.old.sets work.new.sets }
    ensures passed { (m : ℕ) → IsPassedFrom flows.now.graph.now flows.now.lattice
        flows.now.summaries.now (had_of taken.now) work.new.sets call.now.site call.now.to last m }
    ensures over { IsOver
        flows.now.graph.now flows.now.lattice flows.now.summaries.now passed.new work.new.sets }
    ensures same { size_of passed.new ≡ size_of passed.old }
{
    if !joins(flows.graph, flows.summaries, call.to, last) {
        return;
    }
    let end = InnerEnd {
        way: Way::Out,
        site: call.site,
        at: last,
    };
    let Some(exit) = flows.crossings.newest(flows.graph, &end) else {
        return;
    };
    if passed.covers(exit, taken) {
        return;
    }
    pass_all(work, flows, taken, call, last);
    passed.add(exit, taken);
}

/// Carries what a variable had round the groups of an `Enter` whose `Leave` begins at a variable, the last `Leave` first.
fn pass_all(work: &mut Work, flows: &Flows, taken: &Taken, call: &Crossing, last: VarId)
    requires ready { AreOfSystem flows.now (size_of work.old.sets) }
    requires call { (n : ℕ) × Stands flows.now.graph.now flows.now.lattice n
        (Enter call.now.site taken.now.at call.now.to) }
    ensures gains { Gains work.old work.new }
    ensures sound { StaySound flows.now taken.now work.old.sets work.new.sets }
    ensures passed { (m : ℕ) → IsPassedFrom flows.now.graph.now flows.now.lattice
        flows.now.summaries.now (had_of taken.now) work.new.sets call.now.site call.now.to last m }
{
    let end = InnerEnd {
        way: Way::Out,
        site: call.site,
        at: last,
    };
    let mut next = flows.crossings.newest(flows.graph, &end);
    while let Some(leave) = next {
        pass_group(work, flows, taken, call, leave);
        next = flows.crossings.before(flows.graph, &end, leave);
    }
}

/// Carries what a variable had round the group of an `Enter` and a constraint of its site, where that is a `Leave` of the
/// lattice to which nothing or a summary leads inside one function.
fn pass_group(work: &mut Work, flows: &Flows, taken: &Taken, call: &Crossing, leave: EdgeId)
    requires ready { AreOfSystem flows.now (size_of work.old.sets) }
    requires call { (n : ℕ) × Stands flows.now.graph.now flows.now.lattice n
        (Enter call.now.site taken.now.at call.now.to) }
    requires site { IsKeyed flows.now.graph.now link_site call.now.site leave }
    ensures gains { Gains work.old work.new }
    ensures sound { StaySound flows.now taken.now work.old.sets work.new.sets }
    ensures passed { IsPassed flows.now.graph.now flows.now.lattice flows.now.summaries.now
        (had_of taken.now) work.new.sets call.now.site call.now.to leave }
{
    let back = flows.graph.constraint(leave);
    if !back.is_in(flows.lattice) {
        return;
    }
    let link = back.link;
    match link {
        Link::Leave(_, last, to) => {
            if joins(flows.graph, flows.summaries, call.to, last) {
                give_both(work, taken, to);
            }
        }
        _ => {}
    }
}
