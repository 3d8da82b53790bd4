//! A breadth-first search over pairs of a variable and a phase, forwards from the constants of an element or from a variable.

ghost use Rattle.std.specs.Prelude.{◌≡◌, ◌≢◌, ℕ, ◌<◌, ◌≤◌, ◌↔◌, List, length, slice_get, Some};
ghost use Rattle.std.specs.Prelude.{false, IsTrue, IfOk, OnOk};
ghost use Rattle.flow_graph.specs.Index.{IsIndexOf, IsKeyed, link_site};
ghost use Rattle.flow_graph.specs.PathRules.{link_begins};
ghost use Rattle.error_path.specs.Marks.{mark_of, size_of};
ghost use Rattle.error_path.specs.declared.search.Origin.{Origin};
ghost use Rattle.error_path.specs.declared.search.Origin.TheVariants.{Element};
ghost use Rattle.flow_graph.specs.declared.constraint.Link.TheVariants.{Const, Enter};
ghost use Rattle.flow_graph.specs.System.{System, AllBelow, Stands, owner_of};
ghost use Rattle.flow_graph.specs.declared.phase.Phase.{Phase};
ghost use Rattle.flow_graph.specs.declared.phase.Phase.TheVariants.{First, Second};
ghost use Rattle.match_summary.specs.declared.reason.Summary.{Summary};
ghost use Rattle.match_summary.specs.Crossings.{AreCrossings};
ghost use Rattle.match_summary.specs.Summary.{HasPair, Summarises};
ghost use Rattle.flow_graph.specs.Parts.{settled};
ghost use Rattle.error_path.specs.Reaching.{AreSound, AreStarted, ComesBy, Grows, HasRoom, IsFollowed};
ghost use Rattle.error_path.specs.Reaching.{IsGood, IsMarked, IsOver, IsRounded};
ghost use Rattle.error_path.specs.Reaching.{IsRoundedFrom, IsVisited, StandsAt, StaysGood};
ghost use Rattle.error_path.specs.Reaches.{HasAll};

use crate::marks::Marks;
use crate::passed::Passed;
use flow_graph::{Adjacency, FlowGraph, Link, Phase};
use match_summary::{Crossings, InnerEnd, Summaries, Way};
use qual_base::{EdgeId, Elem, LatticeNo, NoMemory, Numbered, Owner, SiteId, VarId};
use std::alloc::Global;

/// What a search goes out from: the constants of an element, or a variable.
#[derive(Clone, Copy, PartialEq, Eq, Debug)]
pub enum Origin {
    Element(Elem),
    Variable(VarId),
}

/// How a variable was first reached: by a constant at it, as the variable that the search goes out from, by a constraint
/// from an earlier place of the queue, or by a group from one.
#[derive(Clone, Copy, PartialEq, Eq, Debug)]
pub enum Cause {
    Start(EdgeId),
    Here,
    Step {
        from: usize,
        edge: EdgeId,
    },
    Group {
        from: usize,
        enter: EdgeId,
        leave: EdgeId,
    },
}

/// A variable that was reached in a phase, and how.
#[derive(Clone, Copy, PartialEq, Eq, Debug)]
pub struct Reached {
    pub at: VarId,
    pub phase: Phase,
    pub cause: Cause,
}

/// What was reached in its order, and a mark for each variable and phase that is in it.
#[derive(Drop)]
pub struct Search {
    pub queue: Vec<Reached>,
    pub marks: Marks,
}

/// A place of the queue with its variable and phase.
#[derive(Clone, Copy)]
struct Front {
    place: usize,
    at: VarId,
    phase: Phase,
}

/// An `Enter` from a place of the queue: its number, its site, and the variable that it leads to.
#[derive(Clone, Copy)]
struct Call {
    enter: EdgeId,
    site: SiteId,
    inner: VarId,
}

impl Search {
    /// A search that has reached nothing, with marks that are not set. Takes no memory.
    fn new(alloc: Global, marks: Marks) -> Search
        requires { (p : Phase) (v : ℕ) → mark_of marks p v ≡ false }
        ensures good { (sys : System) (lattice : ℕ) (origin : Origin) (rows : List Summary) →
            AllBelow sys (size_of marks) → IsGood sys lattice origin rows result }
        ensures size { size_of result.marks ≡ size_of marks }
    {
        Search {
            queue: Vec::new(alloc),
            marks,
        }
    }

    /// Notes that a variable is reached in a phase, if it was not before. At a variable of nobody the first phase starts
    /// anew. Constant time but for growth.
    fn note(
        &mut self,
        graph: &FlowGraph,
        at: VarId,
        phase: Phase,
        cause: Cause,
    ) -> Result<(), NoMemory>
        requires { at < size_of self.old.marks }
        ensures good { OnOk result
            ((sys : System) (lattice : ℕ) (origin : Origin) (rows : List Summary) →
            ComesBy sys lattice origin rows self.old.queue.items
            (length self.old.queue.items) (settled (owner_of graph.now at) phase) at cause →
            IsGood sys lattice origin rows self.old → IsGood sys lattice origin rows self.new) }
        ensures grows { OnOk result (Grows self.old self.new) }
        ensures there { OnOk result (IsMarked self.new (settled (owner_of graph.now at) phase) at) }
    {
        let phase = settled(graph, at, phase);
        if !self.marks.mark(phase, at) {
            return Ok(());
        }
        match self.queue.push(Reached { at, phase, cause }) {
            Ok(()) => Ok(()),
            Err(_) => Err(NoMemory),
        }
    }

    /// Starts at a constraint where that is a constant of the element.
    fn start_at(
        &mut self,
        graph: &FlowGraph,
        lattice: LatticeNo,
        elem: Elem,
        edge: EdgeId,
    ) -> Result<(), NoMemory>
        requires edge { edge < length graph.now.constraints }
        requires below { AllBelow graph.now (size_of self.old.marks) }
        ensures good { OnOk result ((rows : List Summary) →
            IsGood graph.now lattice (Element elem) rows self.old →
            IsGood graph.now lattice (Element elem) rows self.new) }
        ensures grows { OnOk result (Grows self.old self.new) }
        ensures done { OnOk result ((v : ℕ) → Stands graph.now lattice edge (Const lattice elem v) →
            IsMarked self.new (settled (owner_of graph.now v) First) v) }
    {
        let link = graph.constraint(edge).link;
        match link {
            Link::Const(named, mark, at) => {
                if named == lattice && mark == elem {
                    self.note(graph, at, Phase::First, Cause::Start(edge))
                } else {
                    Ok(())
                }
            }
            _ => Ok(()),
        }
    }

    /// Starts at each constant of the element. Linear in the constraints.
    fn start_at_each(
        &mut self,
        graph: &FlowGraph,
        lattice: LatticeNo,
        elem: Elem,
    ) -> Result<(), NoMemory>
        requires below { AllBelow graph.now (size_of self.old.marks) }
        ensures good { OnOk result ((rows : List Summary) →
            IsGood graph.now lattice (Element elem) rows self.old →
            IsGood graph.now lattice (Element elem) rows self.new) }
        ensures grows { OnOk result (Grows self.old self.new) }
        ensures started { OnOk result (AreStarted graph.now lattice (Element elem) self.new) }
    {
        for n in 0..graph.len() {
            self.start_at(graph, lattice, elem, EdgeId::new(n))?;
        }
        Ok(())
    }

    /// Starts at each constant of an element, or at a variable.
    fn start(
        &mut self,
        graph: &FlowGraph,
        lattice: LatticeNo,
        origin: &Origin,
    ) -> Result<(), NoMemory>
        requires below { AllBelow graph.now (size_of self.old.marks) }
        requires room { HasRoom origin.now (size_of self.old.marks) }
        ensures good { OnOk result ((rows : List Summary) →
            IsGood graph.now lattice origin.now rows self.old →
            IsGood graph.now lattice origin.now rows self.new) }
        ensures grows { OnOk result (Grows self.old self.new) }
        ensures started { OnOk result (AreStarted graph.now lattice origin.now self.new) }
    {
        match origin {
            Origin::Element(elem) => self.start_at_each(graph, lattice, *elem),
            Origin::Variable(at) => self.note(graph, *at, Phase::First, Cause::Here),
        }
    }

    /// Goes on along a constraint that begins at the variable of a place, and along the groups that begin with it.
    fn follow(
        &mut self,
        passed: &mut Passed,
        graph: &FlowGraph,
        crossings: &Crossings,
        summaries: &Summaries,
        lattice: LatticeNo,
        front: &Front,
        edge: EdgeId,
    ) -> Result<(), NoMemory>
        requires begins { IsKeyed graph.now link_begins front.now.at edge }
        requires crossings { AreCrossings graph.now crossings.now }
        requires lattice { lattice < 16 }
        requires below { AllBelow graph.now (size_of self.old.marks) }
        requires front { StandsAt self.old front.now.place front.now.phase front.now.at }
        requires over { IsOver graph.now lattice summaries.now passed.old self.old }
        ensures good { OnOk result (StaysGood graph.now lattice summaries.now self.old self.new) }
        ensures grows { OnOk result (Grows self.old self.new) }
        ensures done { OnOk result (IsFollowed graph.now
            lattice summaries.now self.new front.now.phase front.now.at edge) }
        ensures over { OnOk result (IsOver graph.now lattice summaries.now passed.new self.new) }
    {
        let constraint = graph.constraint(edge);
        if !constraint.is_in(lattice) {
            return Ok(());
        }
        let link = constraint.link;
        let cause = Cause::Step {
            from: front.place,
            edge,
        };
        match link {
            Link::Le(_, to) => self.note(graph, to, front.phase, cause),
            Link::Leave(_, _, to) => {
                if !is_returning(front.phase) {
                    return Ok(());
                }
                self.note(graph, to, Phase::First, cause)
            }
            Link::Enter(site, _, inner) => {
                self.note(graph, inner, Phase::Second, cause)?;
                let call = Call {
                    enter: edge,
                    site,
                    inner,
                };
                self.follow_groups(passed, graph, crossings, summaries, lattice, front, &call)?;
                Ok(())
            }
            _ => Ok(()),
        }
    }

    /// Goes on along the groups of an `Enter`, where those of an `Enter` of the same site to the same variable were not
    /// followed in the phase.
    fn follow_groups(
        &mut self,
        passed: &mut Passed,
        graph: &FlowGraph,
        crossings: &Crossings,
        summaries: &Summaries,
        lattice: LatticeNo,
        front: &Front,
        call: &Call,
    ) -> Result<(), NoMemory>
        requires crossings { AreCrossings graph.now crossings.now }
        requires lattice { lattice < 16 }
        requires below { AllBelow graph.now (size_of self.old.marks) }
        requires front { StandsAt self.old front.now.place front.now.phase front.now.at }
        requires call { Stands graph.now lattice call.now.enter
            (Enter call.now.site front.now.at call.now.inner) }
        requires over { IsOver graph.now lattice summaries.now passed.old self.old }
        ensures good { OnOk result (StaysGood graph.now lattice summaries.now self.old self.new) }
        ensures grows { OnOk result (Grows self.old self.new) }
        ensures done { OnOk result ((m : ℕ) → IsRounded graph.now
            lattice summaries.now self.new front.now.phase call.now.site call.now.inner m) }
        ensures over { OnOk result (IsOver graph.now lattice summaries.now passed.new self.new) }
    {
        let end = InnerEnd {
            way: Way::In,
            site: call.site,
            at: call.inner,
        };
        let Some(entry) = crossings.newest(graph, &end) else {
            return Ok(());
        };
        if passed.has(front.phase, entry) {
            return Ok(());
        }
        let inner = call.inner;
        self.follow_leaves(
            passed, graph, crossings, summaries, lattice, front, call, inner,
        )?;
        self.follow_pairs(passed, graph, crossings, summaries, lattice, front, call)?;
        passed.add(front.phase, entry)?;
        Ok(())
    }

    /// Goes on along the groups of an `Enter` in which a pair leads to the `Leave`, the newest pair first.
    fn follow_pairs(
        &mut self,
        passed: &mut Passed,
        graph: &FlowGraph,
        crossings: &Crossings,
        summaries: &Summaries,
        lattice: LatticeNo,
        front: &Front,
        call: &Call,
    ) -> Result<(), NoMemory>
        requires crossings { AreCrossings graph.now crossings.now }
        requires lattice { lattice < 16 }
        requires below { AllBelow graph.now (size_of self.old.marks) }
        requires front { StandsAt self.old front.now.place front.now.phase front.now.at }
        requires call { Stands graph.now lattice call.now.enter
            (Enter call.now.site front.now.at call.now.inner) }
        requires over { IsOver graph.now lattice summaries.now passed.old self.old }
        ensures good { OnOk result (StaysGood graph.now lattice summaries.now self.old self.new) }
        ensures grows { OnOk result (Grows self.old self.new) }
        ensures done { OnOk result
            ((b m : ℕ) → HasPair summaries.now call.now.inner b → IsRoundedFrom graph.now
            lattice summaries.now self.new front.now.phase call.now.site call.now.inner b m) }
        ensures over { OnOk result (IsOver graph.now lattice summaries.now passed.new self.new) }
    {
        let mut next = summaries.newest_from(call.inner);
        while let Some(at) = next {
            let last = summaries.row(at).to;
            self.follow_leaves(
                passed, graph, crossings, summaries, lattice, front, call, last,
            )?;
            next = summaries.before_from(at);
        }
        Ok(())
    }

    /// Goes on along the groups of an `Enter` whose `Leave` begins at a variable, where nothing or a summary leads to it and
    /// these `Leave`s were not followed in the phase.
    fn follow_leaves(
        &mut self,
        passed: &mut Passed,
        graph: &FlowGraph,
        crossings: &Crossings,
        summaries: &Summaries,
        lattice: LatticeNo,
        front: &Front,
        call: &Call,
        last: VarId,
    ) -> Result<(), NoMemory>
        requires crossings { AreCrossings graph.now crossings.now }
        requires lattice { lattice < 16 }
        requires below { AllBelow graph.now (size_of self.old.marks) }
        requires front { StandsAt self.old front.now.place front.now.phase front.now.at }
        requires call { Stands graph.now lattice call.now.enter
            (Enter call.now.site front.now.at call.now.inner) }
        requires over { IsOver graph.now lattice summaries.now passed.old self.old }
        ensures good { OnOk result (StaysGood graph.now lattice summaries.now self.old self.new) }
        ensures grows { OnOk result (Grows self.old self.new) }
        ensures done { OnOk result ((m : ℕ) → IsRoundedFrom graph.now
            lattice summaries.now self.new front.now.phase call.now.site call.now.inner last m) }
        ensures over { OnOk result (IsOver graph.now lattice summaries.now passed.new self.new) }
    {
        if !summaries.leads(call.inner, last) {
            return Ok(());
        }
        let end = InnerEnd {
            way: Way::Out,
            site: call.site,
            at: last,
        };
        let Some(exit) = crossings.newest(graph, &end) else {
            return Ok(());
        };
        if passed.has(front.phase, exit) {
            return Ok(());
        }
        self.follow_all(graph, crossings, summaries, lattice, front, call, last)?;
        passed.add(front.phase, exit)?;
        Ok(())
    }

    /// Goes on along the groups of an `Enter` whose `Leave` begins at a variable, the last `Leave` first.
    fn follow_all(
        &mut self,
        graph: &FlowGraph,
        crossings: &Crossings,
        summaries: &Summaries,
        lattice: LatticeNo,
        front: &Front,
        call: &Call,
        last: VarId,
    ) -> Result<(), NoMemory>
        requires crossings { AreCrossings graph.now crossings.now }
        requires lattice { lattice < 16 }
        requires below { AllBelow graph.now (size_of self.old.marks) }
        requires front { StandsAt self.old front.now.place front.now.phase front.now.at }
        requires call { Stands graph.now lattice call.now.enter
            (Enter call.now.site front.now.at call.now.inner) }
        ensures good { OnOk result (StaysGood graph.now lattice summaries.now self.old self.new) }
        ensures grows { OnOk result (Grows self.old self.new) }
        ensures done { OnOk result ((m : ℕ) → IsRoundedFrom graph.now
            lattice summaries.now self.new front.now.phase call.now.site call.now.inner last m) }
    {
        let end = InnerEnd {
            way: Way::Out,
            site: call.site,
            at: last,
        };
        let mut next = crossings.newest(graph, &end);
        while let Some(leave) = next {
            self.follow_group(graph, summaries, lattice, front, call, leave)?;
            next = crossings.before(graph, &end, leave);
        }
        Ok(())
    }

    /// Goes on along the group of an `Enter` and a constraint of its site, where that is a `Leave` to which nothing or a
    /// summary leads.
    fn follow_group(
        &mut self,
        graph: &FlowGraph,
        summaries: &Summaries,
        lattice: LatticeNo,
        front: &Front,
        call: &Call,
        leave: EdgeId,
    ) -> Result<(), NoMemory>
        requires site { IsKeyed graph.now link_site call.now.site leave }
        requires lattice { lattice < 16 }
        requires below { AllBelow graph.now (size_of self.old.marks) }
        requires front { StandsAt self.old front.now.place front.now.phase front.now.at }
        requires call { Stands graph.now lattice call.now.enter
            (Enter call.now.site front.now.at call.now.inner) }
        ensures good { OnOk result (StaysGood graph.now lattice summaries.now self.old self.new) }
        ensures grows { OnOk result (Grows self.old self.new) }
        ensures done { OnOk result (IsRounded graph.now
            lattice summaries.now self.new front.now.phase call.now.site call.now.inner leave) }
    {
        let back = graph.constraint(leave);
        if !back.is_in(lattice) {
            return Ok(());
        }
        let link = back.link;
        match link {
            Link::Leave(_, last, to) => {
                if !summaries.leads(call.inner, last) {
                    return Ok(());
                }
                let cause = Cause::Group {
                    from: front.place,
                    enter: call.enter,
                    leave,
                };
                self.note(graph, to, front.phase, cause)
            }
            _ => Ok(()),
        }
    }

    /// Goes on from a place of the queue along each constraint that begins at its variable.
    fn visit(
        &mut self,
        passed: &mut Passed,
        graph: &FlowGraph,
        index: &Adjacency,
        crossings: &Crossings,
        summaries: &Summaries,
        lattice: LatticeNo,
        front: &Front,
    ) -> Result<(), NoMemory>
        requires index { IsIndexOf graph.now index.now }
        requires crossings { AreCrossings graph.now crossings.now }
        requires lattice { lattice < 16 }
        requires below { AllBelow graph.now (size_of self.old.marks) }
        requires front { StandsAt self.old front.now.place front.now.phase front.now.at }
        requires over { IsOver graph.now lattice summaries.now passed.old self.old }
        ensures good { OnOk result (StaysGood graph.now lattice summaries.now self.old self.new) }
        ensures grows { OnOk result (Grows self.old self.new) }
        ensures done { OnOk result ((n : ℕ) →
            IsFollowed graph.now lattice summaries.now self.new front.now.phase front.now.at n) }
        ensures over { OnOk result (IsOver graph.now lattice summaries.now passed.new self.new) }
    {
        for edge in index.out(front.at) {
            self.follow(passed, graph, crossings, summaries, lattice, front, *edge)?;
        }
        Ok(())
    }

    /// A place of the queue with its variable and phase.
    fn front_at(&self, place: usize) -> Front
        requires { place < length self.now.queue.items }
        ensures place { result.place ≡ place }
        ensures stands { StandsAt self.now place result.phase result.at }
    {
        let reached = self.queue[place];
        Front {
            place,
            at: reached.at,
            phase: reached.phase,
        }
    }

    /// Goes on from each place of the queue, until none is left.
    fn run(
        &mut self,
        passed: &mut Passed,
        graph: &FlowGraph,
        index: &Adjacency,
        crossings: &Crossings,
        summaries: &Summaries,
        lattice: LatticeNo,
    ) -> Result<(), NoMemory>
        requires index { IsIndexOf graph.now index.now }
        requires crossings { AreCrossings graph.now crossings.now }
        requires lattice { lattice < 16 }
        requires below { AllBelow graph.now (size_of self.old.marks) }
        requires over { IsOver graph.now lattice summaries.now passed.old self.old }
        ensures good { OnOk result (StaysGood graph.now lattice summaries.now self.old self.new) }
        ensures grows { OnOk result (Grows self.old self.new) }
        ensures visited { OnOk result
            ((place : ℕ) → IsVisited graph.now lattice summaries.now self.new place) }
        ensures over { OnOk result (IsOver graph.now lattice summaries.now passed.new self.new) }
    {
        let mut place = 0;
        while place < self.queue.len() {
            let front = self.front_at(place);
            self.visit(passed, graph, index, crossings, summaries, lattice, &front)?;
            place += 1;
        }
        Ok(())
    }
}

/// Whether no call is open in a phase.
fn is_returning(phase: Phase) -> bool
    ensures { IsTrue result ↔ (phase ≡ First) }
{
    match phase {
        Phase::First => true,
        Phase::Second => false,
    }
}

/// The phase in which a path goes on from a variable.
fn settled(graph: &FlowGraph, at: VarId, phase: Phase) -> Phase
    ensures { result ≡ settled (owner_of graph.now at) phase }
{
    let owner = graph.owner(at);
    match owner {
        Owner::Nobody => Phase::First,
        Owner::Function(_) => phase,
    }
}

/// All that the constants of an element or a variable lead to, in the order in which a breadth-first search comes to it, with
/// a mark for each of it. A variable leads to itself. No mark may be set before, of a variable or of a constraint.
///
/// It takes each variable once in each phase, with a step for each constraint that begins there. The groups of a site that
/// begin at one variable are followed once in each phase, with a step for each pair from that variable, and the `Leave`s of
/// the site from one variable once; from an element it goes once over all constraints before that. An item of the queue for
/// each variable and phase that it reaches, and 4 bytes for each site whose groups it follows from a variable in a phase.
pub fn search_from(
    alloc: Global,
    marks: Marks,
    passed: &mut Passed,
    graph: &FlowGraph,
    index: &Adjacency,
    crossings: &Crossings,
    summaries: &Summaries,
    lattice: LatticeNo,
    origin: &Origin,
) -> Result<Search, NoMemory>
    requires index { IsIndexOf graph.now index.now }
    requires crossings { AreCrossings graph.now crossings.now }
    requires lattice { lattice < 16 }
    requires below { AllBelow graph.now (size_of marks) }
    requires room { HasRoom origin.now (size_of marks) }
    requires unmarked { (p : Phase) (v : ℕ) → mark_of marks p v ≡ false }
    requires size { length graph.now.constraints ≤ size_of passed.old }
    requires none { (p : Phase) (n : ℕ) → mark_of passed.old p n ≡ false }
    ensures good { IfOk result (IsGood graph.now lattice origin.now summaries.now) }
    ensures whole { IfOk result (λ search. Summarises graph.now lattice summaries.now →
        HasAll graph.now lattice origin.now search.queue.items) }
    ensures marks { IfOk result (λ search. size_of search.marks ≡ size_of marks) }
    ensures passed { OnOk result (length graph.now.constraints ≤ size_of passed.new) }
{
    let mut search = Search::new(alloc, marks);
    search.start(graph, lattice, origin)?;
    search.run(passed, graph, index, crossings, summaries, lattice)?;
    Ok(search)
}
