//! What the nodes of a function say.

ghost use Rattle.std.specs.Prelude.{◌≡◌, ◌<◌, ◌≤◌, ◌↔◌, ℕ, List, None, not, true, IsTrue, IfOk};
ghost use Rattle.std.specs.Prelude.{OnOk, []};
ghost use Rattle.std.specs.List.{Contains};
ghost use Rattle.std.specs.Int.{bit_at};
ghost use Rattle.lattice_core.specs.Order.{leq, size};
ghost use Rattle.sig_writer.specs.Signatures as rules;
ghost use Rattle.sig_writer.specs.Signatures.{Found};
ghost use Rattle.sig_writer.specs.Nodes.{AreNodes};
ghost use Rattle.sig_writer.specs.Refusing.{AreAllWithin};
ghost use Rattle.sig_writer.specs.Saying.{elements_of, said_at, AreElements, AreKnown, AreSaid};
ghost use Rattle.sig_writer.specs.Saying.{IsHighAt, IsJoinAt, IsKnownOf, IsLowAt, IsMeetAt};
ghost use Rattle.sig_writer.specs.Saying.{IsMeetOf, IsOf, PushesFound};

use crate::marks::indices_of;
use crate::nodes::Nodes;
use bounds_below::Below;
use lattice_core::Lattice;
use lattice_solver::Solver;
use match_summary::Summaries;
use qual_base::{Elem, ElemSet, NoMemory, Numbered, VarId};
use std::alloc::Global;
use std::marker::Model;

/// What is found of the variables of a library: its matched paths, from its nodes too, the constants that come to each variable, and
/// the bounds that each leads to; and the least and the greatest element.
#[derive(Clone, Copy)]
pub struct Known<'a> {
    pub lattice: &'a Lattice,
    pub summaries: &'a Summaries,
    pub solver: &'a Solver,
    pub below: &'a Below,
    pub least: Elem,
    pub greatest: Elem,
}

impl<'a> Known<'a> {
    /// What is found, over a lattice.
    pub fn new(
        lattice: &'a Lattice,
        summaries: &'a Summaries,
        solver: &'a Solver,
        below: &'a Below,
    ) -> Self
        ensures known { AreKnown result }
        ensures lattice { result.lattice.now ≡ lattice.now }
        ensures summaries { result.summaries.now ≡ summaries.now }
        ensures solver { result.solver.now ≡ solver.now }
        ensures below { result.below.now ≡ below.now }
    {
        Known {
            lattice,
            summaries,
            solver,
            below,
            least: lattice.bottom(),
            greatest: top(lattice),
        }
    }
}

/// The elements that are written at a node: the join of what comes to it, where that is not the least element, and the meet of the
/// bounds that it leads to, where that is not the greatest.
#[derive(Clone, Copy, PartialEq, Eq, Debug)]
pub struct Elements {
    pub low: Option<Elem>,
    pub high: Option<Elem>,
}

/// What is written at the nodes of a function: the numbers of the index word of each, none where it has no such word, and the
/// elements of each.
#[derive(Drop)]
pub struct Said {
    nodes: Nodes,
    numbers: Vec<Vec<u32>>,
    elements: Vec<Elements>,
}

impl Model for Said {
    ghost use Rattle.sig_writer.specs.Nodes.{numbers_in};
    ghost use Rattle.sig_writer.specs.Saying.{says_by, AreHeld, Saying};

    ghost Value = { Saying };

    ghost view = { λ s. record {
      vars = numbers_in s.nodes;
      says = says_by s.numbers.items s.elements.items;
    } };

    ghost invariant = { λ s. AreHeld s.nodes s.numbers.items s.elements.items };
}

impl Said {
    /// The nodes.
    pub fn nodes(&self) -> Nodes
        ensures { AreNodes self.now.vars result }
    {
        self.nodes
    }

    /// The numbers of the index word of a node; none where it has no such word, and elsewhere. Constant time.
    pub fn numbers(&self, at: VarId) -> &[u32]
        ensures { result.now ≡ (said_at self.now at).numbers }
    {
        match self.nodes.find(at) {
            Some(n) => match self.numbers.get(n as usize) {
                Some(numbers) => numbers,
                None => &[],
            },
            None => &[],
        }
    }

    /// The elements of a node; none elsewhere. Constant time.
    pub fn elements(&self, at: VarId) -> Elements
        ensures { result ≡ elements_of (said_at self.now at).low (said_at self.now at).high }
    {
        match self.nodes.find(at) {
            Some(n) => match self.elements.get(n as usize) {
                Some(elements) => *elements,
                None => no_elements(),
            },
            None => no_elements(),
        }
    }

    /// Whether something is written at a node. Constant time.
    pub fn says(&self, at: VarId) -> bool
        ensures { result ≡ not (rules.says_nothing (said_at self.now at)) }
    {
        let Elements { low, high } = self.elements(at);
        !self.numbers(at).is_empty() || low.is_some() || high.is_some()
    }
}

/// No element.
fn no_elements() -> Elements
    ensures { result ≡ elements_of None None }
{
    Elements {
        low: None,
        high: None,
    }
}

/// The greatest element, in at most 128 steps.
fn top(lattice: &Lattice) -> Elem
    ensures element { result < size lattice.now.order }
    ensures greatest { (a : ℕ) →
        a < size lattice.now.order → leq lattice.now.order a result ≡ true }
{
    lattice.law();
    lattice.join_of(ElemSet::new(18_446_744_073_709_551_615))
}

/// Whether a set has an element.
fn has_element(set: ElemSet, elem: u8) -> bool
    requires { elem < 64 }
    ensures { IsTrue result ↔ (bit_at set elem ≡ 1) }
{
    (set.number() >> elem) & 1 == 1
}

/// The greatest element at or below each of a set, in at most 64 times 64 steps; the greatest of all for no element.
fn meet_of(known: &Known<'_>, set: ElemSet) -> Elem
    requires { AreKnown known.now }
    ensures { IsMeetOf known.now.lattice.now.order set result }
{
    known.lattice.law();
    let mut meet = known.greatest;
    for n in 0..known.lattice.size() {
        if has_element(set, n) {
            meet = known.lattice.meet(meet, Elem::new(n));
        }
    }
    meet
}

/// An element, where it is not another one.
fn unless(elem: Elem, other: Elem) -> Option<Elem>
    ensures { result ≡ rules.unless elem other }
{
    if elem == other { None } else { Some(elem) }
}

/// The join of the constants that come to a variable with no call open.
fn join_at(known: &Known<'_>, at: VarId) -> Elem
    ensures { IsJoinAt known.now at result }
{
    known.lattice.join_of(known.solver.first(at))
}

/// The meet of the bounds that a variable leads to.
fn meet_at(known: &Known<'_>, at: VarId) -> Elem
    requires { AreKnown known.now }
    ensures { IsMeetAt known.now at result }
{
    meet_of(known, known.below.set(at))
}

/// The join of what comes to a variable, where it is not the least element.
#[tactic(auto, using(crate::proofs::JoinsMeets::low_is))]
fn low_at(known: &Known<'_>, at: VarId) -> Option<Elem>
    ensures within { IsOf known.now.lattice.now.order result }
    ensures found { IsLowAt known.now at result }
{
    known.lattice.law();
    unless(join_at(known, at), known.least)
}

/// The meet of the bounds that a variable leads to, where it is not the greatest element.
#[tactic(auto, using(crate::proofs::JoinsMeets::high_is))]
fn high_at(known: &Known<'_>, at: VarId) -> Option<Elem>
    requires { AreKnown known.now }
    ensures within { IsOf known.now.lattice.now.order result }
    ensures found { IsHighAt known.now at result }
{
    known.lattice.law();
    unless(meet_at(known, at), known.greatest)
}

/// Adds the elements of a variable.
fn push_elements(elements: &mut Vec<Elements>, known: &Known<'_>, at: VarId) -> Result<(), NoMemory>
    requires { AreKnown known.now }
    ensures { OnOk result (PushesFound known.now at elements.old.items elements.new.items) }
{
    let low = low_at(known, at);
    let high = high_at(known, at);
    elements.push(Elements { low, high })?;
    Ok(())
}

/// Adds the elements of each node.
fn push_all(elements: &mut Vec<Elements>, known: &Known<'_>, nodes: Nodes) -> Result<(), NoMemory>
    requires known { AreKnown known.now }
    requires nodes { nodes.from ≤ nodes.to }
    requires none { elements.old.items ≡ [] }
    ensures { OnOk result (AreElements known.now nodes elements.new.items) }
{
    for n in nodes.from..nodes.to {
        push_elements(elements, known, VarId::new(n))?;
    }
    Ok(())
}

/// The elements of each node.
fn elements_in(alloc: Global, known: &Known<'_>, nodes: Nodes) -> Result<Vec<Elements>, NoMemory>
    requires known { AreKnown known.now }
    requires nodes { nodes.from ≤ nodes.to }
    ensures { IfOk result (λ elements. AreElements known.now nodes elements.items) }
{
    let mut elements = Vec::new(alloc);
    push_all(&mut elements, known, nodes)?;
    Ok(elements)
}

/// What the nodes of a function say. Linear in them, and in the matched paths that begin at them.
pub fn say(alloc: Global, known: &Known<'_>, nodes: Nodes) -> Result<Said, NoMemory>
    requires known { AreKnown known.now }
    requires nodes { nodes.from ≤ nodes.to }
    ensures nodes { IfOk result (λ said. AreNodes said.vars nodes) }
    ensures within { IfOk result (λ said. AreAllWithin known.now.lattice.now said) }
    ensures said { IfOk result (λ said. (vars : List ℕ) (it : Found) → AreNodes vars nodes →
        IsKnownOf known.now vars it → AreSaid it vars said) }
{
    let numbers = indices_of(alloc, known.summaries, nodes)?;
    let elements = elements_in(alloc, known, nodes)?;
    Ok(Said {
        nodes,
        numbers,
        elements,
    })
}
