//! The closure of matched paths by a worklist. Its rules, for variables u and w of one function and variables a and b of
//! one function:
//!
//! ```text
//! start:  from an Enter to u, or where u is a start                               follows u ⇒ u
//! flow:   from u ⇒ v and a flow from v to w                                      follows u ⇒ w
//! group:  from u ⇒ x, an Enter of s from x to a, a ⇒ b, a Leave of s from b to w  follows u ⇒ w
//! ```
//!
//! Each pair is looked at once, as the first premise of flow and of group and as the third premise of group. Of two pairs
//! that make a group together, the one that is looked at later finds the other.

ghost use Rattle.std.specs.Prelude.{◌≡◌, ℕ, ◌<◌, ◌≤◌, ◌⊎◌, ◌↔◌, true, false, [], ◌∷◌, length};
ghost use Rattle.std.specs.Prelude.{slice_index_or, IsTrue, IfOk, OnOk};
ghost use Rattle.flow_graph.specs.declared.constraint.Link.TheVariants.{Enter, Leave};
ghost use Rattle.flow_graph.specs.System.{AllBelow, Stands, vars_of};
ghost use Rattle.flow_graph.specs.PathRules.{link_begins};
ghost use Rattle.flow_graph.specs.Index.{link_site, IsKeyed};
ghost use Rattle.match_summary.specs.Reason.{before_of};
ghost use Rattle.match_summary.specs.Summary.{AreOfOne, EndsAt, HasPair, IsInnerEnd, Leads};
ghost use Rattle.match_summary.specs.Summary.{Summarises, SummarisesFrom};
ghost use Rattle.match_summary.specs.Closing.{AllFollow, AreDone, AreEnds, AreMarkedToo};
ghost use Rattle.match_summary.specs.Closing.{AreReady, Follows, Grows, IsEntered, IsFollowed};
ghost use Rattle.match_summary.specs.Closing.{IsKept, IsLeft, IsLeftFrom, IsLookedAt, IsMarked};
ghost use Rattle.match_summary.specs.Closing.{Looked};

use crate::crossings::{Crossings, InnerEnd, Way};
use crate::found::Found;
use crate::inside::{are_of_one, joins};
use crate::reason::Reason;
use crate::summary::Summaries;
use flow_graph::{Adjacency, Crossing, FlowGraph, Link};
use qual_base::{EdgeId, LatticeNo, NoMemory, Numbered, VarId};
use std::alloc::Global;

/// What the rules read: the constraints of one lattice, how many variables there are, where the constraints begin, the
/// calls and returns by their inner ends, and for each variable whether pairs may begin there.
#[derive(Clone, Copy)]
struct Premises<'a> {
    graph: &'a FlowGraph,
    lattice: LatticeNo,
    vars: u32,
    index: &'a Adjacency,
    crossings: &'a Crossings,
    marks: &'a [bool],
}

/// All matched paths of a lattice that begin at the inner end of an `Enter`, as pairs of variables: the summaries of
/// Rehof and Fähndrich (POPL 2001), found as Horwitz, Reps and Sagiv find theirs (FSE 1995).
///
/// Each pair is looked at once, and for each pair each constraint that begins where it ends. For a call these are the pairs
/// that begin where it leads, with the returns of its site from where they end; for a return the calls of its site to where
/// the pair begins, with the pairs that lead to where they begin. Memory: 28 bytes a pair, 8 to 12 for its place and 4 for the
/// one before it, 20 a constraint, 13 to 17 a variable and 4 a site, of which the pairs with their places stay; the tables of
/// pairs double, so that they may have room for twice as many.
pub fn summarise(
    alloc: Global,
    graph: &FlowGraph,
    lattice: LatticeNo,
) -> Result<Summaries, NoMemory>
    requires { lattice < 16 }
    ensures summaries { IfOk result (λ summaries. Summarises graph.now lattice summaries) }
    ensures alone { IfOk result (λ summaries. SummarisesFrom graph.now lattice [] summaries) }
{
    summarise_from(alloc, graph, lattice, &[])
}

/// The same with the matched paths that begin at given variables too. A variable past those of the graph has none; one
/// that is given twice, or is the inner end of an `Enter`, adds nothing. Costs as `summarise` does with the pairs that this
/// adds, and a step for each variable that is given.
pub fn summarise_from(
    alloc: Global,
    graph: &FlowGraph,
    lattice: LatticeNo,
    starts: &[VarId],
) -> Result<Summaries, NoMemory>
    requires { lattice < 16 }
    ensures { IfOk result
        (λ summaries. SummarisesFrom graph.now lattice starts.now summaries) }
{
    let index = Adjacency::build(alloc, graph)?;
    let crossings = Crossings::build(alloc, graph)?;
    let mut marks = inner_ends(alloc, graph, lattice)?;
    mark_starts(starts, &mut marks);
    let given = Premises {
        graph,
        lattice,
        vars: graph.vars(),
        index: &index,
        crossings: &crossings,
        marks: marks.as_slice(),
    };
    let mut found = Found::new(alloc);
    from_ends(&given, &mut found)?;
    from_pairs(&given, &mut found)?;
    Ok(found.known)
}

/// For each variable whether an `Enter` of the lattice leads to it.
fn inner_ends(alloc: Global, graph: &FlowGraph, lattice: LatticeNo) -> Result<Vec<bool>, NoMemory>
    requires { lattice < 16 }
    ensures size { IfOk result (λ ends. length ends.items ≡ vars_of graph.now) }
    ensures ends { IfOk result (λ ends. AreEnds graph.now lattice ends.items) }
{
    let mut ends = vec![in alloc; false; graph.vars() as usize]?;
    for n in 0..graph.len() {
        mark(graph, lattice, EdgeId::new(n), &mut ends);
    }
    Ok(ends)
}

/// Marks the variable that a constraint enters.
fn mark(graph: &FlowGraph, lattice: LatticeNo, at: EdgeId, ends: &mut Vec<bool>)
    requires lattice { lattice < 16 }
    requires at { at < length graph.now.constraints }
    requires below { AllBelow graph.now (length ends.old.items) }
    ensures size { length ends.new.items ≡ length ends.old.items }
    ensures kept { (a : ℕ) → slice_index_or ends.old.items a false ≡ true →
        slice_index_or ends.new.items a false ≡ true }
    ensures only { (a : ℕ) → slice_index_or ends.new.items a false ≡ true →
        (slice_index_or ends.old.items a false ≡ true) ⊎ IsInnerEnd graph.now lattice a }
    ensures there { (s u a : ℕ) →
        Stands graph.now lattice at (Enter s u a) → slice_index_or ends.new.items a false ≡ true }
{
    let constraint = graph.constraint(at);
    if !constraint.is_in(lattice) {
        return;
    }
    if let Some(call) = constraint.link.as_enter() {
        ends[call.to.number() as usize] = true;
    }
}

/// Marks the variables of a list, where there are marks for them.
fn mark_starts(starts: &[VarId], marks: &mut Vec<bool>)
    ensures { AreMarkedToo starts.now marks.old.items marks.new.items }
{
    for start in starts {
        mark_start(*start, marks);
    }
}

/// Marks a variable, where there is a mark for it.
fn mark_start(at: VarId, marks: &mut Vec<bool>)
    ensures { AreMarkedToo (at ∷ []) marks.old.items marks.new.items }
{
    let place = at.number() as usize;
    if place < marks.len() {
        marks[place] = true;
    }
}

/// Looks at nothing, as the path from each marked variable to itself.
fn from_ends(given: &Premises, found: &mut Found) -> Result<(), NoMemory>
    requires ready { AreReady given.now }
    requires kept { IsKept given.now found.old }
    requires none { found.old.known ≡ [] }
    ensures kept { OnOk result (IsKept given.now found.new) }
    ensures done { OnOk result (AreDone given.now.graph.now given.now.lattice given.now.marks.now
        (Looked found.new.known given.now.vars 0) found.new.known) }
{
    for n in 0..given.vars {
        from_end(given, found, VarId::new(n))?;
    }
    Ok(())
}

/// Looks at nothing, as the path from a variable to itself, where it is marked.
fn from_end(given: &Premises, found: &mut Found, at: VarId) -> Result<(), NoMemory>
    requires ready { AreReady given.now }
    requires kept { IsKept given.now found.old }
    ensures kept { OnOk result (IsKept given.now found.new) }
    ensures grows { OnOk result (Grows found.old.known found.new.known) }
    ensures done { OnOk result (IsMarked given.now.marks.now at →
        IsLookedAt given.now.graph.now given.now.lattice given.now.marks.now found.old.known found.new.known at at) }
{
    if !is_marked(given, at) {
        return Ok(());
    }
    look(given, found, at, at)
}

/// Looks at each pair in turn, and at those that this adds.
fn from_pairs(given: &Premises, found: &mut Found) -> Result<(), NoMemory>
    requires ready { AreReady given.now }
    requires kept { IsKept given.now found.old }
    requires done { AreDone given.now.graph.now given.now.lattice given.now.marks.now
        (Looked found.old.known given.now.vars 0) found.old.known }
    ensures kept { OnOk result (IsKept given.now found.new) }
    ensures done { OnOk result (AreDone given.now.graph.now given.now.lattice given.now.marks.now
        (Looked found.new.known given.now.vars (length found.new.known)) found.new.known) }
{
    let mut at = 0;
    while at < found.len() {
        let pair = found.row(at);
        look(given, found, pair.from, pair.to)?;
        at += 1;
    }
    Ok(())
}

/// Whether pairs may begin at a variable. Any variable is taken.
fn is_marked(given: &Premises, at: VarId) -> bool
    ensures { IsTrue result ↔ IsMarked given.now.marks.now at }
{
    match given.marks.get(at.number() as usize) {
        Some(is_marked) => *is_marked,
        None => false,
    }
}

/// Adds what follows from a path and the constraints that begin where it ends.
fn look(given: &Premises, found: &mut Found, from: VarId, to: VarId) -> Result<(), NoMemory>
    requires ready { AreReady given.now }
    requires kept { IsKept given.now found.old }
    requires begins { IsMarked given.now.marks.now from }
    requires path { Leads found.old.known from to }
    ensures kept { OnOk result (IsKept given.now found.new) }
    ensures grows { OnOk result (Grows found.old.known found.new.known) }
    ensures done { OnOk result
        (IsLookedAt given.now.graph.now given.now.lattice given.now.marks.now found.old.known found.new.known from to) }
{
    for edge in given.index.out(to) {
        follow(given, found, from, to, *edge)?;
    }
    Ok(())
}

/// Adds what follows from a path and one constraint that begins where it ends.
fn follow(
    given: &Premises,
    found: &mut Found,
    from: VarId,
    to: VarId,
    edge: EdgeId,
) -> Result<(), NoMemory>
    requires ready { AreReady given.now }
    requires kept { IsKept given.now found.old }
    requires begins { IsMarked given.now.marks.now from }
    requires path { Leads found.old.known from to }
    requires edge { IsKeyed given.now.graph.now link_begins to edge }
    ensures kept { OnOk result (IsKept given.now found.new) }
    ensures grows { OnOk result (Grows found.old.known found.new.known) }
    ensures done { OnOk result (IsFollowed given.now.graph.now given.now.lattice given.now.marks.now found.old.known found.new.known from to edge) }
{
    let constraint = given.graph.constraint(edge);
    if !constraint.is_in(given.lattice) {
        return Ok(());
    }
    let link = constraint.link;
    match link {
        Link::Le(before, end) => extend(given, found, from, end, &Reason::Last(edge, before)),
        Link::Enter(site, before, inner) => {
            let call = Crossing {
                site,
                from: before,
                to: inner,
            };
            enter(given, found, from, edge, &call)
        }
        Link::Leave(site, last, end) => {
            let back = Crossing {
                site,
                from: last,
                to: end,
            };
            leave(given, found, from, edge, &back)
        }
        _ => Ok(()),
    }
}

/// The rule group by its first premise: adds what follows from a path to an `Enter`, nothing or a pair inside, and a `Leave`.
fn enter(
    given: &Premises,
    found: &mut Found,
    from: VarId,
    edge: EdgeId,
    call: &Crossing,
) -> Result<(), NoMemory>
    requires ready { AreReady given.now }
    requires kept { IsKept given.now found.old }
    requires begins { IsMarked given.now.marks.now from }
    requires path { Leads found.old.known from call.now.from }
    requires call { Stands given.now.graph.now given.now.lattice edge
        (Enter call.now.site call.now.from call.now.to) }
    ensures kept { OnOk result (IsKept given.now found.new) }
    ensures grows { OnOk result (Grows found.old.known found.new.known) }
    ensures done { OnOk result ((m : ℕ) → IsLeft given.now.graph.now
        given.now.lattice found.old.known found.new.known from call.now.site call.now.to m) }
{
    close_all(given, found, from, edge, call, call.to)?;
    close_pairs(given, found, from, edge, call)?;
    Ok(())
}

/// Adds what follows from a path to an `Enter`, each pair inside that begins where it leads, and each `Leave` behind that;
/// the newest pair first.
fn close_pairs(
    given: &Premises,
    found: &mut Found,
    from: VarId,
    edge: EdgeId,
    call: &Crossing,
) -> Result<(), NoMemory>
    requires ready { AreReady given.now }
    requires kept { IsKept given.now found.old }
    requires begins { IsMarked given.now.marks.now from }
    requires path { Leads found.old.known from call.now.from }
    requires call { Stands given.now.graph.now given.now.lattice edge
        (Enter call.now.site call.now.from call.now.to) }
    ensures kept { OnOk result (IsKept given.now found.new) }
    ensures grows { OnOk result (Grows found.old.known found.new.known) }
    ensures done { OnOk result
        ((b m : ℕ) → HasPair found.old.known call.now.to b → IsLeftFrom given.now.graph.now
        given.now.lattice found.old.known found.new.known from call.now.site call.now.to b m) }
{
    let mut next = found.known.newest_from(call.to);
    while let Some(at) = next {
        let pair = found.row(at);
        close_all(given, found, from, edge, call, pair.to)?;
        next = found.known.before_from(at);
    }
    Ok(())
}

/// Adds what follows from a path to an `Enter` and each `Leave` of its site from a variable, the newest first.
fn close_all(
    given: &Premises,
    found: &mut Found,
    from: VarId,
    edge: EdgeId,
    call: &Crossing,
    last: VarId,
) -> Result<(), NoMemory>
    requires ready { AreReady given.now }
    requires kept { IsKept given.now found.old }
    requires begins { IsMarked given.now.marks.now from }
    requires path { Leads found.old.known from call.now.from }
    requires call { Stands given.now.graph.now given.now.lattice edge
        (Enter call.now.site call.now.from call.now.to) }
    ensures kept { OnOk result (IsKept given.now found.new) }
    ensures grows { OnOk result (Grows found.old.known found.new.known) }
    ensures done { OnOk result ((m : ℕ) → IsLeftFrom given.now.graph.now
        given.now.lattice found.old.known found.new.known from call.now.site call.now.to last m) }
{
    let end = InnerEnd {
        way: Way::Out,
        site: call.site,
        at: last,
    };
    let mut next = given.crossings.newest(given.graph, &end);
    while let Some(other) = next {
        close(given, found, from, edge, call, other)?;
        next = given.crossings.before(given.graph, &end, other);
    }
    Ok(())
}

/// Adds what follows from a path to an `Enter` and another constraint of its site, where that is a `Leave` and a path
/// leads to it inside.
fn close(
    given: &Premises,
    found: &mut Found,
    from: VarId,
    edge: EdgeId,
    call: &Crossing,
    other: EdgeId,
) -> Result<(), NoMemory>
    requires ready { AreReady given.now }
    requires kept { IsKept given.now found.old }
    requires begins { IsMarked given.now.marks.now from }
    requires path { Leads found.old.known from call.now.from }
    requires call { Stands given.now.graph.now given.now.lattice edge
        (Enter call.now.site call.now.from call.now.to) }
    requires other { IsKeyed given.now.graph.now link_site call.now.site other }
    ensures kept { OnOk result (IsKept given.now found.new) }
    ensures grows { OnOk result (Grows found.old.known found.new.known) }
    ensures done { OnOk result (IsLeft given.now.graph.now
        given.now.lattice found.old.known found.new.known from call.now.site call.now.to other) }
{
    let constraint = given.graph.constraint(other);
    if !constraint.is_in(given.lattice) {
        return Ok(());
    }
    let Some(back) = constraint.link.as_leave() else {
        return Ok(());
    };
    if !joins(given.graph, &found.known, call.to, back.from) {
        return Ok(());
    }
    let why = Reason::Group {
        before: call.from,
        enter: edge,
        leave: other,
    };
    extend(given, found, from, back.to, &why)
}

/// The rule group by its third premise: adds what follows from a path to a `Leave` and each `Enter` of its site to where the
/// path begins.
fn leave(
    given: &Premises,
    found: &mut Found,
    from: VarId,
    edge: EdgeId,
    back: &Crossing,
) -> Result<(), NoMemory>
    requires ready { AreReady given.now }
    requires kept { IsKept given.now found.old }
    requires path { Leads found.old.known from back.now.from }
    requires back { Stands given.now.graph.now given.now.lattice edge
        (Leave back.now.site back.now.from back.now.to) }
    ensures kept { OnOk result (IsKept given.now found.new) }
    ensures grows { OnOk result (Grows found.old.known found.new.known) }
    ensures done { OnOk result
        (AreOfOne given.now.graph.now from back.now.from → (m : ℕ) → IsEntered given.now.graph.now given.now.lattice given.now.marks.now found.old.known found.new.known from back.now.site back.now.to m) }
{
    if !are_of_one(given.graph, from, back.from) {
        return Ok(());
    }
    let end = InnerEnd {
        way: Way::In,
        site: back.site,
        at: from,
    };
    let mut next = given.crossings.newest(given.graph, &end);
    while let Some(other) = next {
        open(given, found, from, edge, back, other)?;
        next = given.crossings.before(given.graph, &end, other);
    }
    Ok(())
}

/// Adds what follows from a path to a `Leave` and another constraint of its site, where that is an `Enter` to where the
/// path begins.
fn open(
    given: &Premises,
    found: &mut Found,
    from: VarId,
    edge: EdgeId,
    back: &Crossing,
    other: EdgeId,
) -> Result<(), NoMemory>
    requires ready { AreReady given.now }
    requires kept { IsKept given.now found.old }
    requires path { Leads found.old.known from back.now.from }
    requires inside { AreOfOne given.now.graph.now from back.now.from }
    requires back { Stands given.now.graph.now given.now.lattice edge
        (Leave back.now.site back.now.from back.now.to) }
    requires other { IsKeyed given.now.graph.now link_site back.now.site other }
    ensures kept { OnOk result (IsKept given.now found.new) }
    ensures grows { OnOk result (Grows found.old.known found.new.known) }
    ensures done { OnOk result (IsEntered given.now.graph.now given.now.lattice given.now.marks.now found.old.known found.new.known from back.now.site back.now.to other) }
{
    let constraint = given.graph.constraint(other);
    if !constraint.is_in(given.lattice) {
        return Ok(());
    }
    let Some(call) = constraint.link.as_enter() else {
        return Ok(());
    };
    if call.to != from {
        return Ok(());
    }
    let why = Reason::Group {
        before: call.from,
        enter: other,
        leave: edge,
    };
    behind(given, found, back.to, &why)
}

/// Adds what follows from a group and each path to where it begins.
fn behind(given: &Premises, found: &mut Found, to: VarId, why: &Reason) -> Result<(), NoMemory>
    requires ready { AreReady given.now }
    requires kept { IsKept given.now found.old }
    requires part { EndsAt given.now.graph.now given.now.lattice found.old.known why.now to }
    ensures kept { OnOk result (IsKept given.now found.new) }
    ensures grows { OnOk result (Grows found.old.known found.new.known) }
    ensures done { OnOk result (AllFollow given.now.graph.now given.now.marks.now found.old.known found.new.known (before_of why.now) to) }
{
    behind_end(given, found, to, why)?;
    behind_pairs(given, found, to, why)?;
    Ok(())
}

/// Adds what follows from a group and nothing before it, where pairs may begin where it does.
fn behind_end(given: &Premises, found: &mut Found, to: VarId, why: &Reason) -> Result<(), NoMemory>
    requires ready { AreReady given.now }
    requires kept { IsKept given.now found.old }
    requires part { EndsAt given.now.graph.now given.now.lattice found.old.known why.now to }
    ensures kept { OnOk result (IsKept given.now found.new) }
    ensures grows { OnOk result (Grows found.old.known found.new.known) }
    ensures done { OnOk result (IsMarked given.now.marks.now (before_of why.now) → Follows given.now.graph.now found.new.known (before_of why.now) to) }
{
    let before = why.before();
    if !is_marked(given, before) {
        return Ok(());
    }
    extend(given, found, before, to, why)
}

/// Adds what follows from a group and each pair that leads to where it begins, the newest first.
fn behind_pairs(
    given: &Premises,
    found: &mut Found,
    to: VarId,
    why: &Reason,
) -> Result<(), NoMemory>
    requires ready { AreReady given.now }
    requires kept { IsKept given.now found.old }
    requires part { EndsAt given.now.graph.now given.now.lattice found.old.known why.now to }
    ensures kept { OnOk result (IsKept given.now found.new) }
    ensures grows { OnOk result (Grows found.old.known found.new.known) }
    ensures done { OnOk result ((t : ℕ) → HasPair found.old.known t (before_of why.now) →
        Follows given.now.graph.now found.new.known t to) }
{
    let mut next = found.newest(why.before());
    while let Some(at) = next {
        let pair = found.row(at);
        extend(given, found, pair.from, to, why)?;
        next = found.before(at);
    }
    Ok(())
}

/// Adds a pair, where its variables are of one function and it is not there.
fn extend(
    given: &Premises,
    found: &mut Found,
    from: VarId,
    to: VarId,
    why: &Reason,
) -> Result<(), NoMemory>
    requires ready { AreReady given.now }
    requires kept { IsKept given.now found.old }
    requires begins { IsMarked given.now.marks.now from }
    requires front { Leads found.old.known from (before_of why.now) }
    requires part { EndsAt given.now.graph.now given.now.lattice found.old.known why.now to }
    ensures kept { OnOk result (IsKept given.now found.new) }
    ensures grows { OnOk result (Grows found.old.known found.new.known) }
    ensures done { OnOk result (Follows given.now.graph.now found.new.known from to) }
{
    if found.known.holds(from, to) || !are_of_one(given.graph, from, to) {
        return Ok(());
    }
    found.push(from, to, *why)?;
    Ok(())
}
