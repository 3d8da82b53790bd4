//! Whether a certificate obeys the rules.

ghost use Rattle.std.specs.Prelude.{◌≡◌, ◌↔◌, IsTrue, IsOk, IfErr, OnOk, MatchOption};
ghost use Rattle.qual_base.specs.declared.places.Owner.TheVariants.{Nobody};
ghost use Rattle.flow_graph.specs.System.{owner_of};
ghost use Rattle.flow_graph.specs.PathRules.{link_begins};
ghost use Rattle.flow_graph.specs.Index.{IsKeyed};
ghost use Rattle.flow_graph.specs.Unfolding.{IsAcceptedIn, NamesElementsIn};
ghost use Rattle.certificate_laws.specs.Certificates.{IsLowestFailing, Obeys};
ghost use Rattle.closure_check.specs.Index.{IsIndex};
ghost use Rattle.closure_check.specs.Parts.{certificate_of, IsPart};
ghost use Rattle.closure_check.specs.Checking.{AsksEdge, AsksEdges, AsksLinks, AsksPair, AsksPairs};
ghost use Rattle.closure_check.specs.Checking.{AsksVar, AsksVars, IsFirstFailing, IsFit, IsObeyed};

use crate::claim::{Claim, is_second_within};
use crate::index::CheckIndex;
use crate::links::{all_met, links_met};
use crate::part::Part;
use crate::rounds::{Going, goes_on, goes_round};
use crate::sets::{is_subset, set_at};
use certificate_laws::{CertRule, certified_is_accepted};
use flow_graph::{FlowGraph, Link};
use lattice_core::Lattice;
use qual_base::{EdgeId, LatticeNo, Numbered, Owner, VarId};

/// Whether a certificate of a lattice obeys the rules over the constraints of a graph, or the lowest rule that fails. Where
/// it obeys them all, the system is accepted in this lattice. Takes no memory.
///
/// Time: 64 steps a constraint, eight times that where it does not hold, and a few a variable; for each pair the constraints that
/// begin at its end; and for each `Enter`, once by itself and once for each pair that ends where it begins, the constraints from
/// the first return of its site to the last, with two look-ups of pairs in logarithmic time each. What a program's C makes of a call stands
/// together, so these are the returns of that call and little else.
pub fn check_part(
    graph: &FlowGraph,
    index: &CheckIndex,
    lattice: &Lattice,
    at: LatticeNo,
    part: &Part,
) -> Result<(), CertRule>
    requires index { IsIndex graph.now index.now }
    requires named { NamesElementsIn graph.now at lattice.now.order }
    requires part { IsPart graph.now lattice.now.order part.now }
    ensures holds { IsOk result
        ↔ Obeys graph.now at lattice.now.order (certificate_of part.now) }
    ensures rule { IfErr result
        (IsLowestFailing graph.now at lattice.now.order (certificate_of part.now)) }
    ensures accepted { OnOk result (IsAcceptedIn graph.now at lattice.now.order) }
{
    lattice.law();
    certified_is_accepted();
    let given = Claim {
        graph,
        index,
        lattice,
        at,
        part,
    };
    match first_failing(&given) {
        Some(rule) => Err(rule),
        None => Ok(()),
    }
}

/// The lowest rule that fails.
///
/// What all rules ask of each constraint is asked once, of a certificate that holds; only where that fails, rule by rule.
fn first_failing(given: &Claim) -> Option<CertRule>
    requires { IsFit given.now }
    ensures { MatchOption result ((rule : CertRule) → IsObeyed given.now rule)
        (IsFirstFailing given.now) }
{
    let known = all_met(given);
    let mut rule = CertRule::A1;
    while is_obeyed(given, known, rule) {
        match rule.next() {
            Some(next) => rule = next,
            None => return None,
        }
    }
    Some(rule)
}

/// Whether a rule is obeyed, where it may be known that each constraint is as every rule asks.
fn is_obeyed(given: &Claim, known: bool, rule: CertRule) -> bool
    requires fit { IsFit given.now }
    requires known { IsTrue known → (other : CertRule) → AsksLinks given.now other }
    ensures { IsTrue result ↔ IsObeyed given.now rule }
{
    match rule {
        CertRule::A1 => links_met(given, known, rule),
        CertRule::A2 => all_vars(given),
        CertRule::A3 => links_met(given, known, rule),
        CertRule::A4 => links_met(given, known, rule),
        CertRule::A5 => links_met(given, known, rule),
        CertRule::A6 => all_pairs(given, rule),
        CertRule::A7 => links_met(given, known, rule) && all_pairs(given, rule),
        CertRule::A8 => all_pairs(given, rule),
        CertRule::A9 => links_met(given, known, rule),
    }
}

/// Whether the sets of each variable are as the rule A2 asks.
fn all_vars(given: &Claim) -> bool
    requires { IsFit given.now }
    ensures { IsTrue result ↔ AsksVars given.now }
{
    for n in 0..given.graph.vars() {
        if !is_nested(given, VarId::new(n)) {
            return false;
        }
    }
    true
}

/// Whether the first set of a variable is within its second, and the same where nobody owns it.
fn is_nested(given: &Claim, at: VarId) -> bool
    ensures { IsTrue result ↔ AsksVar given.now at }
{
    let first = set_at(given.part.first.as_slice(), at);
    let second = set_at(given.part.second.as_slice(), at);
    is_subset(first, second) && (given.graph.owner(at) != Owner::Nobody || is_subset(second, first))
}

/// Whether each pair is as a rule asks.
fn all_pairs(given: &Claim, rule: CertRule) -> bool
    requires { IsFit given.now }
    ensures { IsTrue result ↔ AsksPairs given.now rule }
{
    for pair in given.part.pairs.as_slice() {
        if !is_pair_met(given, rule, pair.0, pair.1) {
            return false;
        }
    }
    true
}

/// Whether a pair is as a rule asks.
fn is_pair_met(given: &Claim, rule: CertRule, from: VarId, to: VarId) -> bool
    requires { IsFit given.now }
    ensures { IsTrue result ↔ AsksPair given.now rule from to }
{
    match rule {
        CertRule::A8 => is_second_within(given, from, to),
        _ => all_edges(given, rule, from, to),
    }
}

/// Whether a pair is as a rule asks by each constraint that begins at its end.
fn all_edges(given: &Claim, rule: CertRule, from: VarId, to: VarId) -> bool
    requires { IsFit given.now }
    ensures { IsTrue result ↔ AsksEdges given.now rule from to }
{
    for edge in given.index.out(to) {
        if !is_edge_met(given, rule, from, to, *edge) {
            return false;
        }
    }
    true
}

/// Whether a pair is as a rule asks by one of them.
fn is_edge_met(given: &Claim, rule: CertRule, from: VarId, to: VarId, edge: EdgeId) -> bool
    requires fit { IsFit given.now }
    requires edge { IsKeyed given.now.graph.now link_begins to edge }
    ensures { IsTrue result ↔ AsksEdge given.now rule from to edge }
{
    let constraint = given.graph.constraint(edge);
    if !constraint.is_in(given.at) {
        return true;
    }
    let link = constraint.link;
    match link {
        Link::Le(_, end) => rule != CertRule::A6
            || is_shared(given, end)
            || goes_on(given, &Going::Pair(from), end),
        Link::Enter(site, _, inner) => match rule {
            CertRule::A7 => goes_round(given, &Going::Pair(from), site, inner),
            _ => true,
        },
        _ => true,
    }
}

/// Whether a variable belongs to nobody.
fn is_shared(given: &Claim, at: VarId) -> bool
    ensures { IsTrue result ↔ (owner_of given.now.graph.now at ≡ Nobody) }
{
    given.graph.owner(at) == Owner::Nobody
}
