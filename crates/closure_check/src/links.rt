//! The rules that ask something of each constraint.

ghost use Rattle.std.specs.Prelude.{◌≡◌, ◌<◌, ◌↔◌, true, IsTrue, length};
ghost use Rattle.closure_check.specs.Checking.{claimed, Asks, AsksAt, AsksLinks};
ghost use Rattle.closure_check.specs.Checking.{IsBounded, IsFirstWithin, IsFit, IsSecondWithin};

use crate::claim::{Claim, is_first_within, is_second_within};
use crate::pairs::has_pair;
use crate::rounds::{Going, goes_round};
use crate::sets::{all_below, has_elem, set_at};
use certificate_laws::CertRule;
use flow_graph::Link;
use qual_base::{EdgeId, Elem, Numbered, VarId};

/// Whether each constraint is as a rule asks.
pub fn all_links(given: &Claim, rule: CertRule) -> bool
    requires { IsFit given.now }
    ensures { IsTrue result ↔ AsksLinks given.now rule }
{
    for n in 0..given.graph.len() {
        if !is_met_at(given, rule, EdgeId::new(n)) {
            return false;
        }
    }
    true
}

/// Whether each constraint is as every rule asks that asks something of it, by going over them once.
pub fn all_met(given: &Claim) -> bool
    requires { IsFit given.now }
    ensures { IsTrue result → (rule : CertRule) → AsksLinks given.now rule }
{
    for n in 0..given.graph.len() {
        if !are_met_at(given, EdgeId::new(n)) {
            return false;
        }
    }
    true
}

/// Whether each constraint is as a rule asks, where it may be known that each is as every rule asks.
pub fn links_met(given: &Claim, known: bool, rule: CertRule) -> bool
    requires fit { IsFit given.now }
    requires known { IsTrue known → (other : CertRule) → AsksLinks given.now other }
    ensures { IsTrue result ↔ AsksLinks given.now rule }
{
    if known {
        return true;
    }
    all_links(given, rule)
}

/// Whether a constraint is as all rules ask.
fn are_met_at(given: &Claim, at: EdgeId) -> bool
    requires fit { IsFit given.now }
    requires at { at < length given.now.graph.now.constraints }
    ensures { IsTrue result → (rule : CertRule) → AsksAt given.now rule at }
{
    let constraint = given.graph.constraint(at);
    if !constraint.is_in(given.at) {
        return true;
    }
    are_met(given, constraint.link)
}

/// Whether a link is as all rules ask.
fn are_met(given: &Claim, link: Link) -> bool
    requires { IsFit given.now }
    ensures { IsTrue result → (rule : CertRule) → Asks given.now rule link }
{
    match link {
        Link::Le(from, to) => flows_on(given, from, to),
        Link::Const(_, elem, at) => is_in_first(given, at, elem),
        Link::Bound(at, _, limit) => is_bounded(given, at, limit),
        Link::Enter(site, from, inner) => {
            calls_on(given, from, inner) && goes_round(given, &Going::First(from), site, inner)
        }
        Link::Leave(_, from, to) => is_first_within(given, from, to),
    }
}

/// Whether a constraint is as a rule asks.
fn is_met_at(given: &Claim, rule: CertRule, at: EdgeId) -> bool
    requires fit { IsFit given.now }
    requires at { at < length given.now.graph.now.constraints }
    ensures { IsTrue result ↔ AsksAt given.now rule at }
{
    let constraint = given.graph.constraint(at);
    if !constraint.is_in(given.at) {
        return true;
    }
    is_met(given, rule, constraint.link)
}

/// Whether a link is as a rule asks.
fn is_met(given: &Claim, rule: CertRule, link: Link) -> bool
    requires { IsFit given.now }
    ensures { IsTrue result ↔ Asks given.now rule link }
{
    match link {
        Link::Le(from, to) => rule != CertRule::A3 || flows_on(given, from, to),
        Link::Const(_, elem, at) => rule != CertRule::A1 || is_in_first(given, at, elem),
        Link::Bound(at, _, limit) => rule != CertRule::A9 || is_bounded(given, at, limit),
        Link::Enter(site, from, inner) => match rule {
            CertRule::A5 => calls_on(given, from, inner),
            CertRule::A7 => goes_round(given, &Going::First(from), site, inner),
            _ => true,
        },
        Link::Leave(_, from, to) => rule != CertRule::A4 || is_first_within(given, from, to),
    }
}

/// Whether both sets of a variable are within those of another.
fn flows_on(given: &Claim, from: VarId, to: VarId) -> bool
    ensures { IsTrue result
        ↔ (IsFirstWithin given.now from to × IsSecondWithin given.now from to) }
{
    is_first_within(given, from, to) && is_second_within(given, from, to)
}

/// Whether the second set of a variable is within that of another, which is a pair with itself.
fn calls_on(given: &Claim, from: VarId, inner: VarId) -> bool
    requires { IsFit given.now }
    ensures { IsTrue result ↔ (IsSecondWithin given.now from inner
        × ((claimed given.now).paired inner inner ≡ true)) }
{
    is_second_within(given, from, inner) && has_pair(given.part.pairs.as_slice(), inner, inner)
}

/// Whether the first set of a variable has an element.
fn is_in_first(given: &Claim, at: VarId, elem: Elem) -> bool
    ensures { result ≡ (claimed given.now).first at elem }
{
    has_elem(set_at(given.part.first.as_slice(), at), elem)
}

/// Whether each element of the second set of a variable is at or below an element.
fn is_bounded(given: &Claim, at: VarId, limit: Elem) -> bool
    ensures { IsTrue result ↔ IsBounded given.now at limit }
{
    all_below(
        given.lattice,
        set_at(given.part.second.as_slice(), at),
        limit,
    )
}
