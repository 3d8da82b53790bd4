//! Functions' names in expressions: their signatures, crossed with instances at call sites.
#![tactic(auto, using(crate::proofs::Lists::with_none, crate::proofs::Lists::with_append, crate::proofs::Lists::stop_front, crate::proofs::Lists::stop_back, crate::proofs::Lists::stop_first))]

ghost use Rattle.std.specs.Prelude.{◌≡◌, ◌<◌, IfErr, MatchOption, OnOk, length, option_map};
ghost use Rattle.name_state.specs.UnitNames.Shown.{use_of, role_of, declared_of};
ghost use Rattle.row_rules.specs.Rows as rows;
ghost use Rattle.row_rules.specs.Worlds.{World, in_all, site_number, skeleton};
ghost use Rattle.row_world.specs.Shown.{Shows, type};
ghost use Rattle.flow_rules.specs.Lists.{cross};
ghost use Rattle.row_adding.specs.Adding.{Adds, Halts};
ghost use Rattle.row_adding.specs.Parts.{function_instance, instance_row};

use crate::flows::cross_in_all;
use crate::forming::form_here;
use flow_graph::{FlowGraph, GraphFault};
use name_tables::name_records::{Declared, Role, Use};
use name_tables::name_scopes::Place;
use qual_base::{Numbered, SiteId, Span, TokenId};
use row_world::Known;

/// The call site at a place, where there is one.
fn site_at(known: &Known, here: &Place) -> Option<SiteId>
    ensures { MatchOption result (Unit {0}) (λ site. (w : World) → Shows known.now w →
        site ≡ site_number w here.now) }
{
    match known.site(here) {
        Some(site) => Some(site),
        None => None,
    }
}

/// The signature of a function, crossed with the instance at a place.
fn cross_places(
    known: &Known,
    graph: &mut FlowGraph,
    site: SiteId,
    at: &Place,
    here: &Place,
    span: &Span,
) -> Result<(), GraphFault>
    requires { site < length graph.old.sites }
    ensures ok { OnOk result (Adds known.now graph.old graph.new (λ w.
        in_all w span.now (cross site (skeleton w at.now) (skeleton w here.now)))) }
    ensures err { IfErr result (λ fault. Halts known.now graph.old graph.new fault (λ w.
        in_all w span.now (cross site (skeleton w at.now) (skeleton w here.now)))) }
{
    let signature = known.skeleton(at);
    let instance = known.skeleton(here);
    cross_in_all(known, graph, site, signature, instance, span)
}

/// The same, where the graph has the call site; else NoMemory.
fn cross_known(
    known: &Known,
    graph: &mut FlowGraph,
    site: SiteId,
    at: &Place,
    here: &Place,
    span: &Span,
) -> Result<(), GraphFault>
    ensures ok { OnOk result (Adds known.now graph.old graph.new (λ w.
        in_all w span.now (cross site (skeleton w at.now) (skeleton w here.now)))) }
    ensures err { IfErr result (λ fault. Halts known.now graph.old graph.new fault (λ w.
        in_all w span.now (cross site (skeleton w at.now) (skeleton w here.now)))) }
{
    if site.number() >= graph.sites() {
        return Err(GraphFault::NoMemory);
    }
    cross_places(known, graph, site, at, here, span)
}

/// The same at the call site of the instance; NoMemory where there is none.
fn cross_at(
    known: &Known,
    graph: &mut FlowGraph,
    at: &Place,
    here: &Place,
    span: &Span,
) -> Result<(), GraphFault>
    ensures ok { OnOk result (Adds known.now graph.old graph.new (λ w. in_all w span.now
        (cross (site_number w here.now) (skeleton w at.now) (skeleton w here.now)))) }
    ensures err { IfErr result (λ fault. Halts known.now graph.old graph.new fault (λ w.
        in_all w span.now
        (cross (site_number w here.now) (skeleton w at.now) (skeleton w here.now)))) }
{
    match site_at(known, here) {
        Some(site) => cross_known(known, graph, site, at, here, span),
        None => Err(GraphFault::NoMemory),
    }
}

/// The signature of a function, crossed with the instance at a token. NoMemory where the graph has no call site there.
fn cross_here(
    known: &Known,
    graph: &mut FlowGraph,
    token: TokenId,
    at: &Place,
) -> Result<(), GraphFault>
    ensures ok { OnOk result (Adds known.now graph.old graph.new
        (λ w. instance_row w token at.now)) }
    ensures err { IfErr result (λ fault. Halts known.now graph.old graph.new fault
        (λ w. instance_row w token at.now)) }
{
    let here = known.place(token);
    let span = known.span(token, token);
    cross_at(known, graph, at, &here, &span)
}

/// The row of a function's name: what passes inside the instance, and the signature, crossed with it.
fn instance(
    known: &Known,
    graph: &mut FlowGraph,
    token: TokenId,
    at: &Place,
) -> Result<(), GraphFault>
    ensures ok { OnOk result (Adds known.now graph.old graph.new
        (λ w. function_instance w token at.now)) }
    ensures err { IfErr result (λ fault. Halts known.now graph.old graph.new fault
        (λ w. function_instance w token at.now)) }
{
    form_here(known, graph, token)?;
    cross_here(known, graph, token, at)
}

/// The row of a name by where it is declared and as what.
fn used_by_role(
    known: &Known,
    graph: &mut FlowGraph,
    token: TokenId,
    at: &Place,
    role: Role,
) -> Result<(), GraphFault>
    ensures ok { OnOk result (Adds known.now graph.old graph.new
        (λ w. rows.instance w token at.now (role_of role))) }
    ensures err { IfErr result (λ fault. Halts known.now graph.old graph.new fault
        (λ w. rows.instance w token at.now (role_of role))) }
{
    match role {
        Role::Function => instance(known, graph, token, at),
        Role::Typedef => Ok(()),
        Role::Object => Ok(()),
        Role::Parameter(_) => Ok(()),
        Role::Field(_, _) => Ok(()),
        Role::Enumerator => Ok(()),
    }
}

/// The row of a name by its declaration.
fn used_some(
    known: &Known,
    graph: &mut FlowGraph,
    token: TokenId,
    declared: &Option<Declared>,
) -> Result<(), GraphFault>
    ensures ok { OnOk result (Adds known.now graph.old graph.new
        (λ w. rows.some_instance w token
        (option_map (declared_of (type known.now)) declared.now))) }
    ensures err { IfErr result (λ fault. Halts known.now graph.old graph.new fault
        (λ w. rows.some_instance w token
        (option_map (declared_of (type known.now)) declared.now))) }
{
    match declared {
        Some(declared) => used_by_role(known, graph, token, &declared.at, declared.role),
        None => Ok(()),
    }
}

/// A name in an expression, by what it stands for: where that is a function, its signature is crossed with the instance here.
/// NoMemory, too, where the graph has no call site for it, which the graph of a whole program always has.
pub fn used(
    known: &Known,
    graph: &mut FlowGraph,
    token: TokenId,
    found: &Use,
) -> Result<(), GraphFault>
    ensures ok { OnOk result (Adds known.now graph.old graph.new
        (λ w. rows.use_demand w token (use_of found.now))) }
    ensures err { IfErr result (λ fault. Halts known.now graph.old graph.new fault
        (λ w. rows.use_demand w token (use_of found.now))) }
{
    match found {
        Use::Means(first) => used_some(known, graph, token, &known.declared(first)),
        Use::Called => form_here(known, graph, token),
        Use::Missing => Ok(()),
    }
}
