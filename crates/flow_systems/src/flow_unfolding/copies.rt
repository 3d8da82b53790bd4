//! Which copies of a variable or of a constraint there are.

ghost use Rattle.std.specs.Prelude.{◌≡◌, slice_get};
ghost use Rattle.flow_systems.specs.FlowUnfolding.Copies;
ghost use Rattle.flow_graph.specs.CallStrings;
ghost use Rattle.flow_graph.specs.Unfolding;

use flow_graph::{FlowGraph, Link};
use qual_base::{FuncId, Numbered, Owner, SiteId};

/// Whether an owner is a function.
fn is_function(owner: Owner, function: FuncId) -> bool
    ensures { result ≡ Copies.is_function owner function }
{
    match owner {
        Owner::Nobody => false,
        Owner::Function(f) => f == function,
    }
}

/// Whether a site is there and calls an owner.
fn calls(graph: &FlowGraph, site: SiteId, owner: Owner) -> bool
    ensures { result ≡ Copies.calls graph.now site owner }
{
    if site.number() >= graph.sites() {
        return false;
    }
    is_function(owner, graph.site(site).target)
}

/// The owner of a site, or nobody where the site is not there.
fn outer_of(graph: &FlowGraph, site: SiteId) -> Owner
    ensures { result ≡ Copies.outer_of graph.now site }
{
    if site.number() >= graph.sites() {
        return Owner::Nobody;
    }
    graph.site(site).owner
}

/// Whether a list of sites, the last one first, is a call string of an owner.
fn is_call_string(graph: &FlowGraph, owner: Owner, sites: &[SiteId]) -> bool
    ensures { result ≡ Copies.is_call_string graph.now owner sites.now }
{
    let mut inner = owner;
    for site in sites {
        if !calls(graph, *site, inner) {
            return false;
        }
        inner = outer_of(graph, *site);
    }
    true
}

/// Whether a list of sites is a copy of an owner at a depth.
pub fn is_copy(graph: &FlowGraph, depth: u32, owner: Owner, sites: &[SiteId]) -> bool
    ensures { result ≡ Copies.is_copy graph.now depth owner sites.now }
{
    match owner {
        Owner::Nobody => sites.is_empty(),
        Owner::Function(_) => {
            sites.len() <= depth as usize && is_call_string(graph, owner, sites)
        }
    }
}

/// The function that owns one of two, or nobody.
fn either(one: Owner, other: Owner) -> Owner
    ensures { result ≡ CallStrings.either one other }
{
    match one {
        Owner::Nobody => other,
        Owner::Function(_) => one,
    }
}

/// All sites but the last.
pub fn behind(sites: &[SiteId]) -> &[SiteId]
    ensures { result.now ≡ Copies.behind sites.now }
{
    match sites.split_first() {
        Some((_, rest)) => rest,
        None => sites,
    }
}

/// Whether the last site is this one.
fn ends_in(sites: &[SiteId], site: SiteId) -> bool
    ensures { result ≡ Copies.ends_in sites.now site }
{
    match sites.split_first() {
        Some((last, _)) => *last == site,
        None => false,
    }
}

/// The copy of a variable that is met from a copy of a function.
pub fn seen_from(owner: Owner, sites: &[SiteId]) -> &[SiteId]
    ensures { result.now ≡ Unfolding.seen_from owner sites.now }
{
    match owner {
        Owner::Nobody => &sites[..0],
        Owner::Function(_) => sites,
    }
}

/// Whether a site is there, and a list of sites is a copy of its owner.
fn is_outer_copy(graph: &FlowGraph, depth: u32, site: SiteId, sites: &[SiteId]) -> bool
    ensures { result
        ≡ Copies.is_outer_copy graph.now depth (slice_get graph.now.sites site) sites.now }
{
    if site.number() >= graph.sites() {
        return false;
    }
    is_copy(graph, depth, graph.site(site).owner, sites)
}

/// Whether a call of a site leads into a copy, from a copy of the site's owner.
fn is_entered(graph: &FlowGraph, depth: u32, site: SiteId, sites: &[SiteId]) -> bool
    ensures { result ≡ Copies.is_entered graph.now depth site sites.now }
{
    ends_in(sites, site)
        && (sites.len() <= depth as usize && is_outer_copy(graph, depth, site, behind(sites)))
}

/// Whether a link stands in the copy with these sites. An `Enter` and a `Leave` stand in the copies that they enter and
/// leave. Takes a few steps for each site.
pub fn stands(graph: &FlowGraph, depth: u32, link: Link, sites: &[SiteId]) -> bool
    ensures { result ≡ Copies.stands graph.now depth link sites.now }
{
    match link {
        Link::Le(from, to) => {
            is_copy(
                graph,
                depth,
                either(graph.owner(from), graph.owner(to)),
                sites,
            )
        }
        Link::Const(_, _, at) => is_copy(graph, depth, graph.owner(at), sites),
        Link::Bound(at, _, _) => is_copy(graph, depth, graph.owner(at), sites),
        Link::Enter(site, _, _) => is_entered(graph, depth, site, sites),
        Link::Leave(site, _, _) => is_entered(graph, depth, site, sites),
    }
}
