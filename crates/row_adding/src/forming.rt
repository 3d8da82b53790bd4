//! What passes inside a skeleton: between a pointer and what it points to, and from a struct into its members.
#![tactic(auto, using(crate::proofs::Lists::with_none, crate::proofs::Lists::with_append, crate::proofs::Lists::stop_front, crate::proofs::Lists::stop_back))]

ghost use Rattle.std.specs.Prelude.{◌≡◌, ◌+◌, ◌≤◌, ◌^◌, Bool, IfErr, OnOk, drop, length, map};
ghost use Rattle.flow_graph.specs.declared.constraint.Link.TheVariants.{Le};
ghost use Rattle.flow_rules.specs.Adding.{with};
ghost use Rattle.lattice_core.specs.Passing.{is_up, is_down};
ghost use Rattle.qual_types.specs.Rows.{skel_of, params_from};
ghost use Rattle.qual_types.specs.Table.{IsVar, IsLink};
ghost use Rattle.qual_types.specs.Skel.{root};
ghost use Rattle.name_rules.specs.Values.{own_of};
ghost use Rattle.name_state.specs.UnitNames.Shown as shown;
ghost use Rattle.row_rules.specs.Worlds.{World};
ghost use Rattle.row_rules.specs.Forming as rules;
ghost use Rattle.row_world.specs.Shown.{Shows, skel, type};
ghost use Rattle.row_adding.specs.Adding.{StopsEarly, Adds, Halts};
ghost use Rattle.row_rules.specs.Rows.{formed_here};
ghost use Rattle.row_adding.specs.Forming.{ways_of, says, into_one, passes_none};
ghost use Rattle.row_adding.specs.Forming.{pointer_formed, function_formed};

use crate::bounds::alone;
use crate::flows::add;
use flow_graph::{FlowGraph, GraphFault, Link};
use lattice_core::{Direction, Lattice, Lattices};
use name_tables::name_records::Own;
use qual_base::{LatticeNo, SkelId, Span, StructId, TokenId, VarId};
use qual_types::{Kind, Look};
use row_world::{Known, contents, is_nothing};

/// What a lattice may say of pointers and structs.
#[derive(Clone, Copy, PartialEq, Eq, Debug, Drop)]
pub(crate) enum Saying {
    Up,
    Down,
    Field,
}

/// In which lattices what a pointer points to passes into the pointer, the pointer into what it points to, and a struct into
/// its members: a bit for each.
#[derive(Clone, Copy, PartialEq, Eq, Debug, Drop)]
pub(crate) struct Ways {
    up: u16,
    down: u16,
    field: u16,
}

/// Whether a lattice says something. Constant time.
fn says(lattice: &Lattice, saying: Saying) -> bool
    ensures { result ≡ says saying lattice.now.flows }
{
    match saying {
        Saying::Up => match lattice.ptrflow() {
            Some(Direction::Up) => true,
            Some(Direction::Down) => false,
            None => false,
        },
        Saying::Down => match lattice.ptrflow() {
            Some(Direction::Up) => false,
            Some(Direction::Down) => true,
            None => false,
        },
        Saying::Field => lattice.fieldflow(),
    }
}

/// The lattices from one on that say something, a bit for each. In at most 16 steps.
#[cycle(lattices)]
#[tactic(auto, using(crate::proofs::Passing::said_here, crate::proofs::Passing::not_said, crate::proofs::Passing::none_left, crate::proofs::Cutting::doubled))]
fn lattices_from(lattices: &Lattices, saying: Saying, n: u8) -> u16
    requires { n ≤ 16 }
    ensures is { result ≡ rules.lattices_from (says saying) n (drop n lattices.now) }
    ensures few { result + 2 ^ n ≤ 2 ^ 16 }
{
    if n >= lattices.len() {
        return 0;
    }
    let others = lattices_from(lattices, saying, n + 1);
    let lattice = LatticeNo::new(n);
    if says(lattices.get(lattice), saying) {
        others + alone(lattice)
    } else {
        others
    }
}

/// In which lattices what passes. In at most 48 steps.
fn all_ways(lattices: &Lattices) -> Ways
    ensures { ways_of result ≡ rules.ways_in lattices.now }
{
    Ways {
        up: lattices_from(lattices, Saying::Up, 0),
        down: lattices_from(lattices, Saying::Down, 0),
        field: lattices_from(lattices, Saying::Field, 0),
    }
}

/// Whether nothing passes in any lattice.
fn passes_none(ways: &Ways) -> bool
    ensures { result ≡ passes_none (ways_of ways.now) }
{
    ways.up == 0 && ways.down == 0 && ways.field == 0
}

/// One variable flows into another, in some lattices; nothing where these are none.
#[tactic(auto, using(crate::proofs::Lists::with_none))]
fn add_some(
    graph: &mut FlowGraph,
    lattices: u16,
    span: &Span,
    from: VarId,
    to: VarId,
) -> Result<(), GraphFault>
    requires from { IsVar from }
    requires to { IsVar to }
    ensures ok { OnOk result
        (graph.new ≡ with graph.old (rules.in_some lattices span.now (Le from to))) }
    ensures err { IfErr result (λ fault. StopsEarly graph.old graph.new fault
        (rules.in_some lattices span.now (Le from to))) }
{
    if lattices == 0 {
        return Ok(());
    }
    add(graph, lattices, span, Link::Le(from, to))
}

/// What passes between a pointer and what it points to.
fn pointing(
    graph: &mut FlowGraph,
    ways: &Ways,
    span: &Span,
    pointer: VarId,
    inside: VarId,
) -> Result<(), GraphFault>
    requires pointer { IsVar pointer }
    requires inside { IsVar inside }
    ensures ok { OnOk result (graph.new ≡ with graph.old
        (rules.pointing (ways_of ways.now) span.now pointer inside)) }
    ensures err { IfErr result (λ fault. StopsEarly graph.old graph.new fault
        (rules.pointing (ways_of ways.now) span.now pointer inside)) }
{
    add_some(graph, ways.up, span, inside, pointer)?;
    add_some(graph, ways.down, span, pointer, inside)
}

/// What passes from a struct into a member with a skeleton.
fn into_member(
    known: &Known,
    graph: &mut FlowGraph,
    ways: &Ways,
    span: &Span,
    of: VarId,
    member: SkelId,
) -> Result<(), GraphFault>
    requires { IsVar of }
    ensures ok { OnOk result (graph.new ≡ with graph.old
        (rules.into_member (ways_of ways.now) span.now of (skel known.now member))) }
    ensures err { IfErr result (λ fault. StopsEarly graph.old graph.new fault
        (rules.into_member (ways_of ways.now) span.now of (skel known.now member))) }
{
    if is_nothing(known.vars, member) {
        return Ok(());
    }
    let inside = known.vars.var(contents(known.vars, member));
    add_some(graph, ways.field, span, of, inside)
}

/// What passes from a struct into an own member.
fn into_own(
    known: &Known,
    graph: &mut FlowGraph,
    ways: &Ways,
    span: &Span,
    of: VarId,
    own: &Own,
) -> Result<(), GraphFault>
    requires { IsVar of }
    ensures ok { OnOk result (Adds known.now graph.old graph.new
        (λ w. into_one (ways_of ways.now) w.skeletons span.now of (shown.own_of (type known.now) own.now))) }
    ensures err { IfErr result (λ fault. Halts known.now graph.old graph.new fault
        (λ w. into_one (ways_of ways.now) w.skeletons span.now of (shown.own_of (type known.now) own.now))) }
{
    into_member(known, graph, ways, span, of, known.skeleton(&own.at))
}

/// What passes from a struct into its own members. Linear in them.
fn into_members(
    known: &Known,
    graph: &mut FlowGraph,
    ways: &Ways,
    span: &Span,
    of: VarId,
    own: &[Own],
) -> Result<(), GraphFault>
    requires { IsVar of }
    ensures ok { OnOk result (Adds known.now graph.old graph.new (λ w. rules.into_members
        (ways_of ways.now) w.skeletons span.now of (map (shown.own_of (type known.now)) own.now))) }
    ensures err { IfErr result (λ fault. Halts known.now graph.old graph.new fault
        (λ w. rules.into_members (ways_of ways.now) w.skeletons span.now of
        (map (shown.own_of (type known.now)) own.now))) }
{
    for it in own {
        into_own(known, graph, ways, span, of, it)?;
    }
    Ok(())
}

/// What passes from a struct of a number into its members, where it has a body. Linear in the members, in lattices that let it
/// pass; else constant time.
#[tactic(auto, using(crate::proofs::Lists::with_none, crate::proofs::Passing::members_added, crate::proofs::Passing::members_stop))]
fn into_struct(
    known: &Known,
    graph: &mut FlowGraph,
    ways: &Ways,
    span: &Span,
    of: VarId,
    number: StructId,
) -> Result<(), GraphFault>
    requires { IsVar of }
    ensures ok { OnOk result (Adds known.now graph.old graph.new (λ w. rules.into_members
        (ways_of ways.now) w.skeletons span.now of (own_of w.names.aggregates number))) }
    ensures err { IfErr result (λ fault. Halts known.now graph.old graph.new fault
        (λ w. rules.into_members (ways_of ways.now) w.skeletons span.now of
        (own_of w.names.aggregates number))) }
{
    if ways.field == 0 {
        return Ok(());
    }
    match known.names.body(number) {
        Some(body) => into_members(known, graph, ways, span, of, body.own()),
        None => Ok(()),
    }
}

/// What passes from a constructor without parts into its members.
fn into_fields(
    known: &Known,
    graph: &mut FlowGraph,
    ways: &Ways,
    span: &Span,
    of: VarId,
    kind: Kind,
) -> Result<(), GraphFault>
    requires { IsVar of }
    ensures ok { OnOk result (Adds known.now graph.old graph.new
        (λ w. rules.into_fields (ways_of ways.now) w.skeletons w.names.aggregates span.now of kind)) }
    ensures err { IfErr result (λ fault. Halts known.now graph.old graph.new fault
        (λ w. rules.into_fields (ways_of ways.now) w.skeletons w.names.aggregates span.now of kind)) }
{
    match kind {
        Kind::Struct(number) => into_struct(known, graph, ways, span, of, number),
        Kind::Base => Ok(()),
        Kind::Void => Ok(()),
        Kind::Nothing => Ok(()),
    }
}

/// What passes between a pointer and what it points to, in each world.
fn point(
    known: &Known,
    graph: &mut FlowGraph,
    ways: &Ways,
    span: &Span,
    pointer: VarId,
    inside: SkelId,
) -> Result<(), GraphFault>
    requires { IsVar pointer }
    ensures ok { OnOk result (Adds known.now graph.old graph.new (λ _. rules.pointing
        (ways_of ways.now) span.now pointer (root (skel known.now inside)))) }
    ensures err { IfErr result (λ fault. Halts known.now graph.old graph.new fault (λ _.
        rules.pointing (ways_of ways.now) span.now pointer (root (skel known.now inside)))) }
{
    pointing(graph, ways, span, pointer, known.vars.var(inside))
}

/// What passes inside a skeleton. Linear in it and in what is added.
#[cycle(forming)]
fn form_in(
    known: &Known,
    graph: &mut FlowGraph,
    ways: &Ways,
    span: &Span,
    at: SkelId,
) -> Result<(), GraphFault>
    ensures ok { OnOk result (Adds known.now graph.old graph.new
        (λ w. rules.formed_in (ways_of ways.now) w.skeletons w.names.aggregates span.now (skel known.now at))) }
    ensures err { IfErr result (λ fault. Halts known.now graph.old graph.new fault
        (λ w. rules.formed_in (ways_of ways.now) w.skeletons w.names.aggregates span.now (skel known.now at))) }
{
    match known.vars.look(at) {
        Look::Flat(var, kind) => into_fields(known, graph, ways, span, var, kind),
        Look::Ref(var, inside) => form_pointer(known, graph, ways, span, var, inside),
        Look::Fun {
            first,
            result: back,
            ..
        } => form_function(known, graph, ways, span, at, first, back),
    }
}

/// What passes between a pointer and what it points to, and inside that.
#[cycle(forming)]
fn form_pointer(
    known: &Known,
    graph: &mut FlowGraph,
    ways: &Ways,
    span: &Span,
    pointer: VarId,
    inside: SkelId,
) -> Result<(), GraphFault>
    requires { IsVar pointer }
    ensures ok { OnOk result (Adds known.now graph.old graph.new (λ w. pointer_formed
        (ways_of ways.now) w span.now pointer (skel known.now inside))) }
    ensures err { IfErr result (λ fault. Halts known.now graph.old graph.new fault
        (λ w. pointer_formed (ways_of ways.now) w span.now pointer (skel known.now inside))) }
{
    point(known, graph, ways, span, pointer, inside)?;
    form_in(known, graph, ways, span, inside)
}

/// What passes inside the parameters and the result of a function.
#[cycle(forming)]
fn form_function(
    known: &Known,
    graph: &mut FlowGraph,
    ways: &Ways,
    span: &Span,
    of: SkelId,
    first: SkelId,
    back: SkelId,
) -> Result<(), GraphFault>
    requires first { IsLink (length known.now.vars.now) of first }
    requires back { IsLink (length known.now.vars.now) of back }
    ensures ok { OnOk result (Adds known.now graph.old graph.new (λ w. function_formed
        (ways_of ways.now) w span.now (params_from known.now.vars.now first)
        (skel known.now back))) }
    ensures err { IfErr result (λ fault. Halts known.now graph.old graph.new fault
        (λ w. function_formed (ways_of ways.now) w span.now
        (params_from known.now.vars.now first) (skel known.now back))) }
{
    form_params(known, graph, ways, span, first)?;
    form_in(known, graph, ways, span, back)
}

/// What passes inside the parameters of a function, from one on.
#[cycle(forming)]
fn form_params(
    known: &Known,
    graph: &mut FlowGraph,
    ways: &Ways,
    span: &Span,
    from: SkelId,
) -> Result<(), GraphFault>
    ensures ok { OnOk result (Adds known.now graph.old graph.new (λ w. rules.all_formed_in
        (ways_of ways.now) w.skeletons w.names.aggregates span.now (params_from known.now.vars.now from))) }
    ensures err { IfErr result (λ fault. Halts known.now graph.old graph.new fault
        (λ w. rules.all_formed_in (ways_of ways.now) w.skeletons w.names.aggregates span.now
        (params_from known.now.vars.now from))) }
{
    match known.vars.next_part(from) {
        Some(next) => {
            form_in(known, graph, ways, span, from)?;
            form_params(known, graph, ways, span, next)
        }
        None => Ok(()),
    }
}

/// What passes inside a skeleton that is made. Where no lattice says anything of pointers and structs, at most 48
/// steps; else linear in the skeleton and in what is added.
pub fn form(known: &Known, graph: &mut FlowGraph, at: SkelId, span: &Span) -> Result<(), GraphFault>
    ensures ok { OnOk result (Adds known.now graph.old graph.new
        (λ w. rules.formed w span.now (skel known.now at))) }
    ensures err { IfErr result (λ fault. Halts known.now graph.old graph.new fault
        (λ w. rules.formed w span.now (skel known.now at))) }
{
    let ways = all_ways(known.lattices);
    if passes_none(&ways) {
        return Ok(());
    }
    form_in(known, graph, &ways, span, at)
}

/// What passes inside the skeleton of an expression of one token.
pub fn form_here(known: &Known, graph: &mut FlowGraph, token: TokenId) -> Result<(), GraphFault>
    ensures ok { OnOk result (Adds known.now graph.old graph.new
        (λ w. formed_here w token)) }
    ensures err { IfErr result (λ fault. Halts known.now graph.old graph.new fault
        (λ w. formed_here w token)) }
{
    let at = known.own(token);
    let span = known.span(token, token);
    form(known, graph, at, &span)
}
