//! Systems drawn by a linear congruential generator.

ghost use Rattle.std.specs.Prelude.{◌≤◌, ◌<◌};

use crate::failure::Failure;
use crate::making::{add, add_site, bound, constant, enter, le, leave, own};
use flow_graph::{FlowGraph, Link};
use qual_base::{Numbered, Owner, SiteId};

/// How many variables a function has.
const VARIABLES: u32 = 8;

/// For so many functions there is a constant, and a bound.
const APART: u32 = 8;

/// A linear congruential generator (Knuth's multiplier for 64 bits).
#[derive(Drop)]
struct Draws {
    state: u64,
}

impl Draws {
    fn new() -> Self {
        Draws { state: 1 }
    }

    /// The next number below a limit, by the upper bits of the state.
    fn below(&mut self, limit: u32) -> u32
        requires { 0 < limit }
        ensures { result < limit }
    {
        self.state = self
            .state
            .wrapping_mul(6_364_136_223_846_793_005)
            .wrapping_add(1_442_695_040_888_963_407);
        let upper = (self.state >> 33) as u32;
        upper % limit
    }

    /// A variable of a function.
    fn variable(&mut self, function: u32) -> u32 {
        VARIABLES
            .wrapping_mul(function)
            .wrapping_add(self.below(VARIABLES))
    }
}

/// A variable of an owner. Nobody owns none.
fn variable_of(draws: &mut Draws, owner: Owner) -> Result<u32, Failure> {
    match owner {
        Owner::Function(f) => Ok(draws.variable(f.number())),
        Owner::Nobody => Err(Failure::Unfit),
    }
}

/// A call at a site, or a return.
fn crossing(graph: &FlowGraph, draws: &mut Draws, is_call: bool) -> Result<Link, Failure> {
    let sites = graph.sites();
    if sites == 0 {
        return Err(Failure::Unfit);
    }
    let at = draws.below(sites);
    let site = graph.site(SiteId::new(at));
    let outer = variable_of(draws, site.owner)?;
    let inner = draws.variable(site.target.number());
    if is_call {
        Ok(enter(at, outer, inner))
    } else {
        Ok(leave(at, inner, outer))
    }
}

/// A flow inside a function in half of the cases, else a call or a return.
fn drawn(graph: &FlowGraph, draws: &mut Draws, functions: u32) -> Result<Link, Failure>
    requires { 0 < functions }
{
    match draws.below(4) {
        0 => crossing(graph, draws, true),
        1 => crossing(graph, draws, false),
        _ => {
            let function = draws.below(functions);
            let from = draws.variable(function);
            Ok(le(from, draws.variable(function)))
        }
    }
}

/// The functions with their variables, and as many sites.
fn add_functions(graph: &mut FlowGraph, draws: &mut Draws, functions: u32) -> Result<(), Failure>
    requires { 0 < functions }
{
    for n in 0..functions {
        own(graph, n, VARIABLES.wrapping_mul(n), VARIABLES)?;
        add_site(graph, draws.below(functions), draws.below(functions))?;
    }
    Ok(())
}

/// So many constants of drawn variables, and as many bounds.
fn add_ends(
    graph: &mut FlowGraph,
    draws: &mut Draws,
    functions: u32,
    ends: u32,
) -> Result<(), Failure>
    requires { 0 < functions }
{
    for _ in 0..ends {
        let function = draws.below(functions);
        add(graph, constant(draws.variable(function)))?;
        let function = draws.below(functions);
        add(graph, bound(draws.variable(function)))?;
    }
    Ok(())
}

/// So many constraints, or those that are constants and bounds where these are more. There is a function for each eight
/// constraints, and a constant and a bound for each eight functions.
pub fn add_random(graph: &mut FlowGraph, size: u32) -> Result<(), Failure>
    requires { size ≤ 1000000 }
{
    let mut draws = Draws::new();
    let functions = size / VARIABLES + 1;
    add_functions(graph, &mut draws, functions)?;
    let ends = functions / APART + 1;
    add_ends(graph, &mut draws, functions, ends)?;
    for _ in 2 * ends..size {
        let link = drawn(graph, &mut draws, functions)?;
        add(graph, link)?;
    }
    Ok(())
}
