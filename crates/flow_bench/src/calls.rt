//! Chains and rings of calls: function i owns variables 2i and 2i + 1, and calls function i + 1 at site i.

ghost use Rattle.std.specs.Prelude.{◌≤◌, ◌<◌, ◌+◌, ◌*◌};

use crate::failure::Failure;
use crate::making::{add, add_site, bound, constant, enter, le, leave, own};
use flow_graph::{FlowGraph, Link};

/// The functions with their variables, and the sites: one more function than calls.
fn add_functions(graph: &mut FlowGraph, calls: u32) -> Result<(), Failure>
    requires { calls ≤ 1000000 }
{
    for n in 0..calls + 1 {
        own(graph, n, 2 * n, 2)?;
    }
    for n in 0..calls {
        add_site(graph, n, n + 1)?;
    }
    Ok(())
}

/// How many constraints a chain has: two for each call, a flow, a constant and a bound.
fn length(calls: u32) -> u32
    requires { calls ≤ 1000000 }
    ensures { result ≤ 2000003 }
{
    2 * calls + 3
}

/// The constraint of a chain at a place: calls and returns, then the flow in the last function, then the constant that
/// goes into the first and the bound of what comes out of it.
fn link_at(calls: u32, at: u32) -> Link
    requires { calls ≤ 1000000 }
{
    let function = at / 2;
    if function < calls {
        if at % 2 == 0 {
            enter(function, 2 * function, 2 * function + 2)
        } else {
            leave(function, 2 * function + 3, 2 * function + 1)
        }
    } else {
        last_link(calls, at)
    }
}

/// The constraint behind all calls and returns.
fn last_link(calls: u32, at: u32) -> Link
    requires { calls ≤ 1000000 }
{
    if at == 2 * calls {
        le(2 * calls, 2 * calls + 1)
    } else if at == 2 * calls + 1 {
        constant(0)
    } else {
        bound(1)
    }
}

/// Each function calls the next one.
pub fn add_chain(graph: &mut FlowGraph, calls: u32) -> Result<(), Failure>
    requires { calls ≤ 1000000 }
{
    add_functions(graph, calls)?;
    for at in 0..length(calls) {
        add(graph, link_at(calls, at))?;
    }
    Ok(())
}

/// The same constraints from the last to the first.
pub fn add_reversed(graph: &mut FlowGraph, calls: u32) -> Result<(), Failure>
    requires { calls ≤ 1000000 }
{
    add_functions(graph, calls)?;
    let length = length(calls);
    for at in 0..length {
        add(graph, link_at(calls, length - 1 - at))?;
    }
    Ok(())
}

/// A chain whose last function calls the first.
pub fn add_ring(graph: &mut FlowGraph, calls: u32) -> Result<(), Failure>
    requires { calls ≤ 1000000 }
{
    add_chain(graph, calls)?;
    add_site(graph, calls, 0)?;
    add(graph, enter(calls, 2 * calls, 0))?;
    add(graph, leave(calls, 1, 2 * calls + 1))
}
