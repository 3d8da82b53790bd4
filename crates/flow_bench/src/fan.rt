//! Many callers of one function.

ghost use Rattle.std.specs.Prelude.{◌≤◌, ◌<◌};

use crate::failure::Failure;
use crate::making::{add, add_site, bound, constant, enter, le, leave, own};
use flow_graph::FlowGraph;

/// How many parameters the function has. Its result is the variable behind them.
const PARAMETERS: u32 = 100;

/// The flows of the function's parameters into its result.
fn add_function(graph: &mut FlowGraph) -> Result<(), Failure> {
    own(graph, 0, 0, PARAMETERS + 1)?;
    for n in 0..PARAMETERS {
        add(graph, le(n, PARAMETERS))?;
    }
    Ok(())
}

/// A caller with an argument for each parameter and a result, its variables from a number on, and its site.
fn add_caller(graph: &mut FlowGraph, caller: u32) -> Result<(), Failure>
    requires { caller < 1000000 }
{
    let first = (PARAMETERS + 1) * (caller + 1);
    own(graph, caller + 1, first, PARAMETERS + 1)?;
    add_site(graph, caller + 1, 0)?;
    for n in 0..PARAMETERS {
        add(graph, enter(caller, first + n, n))?;
    }
    add(graph, leave(caller, PARAMETERS, first + PARAMETERS))
}

/// Callers of one function. A constant goes into the first call, and a bound limits what comes out of it.
pub fn add_fan(graph: &mut FlowGraph, callers: u32) -> Result<(), Failure>
    requires { callers ≤ 1000000 }
{
    add_function(graph)?;
    for caller in 0..callers {
        add_caller(graph, caller)?;
    }
    add(graph, constant(PARAMETERS + 1))?;
    add(graph, bound(2 * PARAMETERS + 1))
}
