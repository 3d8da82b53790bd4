//! One call of a function with many parameters and results.

ghost use Rattle.std.specs.Prelude.{◌≤◌, ◌<◌};

use crate::failure::Failure;
use crate::making::{add, add_site, bound, constant, enter, le, leave, own};
use flow_graph::FlowGraph;

/// The variables of a system by the number of parameters: the first function has one that comes in, the arguments behind it
/// and the outcomes behind those; the second has its parameters and its results; the last one calls the first.
#[derive(Clone, Copy)]
struct Layout {
    count: u32,
}

impl Layout {
    fn argument(self, n: u32) -> u32
        requires count { self.count ≤ 1000000 }
        requires n { n < self.count }
    {
        1 + n
    }

    fn outcome(self, n: u32) -> u32
        requires count { self.count ≤ 1000000 }
        requires n { n ≤ self.count }
    {
        1 + self.count + n
    }

    fn parameter(self, n: u32) -> u32
        requires count { self.count ≤ 1000000 }
        requires n { n < self.count }
    {
        1 + 2 * self.count + n
    }

    fn result(self, n: u32) -> u32
        requires count { self.count ≤ 1000000 }
        requires n { n ≤ self.count }
    {
        1 + 3 * self.count + n
    }
}

/// What comes in flows into an argument, a parameter, its result and an outcome.
fn add_parameter(graph: &mut FlowGraph, layout: Layout, n: u32) -> Result<(), Failure>
    requires count { layout.count ≤ 1000000 }
    requires n { n < layout.count }
{
    add(graph, le(0, layout.argument(n)))?;
    add(graph, enter(0, layout.argument(n), layout.parameter(n)))?;
    add(graph, le(layout.parameter(n), layout.result(n)))?;
    add(graph, leave(0, layout.result(n), layout.outcome(n)))
}

/// A function that calls one with so many parameters, of which each comes back by a result of its own, and is called itself.
/// A constant goes into that call, and a bound limits the last outcome.
pub fn add_wide(graph: &mut FlowGraph, count: u32) -> Result<(), Failure>
    requires { count ≤ 1000000 }
{
    let layout = Layout { count };
    let outer = layout.result(count);
    own(graph, 0, 0, 1 + 2 * count)?;
    own(graph, 1, 1 + 2 * count, 2 * count)?;
    own(graph, 2, outer, 1)?;
    add_site(graph, 0, 1)?;
    add_site(graph, 2, 0)?;
    for n in 0..count {
        add_parameter(graph, layout, n)?;
    }
    add(graph, enter(1, outer, 0))?;
    add(graph, constant(outer))?;
    add(graph, bound(count + count))
}
