//! Why there is no system.

ghost use Rattle.std.specs.Prelude.{◌≡◌};
ghost use Rattle.unit_system.specs.declared.fault.GenerateFault.TheVariants as faults;
ghost use Rattle.flow_graph.specs.declared.graph.GraphFault.TheVariants as graph_faults;
ghost use Rattle.qual_types.specs.declared.table.QualFault.TheVariants as qual_faults;

use flow_graph::GraphFault;
use qual_types::QualFault;
use thiserror::Error;

/// More variables or constraints than there may be, or want of memory.
#[derive(Clone, Copy, PartialEq, Eq, Debug, Drop, Error)]
pub enum GenerateFault {
    /// There are more than 16,777,216 qualifier variables.
    #[error("too many qualifier variables")]
    TooManyVariables,
    /// There are more than 67,108,864 constraints.
    #[error("too many constraints")]
    TooManyConstraints,
    /// There was not enough memory.
    #[error("no memory")]
    NoMemory,
}

/// Why skeletons are not numbered.
pub(crate) fn of_variables(fault: QualFault) -> GenerateFault
    ensures cause { result ≡ faults.TooManyVariables → fault ≡ qual_faults.TooMany }
    ensures apart { result ≡ faults.TooManyConstraints → ⊥ }
{
    match fault {
        QualFault::TooMany => GenerateFault::TooManyVariables,
        QualFault::NoMemory => GenerateFault::NoMemory,
    }
}

/// Why constraints are not added.
pub(crate) fn of_constraints(fault: GraphFault) -> GenerateFault
    ensures cause { result ≡ faults.TooManyConstraints → fault ≡ graph_faults.TooMany }
    ensures apart { result ≡ faults.TooManyVariables → ⊥ }
{
    match fault {
        GraphFault::TooMany => GenerateFault::TooManyConstraints,
        GraphFault::NoMemory => GenerateFault::NoMemory,
    }
}
