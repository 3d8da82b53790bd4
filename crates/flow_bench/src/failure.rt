//! Why there are no counts.

use flow_graph::GraphFault;
use lattice_core::LatticeFault;
use qual_base::NoMemory;
use std::alloc::{AllocError, AllocFailed};
use std::io;

/// What ends the program with status 1.
#[derive(Clone, Copy, PartialEq, Eq, Debug)]
pub enum Failure {
    /// The words have no meaning.
    Words,
    /// A number of the system is past its limit, or a constraint joins variables that it may not join.
    Unfit,
    /// The counts were not written.
    Write,
    /// There was not enough memory.
    NoMemory,
}

impl From<NoMemory> for Failure {
    fn from(_error: NoMemory) -> Failure {
        Failure::NoMemory
    }
}

impl From<AllocError> for Failure {
    fn from(_error: AllocError) -> Failure {
        Failure::NoMemory
    }
}

impl<T: Drop> From<AllocFailed<T>> for Failure {
    fn from(_error: AllocFailed<T>) -> Failure {
        Failure::NoMemory
    }
}

impl From<GraphFault> for Failure {
    fn from(error: GraphFault) -> Failure {
        match error {
            GraphFault::TooMany => Failure::Unfit,
            GraphFault::NoMemory => Failure::NoMemory,
        }
    }
}

impl From<LatticeFault> for Failure {
    fn from(_error: LatticeFault) -> Failure {
        Failure::Unfit
    }
}

impl From<io::Error> for Failure {
    fn from(_error: io::Error) -> Failure {
        Failure::Write
    }
}
