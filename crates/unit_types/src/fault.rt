//! Why units are not resolved.

use unit_shapes::Fault;

/// The first fault of names and types, or want of memory.
#[derive(Clone, Copy, PartialEq, Eq, Debug, Drop)]
pub enum ShapeFault {
    /// The rule that fails first, with its unit and its token.
    Found(Fault),
    /// There was not enough memory.
    NoMemory,
}
