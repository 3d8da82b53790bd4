//! The phases of a path from a constant.

/// The first phase of a path is without an open call, the second has one.
#[derive(Clone, Copy, PartialEq, Eq, Debug)]
pub enum Phase {
    First,
    Second,
}
