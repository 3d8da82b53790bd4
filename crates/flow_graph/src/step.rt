//! A step of a path proof with the steps around it: what the rules of path proofs speak of.

use crate::constraint::Constraint;
use qual_base::{Elem, LatticeNo, Owner, VarId};

/// What a step names: a constraint, a sub-path from a variable to another, or a number of neither.
#[derive(Clone, Copy, PartialEq, Eq, Debug)]
pub enum Seen {
    Edge(Constraint),
    Through(VarId, VarId),
    NoSub,
    NoEdge,
}

/// Which path it is: the main path, or a sub-path with the owner of its first variable.
#[derive(Clone, Copy, PartialEq, Eq, Debug)]
pub enum Path {
    Main,
    Sub(Owner),
}

/// A step with the steps around it in its path.
///
/// `in_call` says that an unmatched `Enter` stands before, with no variable of nobody since. `lattice` and `elem` are
/// those of the main path's first step.
#[derive(Clone, Copy, PartialEq, Eq, Debug)]
pub struct StepInPath {
    pub path: Path,
    pub two_before: Option<Seen>,
    pub one_before: Option<Seen>,
    pub step: Seen,
    pub one_after: Option<Seen>,
    pub in_call: bool,
    pub lattice: LatticeNo,
    pub elem: Elem,
}
