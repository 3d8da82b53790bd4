//! Path proofs: lists of steps that show how a constant exceeds a bound; and walks, which show how a variable leads to another.

use qual_base::EdgeId;

/// A step of a path: a constraint, or a sub-path by its number from 1. Lines count from 1 in the text that a step was
/// read from, and are 0 in a proof that was made.
#[derive(Clone, Copy, PartialEq, Eq, Debug)]
pub enum PathStep {
    Take { edge: EdgeId, line: u32 },
    Sub { number: u32, line: u32 },
}

/// A path inside one function, from one of its variables to another.
#[derive(Drop, Debug)]
pub struct SubPath {
    pub steps: Vec<PathStep>,
}

/// The sub-paths in order, the main path, and the line after the last one.
#[derive(Drop, Debug)]
pub struct PathProof {
    pub subs: Vec<SubPath>,
    pub main: Vec<PathStep>,
    pub end: u32,
}

/// The sub-paths in order, the steps from a variable to another, and the line after the last one.
#[derive(Drop, Debug)]
pub struct Walk {
    pub subs: Vec<SubPath>,
    pub steps: Vec<PathStep>,
    pub end: u32,
}

/// The rule that a step fails.
#[derive(Clone, Copy, PartialEq, Eq, Debug)]
pub enum Why {
    B1,
    B2,
    B3,
    B4,
    B5,
    B6,
    B7,
}

/// The first failing step's line, and the first rule that it fails.
#[derive(Clone, Copy, PartialEq, Eq, Debug)]
pub struct BadStep {
    pub line: u32,
    pub why: Why,
}
