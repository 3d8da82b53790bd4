//! How pairs of variables are added.

use qual_base::{SiteId, SkelId, Span, VarId};

/// What a pair of variables of two skeletons is: a flow; or, between a function's signature and an instance of it at a
/// call site, a return from there or a call into it.
#[derive(Clone, Copy, PartialEq, Eq, Debug)]
pub enum Arrow {
    Flow,
    Cross(SiteId),
}

/// How the constraints of one list are added: as what, in which lattices, and from which tokens.
#[derive(Clone, Copy, PartialEq, Eq, Debug)]
pub struct Style {
    pub arrow: Arrow,
    pub lattices: u16,
    pub span: Span,
}

/// The parts of a function: the first of them, from which the parameters go up to the result, the result, and the variable
/// of its further arguments.
#[derive(Clone, Copy, PartialEq, Eq, Debug)]
pub struct Parts {
    pub first: SkelId,
    pub back: SkelId,
    pub ellipsis: Option<VarId>,
}
