//! Why a matched path leads from one variable to another.

ghost use Rattle.std.specs.Prelude.{◌≡◌};
ghost use Rattle.match_summary.specs.Reason.{before_of};

use qual_base::{EdgeId, VarId};

/// The last part of a matched path: a flow from a variable, or a group, which is an `Enter`, nothing or a matched path,
/// and a `Leave` of the same site. What comes before the part is nothing or a matched path.
#[derive(Clone, Copy, PartialEq, Eq, Debug)]
pub enum Reason {
    Last(EdgeId, VarId),
    Group {
        before: VarId,
        enter: EdgeId,
        leave: EdgeId,
    },
}

/// A matched path of one or more parts leads from a variable to another, and this is its last part.
#[derive(Clone, Copy, PartialEq, Eq, Debug)]
pub struct Summary {
    pub from: VarId,
    pub to: VarId,
    pub why: Reason,
}

impl Reason {
    /// The variable where the last part begins.
    pub fn before(&self) -> VarId
        ensures { result ≡ before_of self.now }
    {
        match self {
            Reason::Last(_, before) => *before,
            Reason::Group { before, .. } => *before,
        }
    }
}
