//! What the table of variables knows of a variable.

ghost use Rattle.std.specs.Prelude.{◌≡◌};
ghost use Rattle.qual_types.specs.Rows.{above, owner_set, mark_set};

use crate::position::Step;
use qual_base::{FuncId, Owner, SkelId, StructId, TokenId, UnitNo, VarId};

/// The constructor that a variable stands at. What a reference holds has the next number, and so has the first part of a
/// function, whose result is named here.
#[derive(Clone, Copy, PartialEq, Eq, Debug)]
pub enum Node {
    Base,
    Void,
    Struct(StructId),
    Ref,
    Fun(SkelId),
    Ellipsis,
}

/// What a constructor is a part of: a skeleton's root of none, the others of the constructor around them.
#[derive(Clone, Copy, PartialEq, Eq, Debug)]
pub enum Parent {
    OfNobody {
        unit: UnitNo,
        token: TokenId,
    },
    OfFunction {
        unit: UnitNo,
        token: TokenId,
        function: FuncId,
    },
    Inside {
        of: SkelId,
    },
    /// With the part of the function behind it.
    Param {
        of: SkelId,
        index: u32,
        next: SkelId,
    },
    /// With the variable of the function's further arguments.
    Result {
        of: SkelId,
        ellipsis: Option<VarId>,
    },
    Ellipsis {
        of: SkelId,
    },
}

/// A variable: its constructor, and what that is a part of.
#[derive(Clone, Copy, PartialEq, Eq, Debug)]
pub struct VarRow {
    pub node: Node,
    pub parent: Parent,
}

impl Parent {
    /// What a skeleton's root is a part of: nothing.
    pub fn top(unit: UnitNo, token: TokenId, owner: Owner) -> Parent
        ensures none { above result ≡ Rattle.std.specs.Prelude.None }
        ensures owner { owner_set result ≡ Rattle.std.specs.Prelude.Some owner }
        ensures mark { mark_set result ≡ Rattle.std.specs.Prelude.Some (unit, token) }
    {
        match owner {
            Owner::Nobody => Parent::OfNobody { unit, token },
            Owner::Function(function) => Parent::OfFunction {
                unit,
                token,
                function,
            },
        }
    }

    /// The constructor that it is a part of, and the step from there.
    pub fn above(self) -> Option<(SkelId, Step)>
        ensures { result ≡ above self }
    {
        match self {
            Parent::OfNobody { .. } => None,
            Parent::OfFunction { .. } => None,
            Parent::Inside { of } => Some((of, Step::Inside)),
            Parent::Param { of, index, .. } => Some((of, Step::Param(index))),
            Parent::Result { of, .. } => Some((of, Step::Result)),
            Parent::Ellipsis { of } => Some((of, Step::Ellipsis)),
        }
    }

    /// The unit and the token, where it is a skeleton's root.
    pub fn mark(self) -> Option<(UnitNo, TokenId)>
        ensures { result ≡ mark_set self }
    {
        match self {
            Parent::OfNobody { unit, token } => Some((unit, token)),
            Parent::OfFunction { unit, token, .. } => Some((unit, token)),
            Parent::Inside { .. } => None,
            Parent::Param { .. } => None,
            Parent::Result { .. } => None,
            Parent::Ellipsis { .. } => None,
        }
    }
}
