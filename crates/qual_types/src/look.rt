//! A skeleton, one level deep.

use qual_base::{SkelId, StructId, VarId};

/// What a constructor without parts is.
#[derive(Clone, Copy, PartialEq, Eq, Debug)]
pub enum Kind {
    Base,
    Void,
    Struct(StructId),
    /// Of what has no skeleton: nothing flows from it or into it.
    Nothing,
}

/// A constructor with its variable, and its parts by their numbers.
#[derive(Clone, Copy, PartialEq, Eq, Debug)]
pub enum Look {
    Flat(VarId, Kind),
    Ref(VarId, SkelId),
    /// The parameters are the parts from the first one up to the result.
    Fun {
        var: VarId,
        first: SkelId,
        result: SkelId,
        ellipsis: Option<VarId>,
    },
}
