//! Skeletons by their numbers: what operators make of them. Each call takes constant time, but for what is said.

ghost use Rattle.std.specs.Prelude.{◌≡◌, ℕ, option_map};
ghost use Rattle.qual_types.specs.Skel.{no_skeleton, param_at};
ghost use Rattle.qual_types.specs.Rows.{skel_of};
ghost use Rattle.qual_types.specs.Table.{IsSomeVar};
ghost use Rattle.row_rules.specs.Annotations.{parameters, further, outcome};
ghost use Rattle.row_rules.specs.Vals as vals;

use qual_base::{Numbered, SkelId, VarId};
use qual_types::{Kind, Look, VarTable};

/// What stands for the skeleton of what has none.
#[tactic(auto, using(crate::proofs::Past::nowhere_is))]
pub fn nowhere(vars: &VarTable) -> SkelId
    ensures { skel_of vars.now result ≡ no_skeleton }
{
    vars.law();
    SkelId::new(u32::MAX)
}

/// What a reference holds; of what is none, itself.
pub fn contents(vars: &VarTable, at: SkelId) -> SkelId
    ensures { skel_of vars.now result ≡ vals.contents (skel_of vars.now at) }
{
    match vars.look(at) {
        Look::Ref(_, inside) => inside,
        Look::Flat(_, _) => at,
        Look::Fun { .. } => at,
    }
}

/// The value of a place: what it holds, or the place itself where that is a function.
pub fn read(vars: &VarTable, at: SkelId) -> SkelId
    ensures { skel_of vars.now result ≡ vals.read (skel_of vars.now at) }
{
    match vars.look(at) {
        Look::Ref(_, inside) => match vars.look(inside) {
            Look::Fun { .. } => at,
            Look::Flat(_, _) => inside,
            Look::Ref(_, _) => inside,
        },
        Look::Flat(_, _) => at,
        Look::Fun { .. } => at,
    }
}

/// Whether it is a reference.
pub fn is_ref(vars: &VarTable, at: SkelId) -> bool
    ensures { result ≡ vals.is_ref (skel_of vars.now at) }
{
    match vars.look(at) {
        Look::Ref(_, _) => true,
        Look::Flat(_, _) => false,
        Look::Fun { .. } => false,
    }
}

/// Whether it is a function.
pub fn is_fun(vars: &VarTable, at: SkelId) -> bool
    ensures { result ≡ vals.is_fun (skel_of vars.now at) }
{
    match vars.look(at) {
        Look::Ref(_, _) => false,
        Look::Flat(_, _) => false,
        Look::Fun { .. } => true,
    }
}

/// Whether it is none: that of what has no skeleton.
pub fn is_nothing(vars: &VarTable, at: SkelId) -> bool
    ensures { result ≡ vals.is_nothing (skel_of vars.now at) }
{
    match vars.look(at) {
        Look::Flat(_, Kind::Nothing) => true,
        Look::Flat(_, Kind::Void) => false,
        Look::Flat(_, Kind::Base) => false,
        Look::Flat(_, Kind::Struct(_)) => false,
        Look::Ref(_, _) => false,
        Look::Fun { .. } => false,
    }
}

/// Whether it is `void`, or none.
pub fn is_empty(vars: &VarTable, at: SkelId) -> bool
    ensures { result ≡ vals.is_empty (skel_of vars.now at) }
{
    match vars.look(at) {
        Look::Flat(_, Kind::Nothing) => true,
        Look::Flat(_, Kind::Void) => true,
        Look::Flat(_, Kind::Base) => false,
        Look::Flat(_, Kind::Struct(_)) => false,
        Look::Ref(_, _) => false,
        Look::Fun { .. } => false,
    }
}

/// What a function gives; of what is none, itself.
pub fn outcome(vars: &VarTable, at: SkelId) -> SkelId
    ensures result { skel_of vars.now result ≡ vals.result (skel_of vars.now at) }
    ensures outcome { skel_of vars.now result ≡ outcome (skel_of vars.now at) }
{
    match vars.look(at) {
        Look::Fun { result: back, .. } => back,
        Look::Flat(_, _) => at,
        Look::Ref(_, _) => at,
    }
}

/// The variable of a function's further arguments.
pub fn further(vars: &VarTable, at: SkelId) -> Option<VarId>
    ensures value { result ≡ further (skel_of vars.now at) }
    ensures low { IsSomeVar result }
{
    match vars.look(at) {
        Look::Fun { ellipsis, .. } => ellipsis,
        Look::Flat(_, _) => None,
        Look::Ref(_, _) => None,
    }
}

/// A function's parameter of a number from 0. Linear in that number.
#[tactic(auto, using(crate::proofs::Past::same_parameters))]
pub fn parameter(vars: &VarTable, at: SkelId, i: u32) -> Option<SkelId>
    ensures { option_map (skel_of vars.now) result
        ≡ param_at (parameters (skel_of vars.now at)) i }
{
    vars.param(at, i)
}
