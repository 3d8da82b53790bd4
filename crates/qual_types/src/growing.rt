//! The rows of a skeleton, behind those that are there.

ghost use Rattle.std.specs.Prelude.{◌≡◌, ◌+◌, ◌<◌, ◌≤◌, ◌^◌, ◌++◌, ◌∷◌, [], MatchOption, length};
ghost use Rattle.std.specs.Prelude.{vec_len, vec_capacity};
ghost use Rattle.type_table.specs.Types.{size, sizes};
ghost use Rattle.type_table.specs.Rows.{type_of, types_of, types_at};
ghost use Rattle.qual_types.specs.Skel.{within};
ghost use Rattle.qual_types.specs.Rows.{rows_of, param_rows};
ghost use Rattle.qual_types.specs.Table.{Grown, IsHeld};

use crate::row::{Node, Parent, VarRow};
use qual_base::{Numbered, Owner, SkelId, TokenId, TypeId, UnitNo, VarId};
use type_table::{Shape, TypeTable};

/// The rows of a skeleton behind those of a table. There is room for them.
#[tactic(auto, using(crate::proofs::Growth::grown))]
pub fn grow_skeleton(
    rows: &mut Vec<VarRow>,
    types: &TypeTable,
    ty: TypeId,
    outer: bool,
    unit: UnitNo,
    token: TokenId,
    owner: Owner,
)
    requires held { IsHeld rows.old.items }
    requires room { vec_len rows.old + size
        (within outer (type_of types.now ty)) ≤ vec_capacity rows.old }
    requires few { vec_len rows.old + size (within outer (type_of types.now ty)) ≤ 2 ^ 24 }
    ensures { Grown rows.old.items rows.new.items
        (within outer (type_of types.now ty)) owner (unit, token) }
{
    grow_within(rows, types, ty, outer, Parent::top(unit, token, owner));
}

/// The rows of a type, inside one more reference where `outer` is true. There is room for them.
fn grow_within(rows: &mut Vec<VarRow>, types: &TypeTable, ty: TypeId, outer: bool, parent: Parent)
    requires room { vec_len rows.old + size
        (within outer (type_of types.now ty)) ≤ vec_capacity rows.old }
    requires few { vec_len rows.old + size (within outer (type_of types.now ty)) ≤ 2 ^ 24 }
    ensures { rows.new.items
        ≡ rows.old.items ++ rows_of (within outer (type_of types.now ty)) (vec_len rows.old)
        parent }
{
    if outer {
        let at = SkelId::new(rows.len() as u32);
        rows.push_reserved(VarRow {
            node: Node::Ref,
            parent,
        });
        grow(rows, types, ty, Parent::Inside { of: at });
    } else {
        grow(rows, types, ty, parent);
    }
}

/// The rows of a type. There is room for them.
#[cycle(grow)]
#[tactic(auto, using(crate::proofs::Sizes::capped_small, crate::proofs::Sizes::rows_append, crate::proofs::Sizes::some_size, crate::proofs::Sizes::as_many))]
fn grow(rows: &mut Vec<VarRow>, types: &TypeTable, ty: TypeId, parent: Parent)
    requires room { vec_len rows.old + size (type_of types.now ty) ≤ vec_capacity rows.old }
    requires few { vec_len rows.old + size (type_of types.now ty) ≤ 2 ^ 24 }
    ensures items { rows.new.items
        ≡ rows.old.items ++ rows_of (type_of types.now ty) (vec_len rows.old) parent }
    ensures len { vec_len rows.new ≡ vec_len rows.old + size (type_of types.now ty) }
    ensures capacity { vec_capacity rows.new ≡ vec_capacity rows.old }
{
    let at = SkelId::new(rows.len() as u32);
    match types.shape(ty) {
        Shape::Base => rows.push_reserved(VarRow {
            node: Node::Base,
            parent,
        }),
        Shape::Void => rows.push_reserved(VarRow {
            node: Node::Void,
            parent,
        }),
        Shape::Struct(of) => rows.push_reserved(VarRow {
            node: Node::Struct(*of),
            parent,
        }),
        Shape::Ref(inside) => {
            rows.push_reserved(VarRow {
                node: Node::Ref,
                parent,
            });
            grow(rows, types, *inside, Parent::Inside { of: at });
        }
        Shape::Fun {
            params,
            result: back,
            ellipsis,
        } => {
            let back_at = at.number() + 1 + types.sizes(params);
            rows.push_reserved(VarRow {
                node: Node::Fun(SkelId::new(back_at)),
                parent,
            });
            grow_params(rows, types, params, at, 0);
            if *ellipsis {
                let last = VarId::new(back_at + types.size(*back));
                let parent = Parent::Result {
                    of: at,
                    ellipsis: Some(last),
                };
                grow(rows, types, *back, parent);
                rows.push_reserved(VarRow {
                    node: Node::Ellipsis,
                    parent: Parent::Ellipsis { of: at },
                });
            } else {
                let parent = Parent::Result {
                    of: at,
                    ellipsis: None,
                };
                grow(rows, types, *back, parent);
            }
        }
    }
}

/// The rows of the parameters of a function, from the one of a number on. There is room for them.
#[cycle(grow)]
#[tactic(auto, using(crate::proofs::Sizes::capped_small, crate::proofs::Sizes::rows_append, crate::proofs::Sizes::some_size, crate::proofs::Sizes::as_many))]
fn grow_params(rows: &mut Vec<VarRow>, types: &TypeTable, params: &[TypeId], of: SkelId, index: u32)
    requires room { vec_len rows.old + sizes
        (types_at (types_of types.now) params.now) ≤ vec_capacity rows.old }
    requires few { vec_len rows.old + sizes (types_at (types_of types.now) params.now) ≤ 2 ^ 24 }
    requires index { index + length params.now < 2 ^ 32 }
    ensures items { rows.new.items ≡ rows.old.items
        ++ param_rows of index (types_at (types_of types.now) params.now) (vec_len rows.old) }
    ensures len { vec_len rows.new
        ≡ vec_len rows.old + sizes (types_at (types_of types.now) params.now) }
    ensures capacity { vec_capacity rows.new ≡ vec_capacity rows.old }
{
    match parted(params) {
        None => {}
        Some((first, rest)) => {
            let next = SkelId::new(rows.len() as u32 + types.size(first));
            grow(rows, types, first, Parent::Param { of, index, next });
            grow_params(rows, types, rest, of, index + 1);
        }
    }
}

/// The first of some types, and the others.
fn parted(types: &[TypeId]) -> Option<(TypeId, &[TypeId])>
    ensures { MatchOption result (types.now ≡ []) (λ x. types.now ≡ x.0 ∷ x.1.now) }
{
    match types {
        [] => None,
        [first, rest @ ..] => Some((*first, rest)),
    }
}
