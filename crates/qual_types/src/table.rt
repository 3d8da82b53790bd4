//! The table of qualifier variables.

ghost use Rattle.std.specs.Prelude.{◌≡◌, ◌≢◌, ◌+◌, ◌<◌, ◌≤◌, ◌^◌, ◌∷◌, ◌++◌, [], ℕ, length};
ghost use Rattle.std.specs.Prelude.{slice_get, replicate, IfOk, OnErr, OnOk, IsErrOf, MatchOption};
ghost use Rattle.std.specs.Prelude.{option_map, unwrap_or, Some, None, ◌↔◌};
ghost use Rattle.qual_base.specs.declared.places.Owner.TheVariants.{Nobody};
ghost use Rattle.type_table.specs.Types.{size};
ghost use Rattle.type_table.specs.Rows.{type_of};
ghost use Rattle.qual_types.specs.Positions.{view_of};
ghost use Rattle.qual_types.specs.Skel.{root, inside_of, params_of, param_at, result_of};
ghost use Rattle.qual_types.specs.Skel.{ellipsis_of, struct_of, numbered, within, flat};
ghost use Rattle.qual_types.specs.Rows.{owner_set, owners_of, skel_of, params_from, seen_in};
ghost use Rattle.qual_types.specs.Rows.{tree_seen, ellipsis_seen, next_seen};
ghost use Rattle.qual_types.specs.Table.{owner_of, mark_of, looked, part_seen, IsVar, IsSomeVar};
ghost use Rattle.qual_types.specs.Table.{IsLook, IsPartLink, Keeps, Stands, AreMarkedApart};
ghost use Rattle.qual_types.specs.Table.{HaveOwnPositions, IsHeld, IsPast, IsTop, IsPart};
ghost use Rattle.qual_types.specs.Table.{RowStands, IsNodeLinked};

use crate::growing::grow_skeleton;
use crate::look::{Kind, Look};
use crate::position::{Position, Step};
use crate::row::{Node, Parent, VarRow};
use qual_base::{NoMemory, Numbered, Owner, SkelId, StructId, TokenId, TypeId, UnitNo, VarId};
use std::alloc::Global;
use std::marker::Model;
use type_table::TypeTable;

/// Want of memory, or as many variables as a program may have.
#[derive(Clone, Copy, PartialEq, Eq, Debug)]
pub enum QualFault {
    TooMany,
    NoMemory,
}

/// The number of qualifier variables that a program may have.
pub const MOST_VARIABLES: u32 = 16_777_216;

/// Skeletons of types, a qualifier variable at each constructor, in the order in which they were made. A skeleton's number
/// is that of its root's variable, and its variables are numbered in pre-order. 24 bytes a variable.
///
/// Clauses see its rows by what they show: `skel_of`, `owner_of` and `mark_of`.
#[derive(Drop)]
pub struct VarTable {
    rows: Vec<VarRow>,
}

impl Model for VarTable {
    ghost use Rattle.std.specs.Prelude.{List};
    ghost use Rattle.qual_types.specs.declared.row.VarRow.{VarRow};
    ghost use Rattle.qual_types.specs.Table.{IsHeld};

    ghost Value = { List VarRow };

    ghost view = { λ a. a.rows.items };

    ghost invariant = { λ a. IsHeld a.rows.items };
}

impl VarTable {
    /// A table without variables. Takes no memory.
    pub fn new(alloc: Global) -> Self
        ensures { result ≡ [] }
    {
        VarTable {
            rows: Vec::new(alloc),
        }
    }

    /// A skeleton of a type, inside one more reference where `outer` is true: a variable for each constructor. Its unit and
    /// token name it. Linear in the type's size; memory: 24 bytes a variable. A refusal leaves the table as it was.
    pub fn fresh(
        &mut self,
        types: &TypeTable,
        ty: TypeId,
        outer: bool,
        unit: UnitNo,
        token: TokenId,
        owner: Owner,
    ) -> Result<SkelId, QualFault>
        ensures number { IfOk result (λ at. at ≡ length self.old) }
        ensures skel { IfOk result (λ at. skel_of self.new at
            ≡ numbered (within outer (type_of types.now ty)) (length self.old)) }
        ensures mark { IfOk result (λ at. mark_of self.new at ≡ Some (unit, token)) }
        ensures inner { OnOk result
            ((n : ℕ) → length self.old < n → mark_of self.new n ≡ None) }
        ensures count { OnOk result (length self.new
            ≡ length self.old + size (within outer (type_of types.now ty))) }
        ensures owners { OnOk result (owners_of self.new
            ≡ owners_of self.old ++ replicate (size (within outer (type_of types.now ty))) owner) }
        ensures kept { OnOk result (Keeps self.old self.new) }
        ensures err { OnErr result (self.new ≡ self.old) }
        ensures too_many { IsErrOf result QualFault.TooMany
            ↔ (MOST_VARIABLES < length self.old + size (within outer (type_of types.now ty))) }
    {
        let at = self.rows.len();
        let count = types.size(ty) as usize + if outer { 1 } else { 0 };
        if at + count > MOST_VARIABLES as usize {
            return Err(QualFault::TooMany);
        }
        match self.rows.reserve(count) {
            Ok(()) => {}
            Err(_) => return Err(QualFault::NoMemory),
        }
        grow_skeleton(&mut self.rows, types, ty, outer, unit, token, owner);
        Ok(SkelId::new(at as u32))
    }

    /// How many variables there are. Constant time.
    pub fn count(&self) -> u32
        ensures value { result ≡ length self.now }
        ensures limit { result ≤ MOST_VARIABLES }
    {
        self.rows.len() as u32
    }

    /// The row of a number, if it is one of the table.
    fn row(&self, at: SkelId) -> Option<VarRow>
        ensures { MatchOption result (IsPast self.now at) (λ row. RowStands self.now at row) }
    {
        if (at.number() as usize) < self.rows.len() {
            Some(self.there(at))
        } else {
            None
        }
    }

    fn there(&self, at: SkelId) -> VarRow
        requires { at < length self.now }
        ensures there { slice_get self.now at ≡ Some result }
        ensures held { IsHeld self.now }
    {
        self.rows[at.number() as usize]
    }

    /// The variable of a function's further arguments, by its result.
    fn ellipsis_at(&self, back: SkelId) -> Option<VarId>
        ensures value { result ≡ (seen_in self.now back).ellipsis }
        ensures low { IsSomeVar result }
    {
        match self.row(back) {
            Some(row) => ellipsis_of_parent(row.parent),
            None => None,
        }
    }

    /// A skeleton, one level deep; past the table there is none. Constant time.
    pub fn look(&self, at: SkelId) -> Look
        ensures shown { looked self.now result ≡ skel_of self.now at }
        ensures low { IsLook (length self.now) at result }
    {
        match self.row(at) {
            Some(row) => self.look_at(at, row.node),
            None => Look::Flat(VarId::new(0), Kind::Nothing),
        }
    }

    /// What a constructor with its variable is.
    fn look_at(&self, at: SkelId, node: Node) -> Look
        requires linked { IsNodeLinked (length self.now) at node }
        requires few { at < 2 ^ 24 }
        ensures shown { looked self.now result ≡ tree_seen (seen_in self.now) at node }
        ensures low { IsLook (length self.now) at result }
    {
        let var = VarId::new(at.number());
        match node {
            Node::Base => Look::Flat(var, Kind::Base),
            Node::Void => Look::Flat(var, Kind::Void),
            Node::Struct(of) => Look::Flat(var, Kind::Struct(of)),
            Node::Ref => Look::Ref(var, SkelId::new(at.number() + 1)),
            Node::Fun(back) => Look::Fun {
                var,
                first: SkelId::new(at.number() + 1),
                result: back,
                ellipsis: self.ellipsis_at(back),
            },
            Node::Ellipsis => Look::Flat(var, Kind::Base),
        }
    }

    /// The part of a function behind a parameter; none where the number is no parameter of a function. A function's
    /// parameters are walked by it, from the first part that `look` gives. Constant time.
    pub fn next_part(&self, at: SkelId) -> Option<SkelId>
        ensures shown { part_seen self.now at result ≡ params_from self.now at }
        ensures low { IsPartLink (length self.now) at result }
    {
        match self.row(at) {
            Some(row) => next_of_parent(row.parent),
            None => None,
        }
    }

    /// The variable of a skeleton's root; past the table it is variable 0. Constant time.
    pub fn var(&self, at: SkelId) -> VarId
        ensures root { result ≡ root (skel_of self.now at) }
        ensures low { IsVar result }
    {
        match self.look(at) {
            Look::Flat(var, _) => var,
            Look::Ref(var, _) => var,
            Look::Fun { var, .. } => var,
        }
    }

    /// What a reference holds. Constant time.
    pub fn inside(&self, at: SkelId) -> Option<SkelId>
        ensures { option_map (skel_of self.now) result ≡ inside_of (skel_of self.now at) }
    {
        match self.look(at) {
            Look::Ref(_, inside) => Some(inside),
            Look::Flat(_, _) => None,
            Look::Fun { .. } => None,
        }
    }

    /// The number of a struct; none of a skeleton that is no struct. Constant time.
    pub fn struct_of(&self, at: SkelId) -> Option<StructId>
        ensures { result ≡ struct_of (skel_of self.now at) }
    {
        match self.look(at) {
            Look::Flat(_, kind) => struct_in(kind),
            Look::Ref(_, _) => None,
            Look::Fun { .. } => None,
        }
    }

    /// A function's parameter of a number from 0. Linear in that number; all of them in turn are walked by `next_part`.
    pub fn param(&self, at: SkelId, i: u32) -> Option<SkelId>
        ensures { option_map (skel_of self.now) result
            ≡ param_at (params_of (skel_of self.now at)) i }
    {
        match self.look(at) {
            Look::Fun { first, .. } => self.param_from(first, i),
            Look::Flat(_, _) => None,
            Look::Ref(_, _) => None,
        }
    }

    /// The parameter so many behind one, that one's included.
    #[tactic(auto, using(crate::proofs::Laws::param_behind))]
    fn param_from(&self, first: SkelId, i: u32) -> Option<SkelId>
        ensures { option_map (skel_of self.now) result ≡ param_at (params_from self.now first) i }
    {
        let mut at = first;
        let mut left = i;
        while left > 0 {
            match self.next_part(at) {
                Some(next) => at = next,
                None => return None,
            }
            left -= 1;
        }
        match self.next_part(at) {
            Some(_) => Some(at),
            None => None,
        }
    }

    /// What a function gives. Constant time.
    pub fn result(&self, at: SkelId) -> Option<SkelId>
        ensures { option_map (skel_of self.now) result ≡ result_of (skel_of self.now at) }
    {
        match self.look(at) {
            Look::Fun { result: back, .. } => Some(back),
            Look::Flat(_, _) => None,
            Look::Ref(_, _) => None,
        }
    }

    /// The variable of a function's further arguments. Constant time.
    pub fn ellipsis(&self, at: SkelId) -> Option<VarId>
        ensures value { result ≡ ellipsis_of (skel_of self.now at) }
        ensures low { IsSomeVar result }
    {
        match self.look(at) {
            Look::Fun { ellipsis, .. } => ellipsis,
            Look::Flat(_, _) => None,
            Look::Ref(_, _) => None,
        }
    }

    /// The owner of a variable: that of its skeleton; past the table it is nobody. Linear in the length of its path.
    pub fn owner(&self, at: VarId) -> Owner
        ensures { result ≡ owner_of self.now at }
    {
        let mut here = SkelId::new(at.number());
        while let Some((of, _)) = self.above(here) {
            here = of;
        }
        self.own_owner(here)
    }

    /// The owner that a skeleton's root has; past the table it is nobody.
    fn own_owner(&self, at: SkelId) -> Owner
        ensures { (at < length self.now → IsTop self.now at) → result ≡ owner_of self.now at }
    {
        match self.row(at) {
            Some(row) => owner_of_parent(row.parent),
            None => Owner::Nobody,
        }
    }

    /// Where a variable stands: its skeleton's unit and token, and the path from there. Linear in the length of the path, in
    /// time and memory. Past the table it is unit 0, token 0 and no path.
    pub fn position(&self, alloc: Global, at: VarId) -> Result<Position, NoMemory>
        ensures { IfOk result
            (λ position. at < length self.now → Stands self.now (view_of position) at) }
    {
        self.law();
        let mut path = Vec::new(alloc);
        let mut here = SkelId::new(at.number());
        while let Some((of, step)) = self.above(here) {
            match path.push(step) {
                Ok(()) => {}
                Err(_) => return Err(NoMemory),
            }
            here = of;
        }
        path.reverse();
        let (unit, token) = self.mark(here);
        Ok(Position { unit, token, path })
    }

    /// The constructor around a part, and the step from there; none at a skeleton's root and past the table.
    fn above(&self, at: SkelId) -> Option<(SkelId, Step)>
        ensures { MatchOption result (at < length self.now → IsTop self.now at) (λ x.
            IsPart (skel_of self.now) (owner_of self.now) at x.0 x.1 × (at < length self.now)) }
    {
        match self.row(at) {
            Some(row) => row.parent.above(),
            None => None,
        }
    }

    /// The unit and the token of a skeleton's root, and 0 elsewhere.
    fn mark(&self, at: SkelId) -> (UnitNo, TokenId)
        ensures { IsTop self.now at → mark_of self.now at ≡ Some result }
    {
        match self.row(at) {
            Some(row) => match row.parent.mark() {
                Some(mark) => mark,
                None => (UnitNo::new(0), TokenId::new(0)),
            },
            None => (UnitNo::new(0), TokenId::new(0)),
        }
    }

    /// What is true of every table. It does nothing.
    ///
    /// Where no two skeletons have one unit and token, no two variables have one position.
    pub fn law(&self)
        ensures apart { AreMarkedApart self.now → HaveOwnPositions self.now }
        ensures few { length self.now ≤ MOST_VARIABLES }
        ensures own_root { (n : ℕ) → n < length self.now → root (skel_of self.now n) ≡ n }
    {
        let _ = &self.rows;
    }
}

/// The owner that a parent names, else nobody.
fn owner_of_parent(parent: Parent) -> Owner
    ensures { result ≡ unwrap_or (owner_set parent) Nobody }
{
    match parent {
        Parent::OfNobody { .. } => Owner::Nobody,
        Parent::OfFunction { function, .. } => Owner::Function(function),
        Parent::Inside { .. } => Owner::Nobody,
        Parent::Param { .. } => Owner::Nobody,
        Parent::Result { .. } => Owner::Nobody,
        Parent::Ellipsis { .. } => Owner::Nobody,
    }
}

/// The variable of a function's further arguments, where a parent is that of its result.
fn ellipsis_of_parent(parent: Parent) -> Option<VarId>
    ensures { result ≡ ellipsis_seen parent }
{
    match parent {
        Parent::Result { ellipsis, .. } => ellipsis,
        Parent::OfNobody { .. } => None,
        Parent::OfFunction { .. } => None,
        Parent::Inside { .. } => None,
        Parent::Param { .. } => None,
        Parent::Ellipsis { .. } => None,
    }
}

/// The part behind a parameter, where a parent is that of one.
fn next_of_parent(parent: Parent) -> Option<SkelId>
    ensures { result ≡ next_seen parent }
{
    match parent {
        Parent::Param { next, .. } => Some(next),
        Parent::OfNobody { .. } => None,
        Parent::OfFunction { .. } => None,
        Parent::Inside { .. } => None,
        Parent::Result { .. } => None,
        Parent::Ellipsis { .. } => None,
    }
}

/// The number of a struct, by what a constructor without parts is.
fn struct_in(kind: Kind) -> Option<StructId>
    ensures { (v : ℕ) → result ≡ struct_of (flat v kind) }
{
    match kind {
        Kind::Struct(of) => Some(of),
        Kind::Base => None,
        Kind::Void => None,
        Kind::Nothing => None,
    }
}
