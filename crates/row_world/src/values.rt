//! What operators make of the skeletons of their operands.

ghost use Rattle.std.specs.Prelude.{◌≡◌, ◌&&◌, if◌then◌else◌};
ghost use Rattle.name_rules.specs.Values as rules;
ghost use Rattle.qual_types.specs.Rows.{skel_of};
ghost use Rattle.row_rules.specs.Worlds.{World};
ghost use Rattle.row_rules.specs.Annotations.{has_access};
ghost use Rattle.row_rules.specs.Vals as vals;
ghost use Rattle.row_world.specs.Shown.{Shows, skel, val, val_in};

use crate::known::Known;
use crate::operand::Operand;
use crate::skels::{is_ref, read};
use c_words::Punct;
use qual_base::{SkelId, TokenId};
use qual_types::VarTable;

/// The skeleton of an operand's value. Constant time.
pub fn value(vars: &VarTable, it: &Operand) -> SkelId
    ensures { skel_of vars.now result ≡ vals.value (val_in vars.now it.now) }
{
    if it.is_place {
        read(vars, it.skel)
    } else {
        it.skel
    }
}

/// Whether a sign is `+` or `-`.
pub fn is_additive(sign: Punct) -> bool
    ensures { result ≡ rules.is_additive sign }
{
    match sign {
        Punct::Plus => true,
        Punct::Minus => true,
        _ => false,
    }
}

/// The value of a sum of two operands, and a fresh skeleton.
fn sum(vars: &VarTable, a: SkelId, b: SkelId, own: SkelId) -> SkelId
    ensures { skel_of vars.now result
        ≡ vals.sum_of (vals.is_ref (skel_of vars.now a)) (vals.is_ref (skel_of vars.now b))
        (skel_of vars.now a) (skel_of vars.now b) (skel_of vars.now own) }
{
    if is_ref(vars, a) {
        if is_ref(vars, b) { own } else { a }
    } else if is_ref(vars, b) {
        b
    } else {
        own
    }
}

/// The value of an operator with two operands, and a fresh skeleton. Constant time.
pub fn binary(vars: &VarTable, sign: Punct, a: SkelId, b: SkelId, own: SkelId) -> SkelId
    ensures { skel_of vars.now result
        ≡ vals.binary_of sign (skel_of vars.now a) (skel_of vars.now b) (skel_of vars.now own) }
{
    if is_additive(sign) {
        sum(vars, a, b, own)
    } else {
        own
    }
}

impl<'a> Known<'a> {
    /// The value of a condition, by which of its branches are zeros. Constant time.
    pub fn branch(&self, first: bool, last: bool, token: TokenId, a: SkelId, b: SkelId) -> SkelId
        ensures { (w : World) → Shows self.now w → skel self.now result
            ≡ vals.branch w first last token (skel self.now a) (skel self.now b) }
    {
        if last {
            a
        } else if first {
            b
        } else {
            self.own(token)
        }
    }

    /// The pointer that `&` makes to a place: fresh, where that was come to by a pointer and some lattice bounds accesses. Constant time.
    fn address(&self, token: TokenId, it: &Operand, aims: bool) -> Operand
        ensures { (w : World) → Shows self.now w → val self.now result
            ≡ if aims && has_access w.lattices then vals.a_value (vals.own w token)
            else vals.a_value (skel self.now it.now.skel) }
    {
        if aims && self.has_access() {
            Operand::a_value(self.own(token))
        } else {
            Operand::a_value(it.skel)
        }
    }

    /// The operand that a sign before an operand makes; `aims`: the place of `*` is only addressed, the operand of `&` came to its place
    /// by a pointer. Constant time.
    pub fn prefix(&self, token: TokenId, sign: Punct, it: &Operand, aims: bool) -> Operand
        ensures { (w : World) → Shows self.now w →
            val self.now result ≡ vals.prefix_of w token sign (val self.now it.now) aims }
    {
        match sign {
            Punct::Ampersand => self.address(token, it, aims),
            Punct::Star => Operand::a_place(value(self.vars, it)),
            Punct::PlusPlus => Operand::a_value(value(self.vars, it)),
            Punct::MinusMinus => Operand::a_value(value(self.vars, it)),
            _ => Operand::a_value(self.own(token)),
        }
    }
}
