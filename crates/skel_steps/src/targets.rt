//! What items of initialisers initialise.

ghost use Rattle.std.specs.Prelude.{◌≡◌, ℕ, Bool, IfOk, option_map};
ghost use Rattle.qual_types.specs.declared.look.Kind.TheVariants as kinds;
ghost use Rattle.qual_types.specs.Skel.{Skel, flat};
ghost use Rattle.row_rules.specs.Worlds.{World};
ghost use Rattle.row_rules.specs.Rows as rows;
ghost use Rattle.row_rules.specs.Vals as vals;
ghost use Rattle.row_rules.specs.RowSteps.Steps as steps;
ghost use Rattle.row_world.specs.Shown.{Shows, skel};
ghost use Rattle.skel_steps.specs.SkelStacks.Views.{braces_in};
ghost use Rattle.skel_steps.specs.Stepping.{tables_of};

use crate::skel_stacks::Braces;
use qual_base::{NameId, NoMemory, SkelId, StructId, TokenId};
use qual_types::{Kind, Look};
use row_world::{Known, contents};

/// What is no struct is initialised by its first item alone.
fn first_alone(is_first: bool, of: SkelId) -> Option<SkelId>
    ensures { (f : ℕ → Skel) → option_map f result ≡ rows.first_alone is_first (f of) }
{
    if is_first { Some(of) } else { None }
}

/// What an item of a struct initialises: what its designators name, or the next member. Constant time.
fn member_target(known: &Known, of: StructId, next: usize, named: &Option<SkelId>) -> Option<SkelId>
    ensures { (w : World) (v : ℕ) (is_first : Bool) → Shows known.now w
        → option_map (skel known.now) result
        ≡ steps.item_target w (flat v (kinds.Struct of)) is_first next
        (option_map (skel known.now) named.now) }
{
    match named {
        None => known.next_of_struct(of, next),
        Some(named) => Some(*named),
    }
}

/// What an item of something without parts of its own initialises, by what its designators name. Constant time.
fn flat_target(
    known: &Known,
    of: SkelId,
    kind: Kind,
    is_first: bool,
    next: usize,
    named: &Option<SkelId>,
) -> Option<SkelId>
    ensures { (w : World) (v : ℕ) → Shows known.now w → skel known.now of ≡ flat v kind
        → option_map (skel known.now) result
        ≡ steps.item_target w (flat v kind) is_first next (option_map (skel known.now) named.now) }
{
    match kind {
        Kind::Struct(number) => member_target(known, number, next, named),
        Kind::Base => first_alone(is_first, of),
        Kind::Void => first_alone(is_first, of),
        Kind::Nothing => None,
    }
}

/// What an item initialises, by what its designators name. Constant time.
fn item_target(
    known: &Known,
    of: SkelId,
    is_first: bool,
    next: usize,
    named: &Option<SkelId>,
) -> Option<SkelId>
    ensures { (w : World) → Shows known.now w → option_map (skel known.now) result
        ≡ steps.item_target w (skel known.now of) is_first next
        (option_map (skel known.now) named.now) }
{
    match known.vars.look(of) {
        Look::Ref(_, inside) => Some(inside),
        Look::Flat(_, kind) => flat_target(known, of, kind, is_first, next, named),
        Look::Fun { .. } => None,
    }
}

/// What the next item initialises. Constant time.
pub fn target_in(known: &Known, it: &Braces) -> Option<SkelId>
    ensures { (w : World) → Shows known.now w → option_map (skel known.now) result
        ≡ steps.target_in w (braces_in (tables_of known.now) it.now) }
{
    match it {
        Braces::Whole(target) => *target,
        Braces::Untargeted => None,
        Braces::Listed {
            skel,
            is_first,
            next,
            named,
        } => item_target(known, *skel, *is_first, *next, named),
    }
}

/// What a designator of a member names. Linear in the members of its struct.
fn member_named(known: &Known, of: SkelId, name: NameId) -> SkelId
    ensures { (w : World) → Shows known.now w → skel known.now result
        ≡ vals.contents (vals.member_skel w (skel known.now of) name) }
{
    contents(known.vars, known.member(of, name))
}

/// A list behind a designator of a member. Linear in the members of the struct.
pub(crate) fn with_member(known: &Known, name: NameId, it: &Braces) -> Result<Braces, NoMemory>
    ensures { IfOk result (λ next. (w : World) → Shows known.now w
        → braces_in (tables_of known.now) next
        ≡ steps.with_member w name (braces_in (tables_of known.now) it.now)) }
{
    match it {
        Braces::Whole(target) => Ok(Braces::Whole(*target)),
        Braces::Untargeted => Ok(Braces::Untargeted),
        Braces::Listed {
            skel,
            is_first,
            next,
            named: None,
        } => {
            let next = known.behind_member(*skel, name, *next)?;
            Ok(Braces::Listed {
                skel: *skel,
                is_first: *is_first,
                next,
                named: Some(member_named(known, *skel, name)),
            })
        }
        Braces::Listed {
            skel,
            is_first,
            next,
            named: Some(named),
        } => Ok(Braces::Listed {
            skel: *skel,
            is_first: *is_first,
            next: *next,
            named: Some(member_named(known, *named, name)),
        }),
    }
}

/// What the initialiser of the name at a token initialises. Constant time.
pub fn initialised_by(known: &Known, token: &Option<TokenId>) -> Option<SkelId>
    ensures { (w : World) → Shows known.now w → option_map (skel known.now) result
        ≡ steps.initialised_by w token.now }
{
    match token {
        None => None,
        Some(token) => known.initialised(*token),
    }
}
