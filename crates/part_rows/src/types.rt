//! Types by words.
//!
//! A word has what a type is made of before the type itself: `B` a base type, `V` void, `S` a struct, `*` a reference to what
//! stands before it, and `0`, `1` or `2` a function with so many parameters, which stand before it, behind its result; with a
//! `.` before the digit it takes further arguments. So `B*` is `int *`, `BB*.1` is `int (int *, ...)`, and `BBB11` is
//! `int (int (int))`.

ghost use Rattle.std.specs.Prelude.{◌<◌, length};
ghost use Rattle.type_table.specs.Rows.{AreBelow, AreParts};

use qual_base::{NoMemory, Numbered, StructId, TypeId};
use std::alloc::Global;
use type_table::{Shape, TypeTable};

/// A type without words.
fn plain(alloc: Global, types: &mut TypeTable, shape: Shape) -> Result<TypeId, NoMemory>
    requires { AreParts (length types.old) shape }
{
    types.push(shape, Vec::new(alloc), Vec::new(alloc))
}

/// A reference to a type.
fn pointer(alloc: Global, types: &mut TypeTable, inside: TypeId) -> Result<TypeId, NoMemory> {
    if inside.number() >= types.len() {
        return Err(NoMemory);
    }
    plain(alloc, types, Shape::Ref(inside))
}

/// A function.
fn function(
    alloc: Global,
    types: &mut TypeTable,
    params: Vec<TypeId>,
    back: TypeId,
    ellipsis: bool,
) -> Result<TypeId, NoMemory>
    requires params { AreBelow (length types.old) params.items }
    requires back { back < length types.old }
{
    plain(
        alloc,
        types,
        Shape::Fun {
            params,
            result: back,
            ellipsis,
        },
    )
}

/// A function without parameters.
fn giver(
    alloc: Global,
    types: &mut TypeTable,
    back: TypeId,
    ellipsis: bool,
) -> Result<TypeId, NoMemory> {
    if back.number() >= types.len() {
        return Err(NoMemory);
    }
    function(alloc, types, Vec::new(alloc), back, ellipsis)
}

/// A function of one parameter.
fn taker(
    alloc: Global,
    types: &mut TypeTable,
    one: TypeId,
    back: TypeId,
    ellipsis: bool,
) -> Result<TypeId, NoMemory> {
    if one.number() >= types.len() || back.number() >= types.len() {
        return Err(NoMemory);
    }
    function(alloc, types, vec![in alloc; one]?, back, ellipsis)
}

/// A function of two parameters.
fn taker_of_two(
    alloc: Global,
    types: &mut TypeTable,
    both: (TypeId, TypeId),
    back: TypeId,
    ellipsis: bool,
) -> Result<TypeId, NoMemory> {
    let (one, other) = both;
    if one.number() >= types.len() || other.number() >= types.len() {
        return Err(NoMemory);
    }
    if back.number() >= types.len() {
        return Err(NoMemory);
    }
    function(alloc, types, vec![in alloc; one, other]?, back, ellipsis)
}

/// The types that a word made so far and that no other one is made of.
#[derive(Drop)]
struct Made {
    types: Vec<TypeId>,
    is_open: bool,
}

/// The last of these types.
fn taken(made: &mut Made) -> Result<TypeId, NoMemory> {
    match made.types.pop() {
        Some(ty) => Ok(ty),
        None => Err(NoMemory),
    }
}

/// The type of a letter or a sign.
fn made_by(
    alloc: Global,
    types: &mut TypeTable,
    made: &mut Made,
    sign: u8,
) -> Result<TypeId, NoMemory> {
    let is_open = made.is_open;
    match sign {
        b'B' => plain(alloc, types, Shape::Base),
        b'V' => plain(alloc, types, Shape::Void),
        b'S' => plain(alloc, types, Shape::Struct(StructId::new(0))),
        b'*' => {
            let inside = taken(made)?;
            pointer(alloc, types, inside)
        }
        b'0' => {
            let back = taken(made)?;
            giver(alloc, types, back, is_open)
        }
        b'1' => {
            let one = taken(made)?;
            let back = taken(made)?;
            taker(alloc, types, one, back, is_open)
        }
        b'2' => {
            let other = taken(made)?;
            let one = taken(made)?;
            let back = taken(made)?;
            taker_of_two(alloc, types, (one, other), back, is_open)
        }
        _ => Err(NoMemory),
    }
}

/// The type of a word, which is added to the types.
pub(crate) fn type_of(
    alloc: Global,
    types: &mut TypeTable,
    word: &str,
) -> Result<TypeId, NoMemory> {
    let mut made = Made {
        types: Vec::new(alloc),
        is_open: false,
    };
    for sign in word.as_bytes() {
        if *sign == b'.' {
            made.is_open = true;
        } else {
            let ty = made_by(alloc, types, &mut made, *sign)?;
            made.types.push(ty)?;
            made.is_open = false;
        }
    }
    taken(&mut made)
}
