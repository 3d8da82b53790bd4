//! What no clause says: that pushes succeed where there is memory, and worked sizes.

ghost use Rattle.std.specs.Prelude.{◌≡◌, ◌<◌, ◌+◌, length, IfOk};
ghost use Rattle.type_table.specs.Rows.{AreParts};

use qual_base::{NoMemory, Numbered, StructId, TokenId, TypeId, UnitNo};
use std::alloc::Global;
use std::process::Abort;
use std::test::Fail;
use type_table::{Shape, TypeTable};

/// A type without words.
fn plain(alloc: Global, types: &mut TypeTable, shape: Shape) -> Result<TypeId, NoMemory>
    requires { AreParts (length types.old) shape }
    ensures { IfOk result
        (λ ty. (ty ≡ length types.old) × (length types.new ≡ length types.old + 1)) }
{
    types.push(shape, Vec::new(alloc), Vec::new(alloc))
}

/// The type that was pushed last.
fn last(types: &TypeTable) -> Result<TypeId, NoMemory>
    ensures { IfOk result (λ ty. ty < length types.now) }
{
    match types.len() {
        0 => Err(NoMemory),
        count => Ok(TypeId::new(count - 1)),
    }
}

/// A function from the last type to it.
fn taking(alloc: Global, types: &mut TypeTable) -> Result<TypeId, NoMemory> {
    let ty = last(types)?;
    let shape = Shape::Fun {
        params: vec![in alloc; ty]?,
        result: ty,
        ellipsis: false,
    };
    types.push(shape, Vec::new(alloc), Vec::new(alloc))
}

#[test]
fn sizes_count_constructors(rt: HostRuntime) -> Result<(), Fail> {
    let alloc = rt.alloc();
    let mut types = TypeTable::new(alloc);
    let base = plain(alloc, &mut types, Shape::Base)?;
    let pointer = plain(alloc, &mut types, Shape::Ref(base))?;
    // int (int, int *, ...): itself, 1 and 2 of parameters, 1 of the result, the ellipsis
    let params = vec![in alloc; base, pointer]?;
    let function = plain(
        alloc,
        &mut types,
        Shape::Fun {
            params,
            result: base,
            ellipsis: true,
        },
    )?;
    assert_eq!(rt; types.size(base), 1);
    assert_eq!(rt; types.size(pointer), 2);
    assert_eq!(rt; types.size(function), 6);
    assert_eq!(rt; types.size(TypeId::new(99)), 1);
    assert_eq!(rt; types.len(), 3);
    Ok(())
}

#[test]
fn a_size_that_doubles_stops_at_its_most(rt: HostRuntime) -> Result<(), Fail> {
    let alloc = rt.alloc();
    let mut types = TypeTable::new(alloc);
    plain(alloc, &mut types, Shape::Struct(StructId::new(7)))?;
    // such a function has twice the size of its part and one: 2^(n + 1) - 1 after n steps
    for _ in 0..40 {
        taking(alloc, &mut types)?;
    }
    assert_eq!(rt; types.size(TypeId::new(2)), 7);
    assert_eq!(rt; types.size(TypeId::new(30)), 2_147_483_647);
    assert_eq!(rt; types.size(TypeId::new(31)), 4_294_967_295);
    assert_eq!(rt; types.size(TypeId::new(40)), 4_294_967_295);
    Ok(())
}

#[test]
fn words_stand_on_their_own_row(rt: HostRuntime) -> Result<(), Fail> {
    let alloc = rt.alloc();
    let mut types = TypeTable::new(alloc);
    let word = (UnitNo::new(1), TokenId::new(5));
    let other = (UnitNo::new(1), TokenId::new(9));
    let base = plain(alloc, &mut types, Shape::Base)?;
    let marked = types.push(Shape::Base, vec![in alloc; word]?, Vec::new(alloc))?;
    let variadic = types.push(
        Shape::Fun {
            params: Vec::new(alloc),
            result: base,
            ellipsis: true,
        },
        Vec::new(alloc),
        vec![in alloc; other, word]?,
    )?;
    assert_eq!(rt; types.words(base).len(), 0);
    assert_eq!(rt; types.words(marked).len(), 1);
    assert_eq!(rt; types.words(marked)[0].1.number(), 5);
    assert_eq!(rt; types.words(variadic).len(), 0);
    assert_eq!(rt; types.ellipsis_words(variadic).len(), 2);
    assert_eq!(rt; types.ellipsis_words(variadic)[0].1.number(), 9);
    assert_eq!(rt; types.ellipsis_words(marked).len(), 0);
    Ok(())
}
