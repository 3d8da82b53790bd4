//! What no clause says: that calls succeed where there is memory, worked skeletons and positions, and deep types.

ghost use Rattle.std.specs.Prelude.{◌≡◌, ◌<◌, ◌+◌, length, IfOk};
ghost use Rattle.type_table.specs.Rows.{AreParts};

use qual_base::{FuncId, NoMemory, Numbered, Owner, SkelId, TokenId, TypeId, UnitNo, VarId};
use qual_types::{QualFault, Step, VarRow, VarTable};
use std::alloc::Global;
use std::process::Abort;
use std::test::Fail;
use type_table::{Shape, TypeTable};

/// A type without words.
fn plain(alloc: Global, types: &mut TypeTable, shape: Shape) -> Result<TypeId, NoMemory>
    requires { AreParts (length types.old) shape }
    ensures { IfOk result
        (λ ty. (ty ≡ length types.old) × (length types.new ≡ length types.old + 1)) }
{
    types.push(shape, Vec::new(alloc), Vec::new(alloc))
}

/// The type that was pushed last.
fn last(types: &TypeTable) -> Result<TypeId, NoMemory>
    ensures { IfOk result (λ ty. ty < length types.now) }
{
    match types.len() {
        0 => Err(NoMemory),
        count => Ok(TypeId::new(count - 1)),
    }
}

/// A reference to the last type.
fn pointer(alloc: Global, types: &mut TypeTable) -> Result<TypeId, NoMemory> {
    let ty = last(types)?;
    types.push(Shape::Ref(ty), Vec::new(alloc), Vec::new(alloc))
}

/// A function without parameters that gives the last type.
fn giving(alloc: Global, types: &mut TypeTable) -> Result<TypeId, NoMemory> {
    let shape = Shape::Fun {
        params: Vec::new(alloc),
        result: last(types)?,
        ellipsis: false,
    };
    types.push(shape, Vec::new(alloc), Vec::new(alloc))
}

/// A function from the last type to it.
fn taking(alloc: Global, types: &mut TypeTable) -> Result<TypeId, NoMemory> {
    let ty = last(types)?;
    let shape = Shape::Fun {
        params: vec![in alloc; ty]?,
        result: ty,
        ellipsis: false,
    };
    types.push(shape, Vec::new(alloc), Vec::new(alloc))
}

/// A function from a base type and a pointer to a pointer, with further arguments, to a base type.
fn variadic(alloc: Global, types: &mut TypeTable) -> Result<TypeId, NoMemory> {
    let base = plain(alloc, types, Shape::Base)?;
    let one = plain(alloc, types, Shape::Ref(base))?;
    let two = plain(alloc, types, Shape::Ref(one))?;
    let shape = Shape::Fun {
        params: vec![in alloc; base, two]?,
        result: base,
        ellipsis: true,
    };
    plain(alloc, types, shape)
}

fn numbers(steps: &[Step], out: &mut Vec<u32>) -> Result<(), NoMemory> {
    for step in steps {
        let number = match step {
            Step::Inside => 1,
            Step::Param(0) => 2,
            Step::Param(1) => 3,
            Step::Param(_) => 9,
            Step::Result => 4,
            Step::Ellipsis => 5,
        };
        match out.push(number) {
            Ok(()) => {}
            Err(_) => return Err(NoMemory),
        }
    }
    Ok(())
}

#[test]
fn variables_stand_in_pre_order(rt: HostRuntime) -> Result<(), Fail> {
    let alloc = rt.alloc();
    let mut types = TypeTable::new(alloc);
    let ty = variadic(alloc, &mut types)?;
    let mut vars = VarTable::new(alloc);
    let other = vars.fresh(
        &types,
        ty,
        false,
        UnitNo::new(0),
        TokenId::new(1),
        Owner::Nobody,
    );
    let other = match other {
        Ok(other) => other,
        Err(_) => return Err(Fail::from(NoMemory)),
    };
    // 7 reference, 8 function, 9 base, 10 11 12 pointer to pointer, 13 result, 14 further arguments
    let place = vars.fresh(
        &types,
        ty,
        true,
        UnitNo::new(1),
        TokenId::new(5),
        Owner::Function(FuncId::new(3)),
    );
    let place = match place {
        Ok(place) => place,
        Err(_) => return Err(Fail::from(NoMemory)),
    };
    assert_eq!(rt; other.number(), 0);
    assert_eq!(rt; place.number(), 7);
    assert_eq!(rt; vars.count(), 15);
    let function = SkelId::new(8);
    assert_eq!(rt; vars.inside(place), Some(function));
    assert_eq!(rt; vars.param(function, 0), Some(SkelId::new(9)));
    assert_eq!(rt; vars.param(function, 1), Some(SkelId::new(10)));
    assert_eq!(rt; vars.param(function, 2), None);
    assert_eq!(rt; vars.param(function, 4_000_000_000), None);
    assert_eq!(rt; vars.inside(SkelId::new(10)), Some(SkelId::new(11)));
    assert_eq!(rt; vars.result(function), Some(SkelId::new(13)));
    assert_eq!(rt; vars.ellipsis(function), Some(VarId::new(14)));
    assert_eq!(rt; vars.inside(function), None);
    assert_eq!(rt; vars.result(place), None);
    assert_eq!(rt; vars.ellipsis(place), None);
    assert_eq!(rt; vars.param(place, 0), None);
    assert_eq!(rt; vars.var(SkelId::new(99)).number(), 0);
    for v in 0..7 {
        assert_eq!(rt; vars.owner(VarId::new(v)), Owner::Nobody, "variable {v}");
    }
    for v in 7..15 {
        assert_eq!(rt;
            vars.owner(VarId::new(v)),
            Owner::Function(FuncId::new(3)),
            "variable {v}"
        );
    }
    assert_eq!(rt; vars.owner(VarId::new(15)), Owner::Nobody);
    Ok(())
}

#[test]
fn positions_lead_to_their_variables(rt: HostRuntime) -> Result<(), Fail> {
    let alloc = rt.alloc();
    let mut types = TypeTable::new(alloc);
    let ty = variadic(alloc, &mut types)?;
    let mut vars = VarTable::new(alloc);
    match vars.fresh(
        &types,
        ty,
        true,
        UnitNo::new(1),
        TokenId::new(5),
        Owner::Nobody,
    ) {
        Ok(_) => {}
        Err(_) => return Err(Fail::from(NoMemory)),
    }
    // 1 inside, 2 and 3 parameters 0 and 1, 4 result, 5 further arguments
    let rows: [(u32, &[u32]); 8] = [
        (0, &[]),
        (1, &[1]),
        (2, &[1, 2]),
        (3, &[1, 3]),
        (4, &[1, 3, 1]),
        (5, &[1, 3, 1, 1]),
        (6, &[1, 4]),
        (7, &[1, 5]),
    ];
    for (v, path) in rows {
        let position = vars.position(alloc, VarId::new(v))?;
        let mut found = Vec::new(alloc);
        numbers(position.path.as_slice(), &mut found)?;
        assert_eq!(rt; position.unit.number(), 1);
        assert_eq!(rt; position.token.number(), 5);
        assert!(rt; found.as_slice() == path, "variable {v}");
    }
    Ok(())
}

#[test]
fn deep_types_have_skeletons(rt: HostRuntime) -> Result<(), Fail> {
    let alloc = rt.alloc();
    let mut types = TypeTable::new(alloc);
    plain(alloc, &mut types, Shape::Base)?;
    let mut pointers = TypeId::new(0);
    for _ in 0..4_095 {
        pointers = pointer(alloc, &mut types)?;
    }
    plain(alloc, &mut types, Shape::Base)?;
    let mut functions = TypeId::new(0);
    for _ in 0..4_095 {
        functions = giving(alloc, &mut types)?;
    }
    let mut vars = VarTable::new(alloc);
    for (token, ty) in [(0, pointers), (1, functions)] {
        match vars.fresh(
            &types,
            ty,
            false,
            UnitNo::new(0),
            TokenId::new(token),
            Owner::Nobody,
        ) {
            Ok(_) => {}
            Err(_) => return Err(Fail::from(NoMemory)),
        }
    }
    assert_eq!(rt; vars.count(), 8_192);
    let last = vars.position(alloc, VarId::new(4_095))?;
    assert_eq!(rt; last.path.len(), 4_095);
    assert_eq!(rt; last.token.number(), 0);
    let last = vars.position(alloc, VarId::new(8_191))?;
    assert_eq!(rt; last.path.len(), 4_095);
    assert_eq!(rt; last.token.number(), 1);
    assert_eq!(rt; vars.owner(VarId::new(8_191)), Owner::Nobody);
    Ok(())
}

#[test]
fn a_type_that_passes_the_limit_leaves_the_table(rt: HostRuntime) -> Result<(), Fail> {
    let alloc = rt.alloc();
    let mut types = TypeTable::new(alloc);
    // 2^(n + 1) - 1 constructors after n steps
    plain(alloc, &mut types, Shape::Base)?;
    for _ in 0..40 {
        taking(alloc, &mut types)?;
    }
    let huge = TypeId::new(40);
    let mut vars = VarTable::new(alloc);
    let unit = UnitNo::new(0);
    let token = TokenId::new(0);
    // 2^22 - 1, four times, and 4 more are 2^24
    let part = TypeId::new(21);
    for (ty, outer, fits, count) in [
        (huge, false, false, 0),
        (part, false, true, 4_194_303),
        (part, false, true, 8_388_606),
        (TypeId::new(23), false, false, 8_388_606),
        (part, false, true, 12_582_909),
        (TypeId::new(1), false, true, 12_582_912),
        (part, true, true, 16_777_216),
        (TypeId::new(0), false, false, 16_777_216),
        (huge, true, false, 16_777_216),
    ] {
        match vars.fresh(&types, ty, outer, unit, token, Owner::Nobody) {
            Ok(_) => assert!(rt; fits, "made at {count}"),
            Err(QualFault::TooMany) => assert!(rt; !fits, "refused at {count}"),
            Err(QualFault::NoMemory) => return Err(Fail::from(NoMemory)),
        }
        assert_eq!(rt; vars.count(), count);
    }
    Ok(())
}

#[test]
fn a_variable_takes_24_bytes(rt: HostRuntime) {
    assert_eq!(rt; std::mem::size_of::<VarRow>(), 24);
}
