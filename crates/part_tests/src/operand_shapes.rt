//! What no clause says: that ops succeed where there is memory.

use c_words::Punct;
use expr_shapes::shape_stacks::Stacks;
use expr_shapes::shape_values::{ExprShape, ValueType};
use expr_shapes::{Plain, condition, extension, index, number, prefix, text};
use std::process::Abort;
use std::test::Fail;
use type_table::TypeTable;

#[test]
fn text_is_indexed(rt: HostRuntime) -> Result<(), Fail> {
    let alloc = rt.alloc();
    let mut types = TypeTable::new(alloc);
    let plain = Plain::push(alloc, &mut types)?;
    let mut stacks = Stacks::new(alloc);
    // &1["s"]
    number(&mut stacks, &types, &plain, false)?;
    text(&mut stacks, &types, &plain)?;
    index(&mut stacks, &types, false)?;
    prefix(&mut stacks, &types, &plain, Punct::Ampersand)?;
    assert_eq!(rt;
        stacks.shape_at(0),
        ExprShape::Value(Some(ValueType::PointerTo(plain.base)))
    );
    Ok(())
}

#[test]
fn zeros_take_the_type_of_the_other_branch(rt: HostRuntime) -> Result<(), Fail> {
    let alloc = rt.alloc();
    let mut types = TypeTable::new(alloc);
    let plain = Plain::push(alloc, &mut types)?;
    let mut stacks = Stacks::new(alloc);
    // "s" ?: 0
    text(&mut stacks, &types, &plain)?;
    number(&mut stacks, &types, &plain, true)?;
    condition(&mut stacks, &types, false)?;
    extension(&mut stacks)?;
    assert_eq!(rt;
        stacks.shape_at(0),
        ExprShape::Value(Some(ValueType::Of(plain.text)))
    );
    Ok(())
}
