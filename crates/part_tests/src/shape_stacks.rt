//! What no clause says: that there is room for what is pushed.

use expr_shapes::shape_stacks::{Braces, Stacks};
use expr_shapes::shape_values::ExprShape;
use qual_base::{Numbered, TokenId};
use std::process::Abort;
use std::test::Fail;

#[test]
fn declarations_have_the_name_declared_last(rt: HostRuntime) -> Result<(), Fail> {
    let mut stacks = Stacks::new(rt.alloc());
    stacks.open()?;
    stacks.name(TokenId::new(1))?;
    stacks.declare()?;
    stacks.leave_name()?;
    assert_eq!(rt; stacks.declared_last(), Some(TokenId::new(1)));
    Ok(())
}

#[test]
fn lists_go_on_behind_items(rt: HostRuntime) -> Result<(), Fail> {
    let mut stacks = Stacks::new(rt.alloc());
    stacks.enter(&Braces::Listed {
        ty: None,
        is_first: true,
        next: 0,
        named: None,
    })?;
    stacks.pass()?;
    assert_eq!(rt;
        stacks.braces(),
        Braces::Listed {
            ty: None,
            is_first: false,
            next: 1,
            named: None,
        }
    );
    Ok(())
}

#[test]
fn compound_literals_are_places(rt: HostRuntime) -> Result<(), Fail> {
    let mut stacks = Stacks::new(rt.alloc());
    stacks.put_type(0, &None)?;
    stacks.begin()?;
    stacks.enter_literal()?;
    stacks.leave_literal()?;
    assert_eq!(rt; stacks.shape_at(0), ExprShape::Place(None));
    Ok(())
}
