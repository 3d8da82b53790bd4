//! Each system, beside its answers.

use crate::comparing::compare_all;
use crate::{
    drawn_lattices, no_recursion, one_function, several_lattices, three_functions, two_functions,
    worked,
};
use std::test::Fail;

#[test]
fn worked_systems_have_their_answers(rt: HostRuntime) -> Result<(), Fail> {
    compare_all(&rt, rt.alloc(), &worked::CALLS)?;
    compare_all(&rt, rt.alloc(), &worked::SHARED)
}

#[test]
fn systems_without_recursion_have_their_answers(rt: HostRuntime) -> Result<(), Fail> {
    compare_all(&rt, rt.alloc(), &no_recursion::ONE_FUNCTION)?;
    compare_all(&rt, rt.alloc(), &no_recursion::SEVERAL_FUNCTIONS)
}

#[test]
fn systems_of_one_function_have_their_answers(rt: HostRuntime) -> Result<(), Fail> {
    compare_all(&rt, rt.alloc(), &one_function::ACCEPTED)?;
    compare_all(&rt, rt.alloc(), &one_function::ONE_SITE)?;
    compare_all(&rt, rt.alloc(), &one_function::FOUR_SITES)?;
    compare_all(&rt, rt.alloc(), &one_function::SITES_OF_NOBODY)
}

#[test]
fn systems_of_two_functions_have_their_answers(rt: HostRuntime) -> Result<(), Fail> {
    compare_all(&rt, rt.alloc(), &two_functions::RECURSIVE)
}

#[test]
fn systems_of_three_functions_have_their_answers(rt: HostRuntime) -> Result<(), Fail> {
    compare_all(&rt, rt.alloc(), &three_functions::RECURSIVE)
}

#[test]
fn systems_in_several_lattices_have_their_answers_in_each(rt: HostRuntime) -> Result<(), Fail> {
    compare_all(&rt, rt.alloc(), &several_lattices::FLOWS)?;
    compare_all(&rt, rt.alloc(), &several_lattices::CALLS)
}

#[test]
fn drawn_systems_in_two_lattices_have_their_answers_in_each(rt: HostRuntime) -> Result<(), Fail> {
    compare_all(&rt, rt.alloc(), &drawn_lattices::TWO_LATTICES)
}

#[test]
fn drawn_systems_in_three_lattices_have_their_answers_in_each(rt: HostRuntime) -> Result<(), Fail> {
    compare_all(&rt, rt.alloc(), &drawn_lattices::THREE_LATTICES)
}
