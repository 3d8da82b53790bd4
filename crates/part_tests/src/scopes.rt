//! What no clause says: that names are taken where there is memory, and walks through sources.

use held_scopes::{Closed, TypedefScopes};
use qual_base::{NameId, NoMemory, Numbered};
use std::alloc::Global;
use std::process::Abort;
use std::test::Fail;
use typedef_scope::Kind::{self, Constant, Typedef, Value};

/// What is done to the scopes, or asked of them, with the answer that is awaited.
#[derive(Clone, Copy)]
enum Step {
    Enter,
    Leave,
    Close,
    Reopen,
    Hold(u32, Kind, bool),
    Release(Kind),
    Declare(u32, Kind, bool),
    Admits(u32, Kind, bool),
    Holds(u32, bool),
    Sees(u32, Option<Kind>),
}

use Step::{Admits, Close, Declare, Enter, Hold, Holds, Leave, Release, Reopen, Sees};

/// The scopes, and those that were closed and not opened again.
#[derive(Drop)]
struct Walk {
    scopes: TypedefScopes,
    closed: Vec<Closed>,
}

/// Takes a step, and answers whether the answer is the one that is awaited.
fn take(walk: &mut Walk, step: Step) -> Result<bool, NoMemory> {
    match step {
        Enter => walk.scopes.enter()?,
        Leave => walk.scopes.leave(),
        Close => walk.closed.push(walk.scopes.close())?,
        Reopen => match walk.closed.pop() {
            Some(scope) => walk.scopes.reopen(scope)?,
            None => return Ok(false),
        },
        Hold(name, kind, held) => return Ok(walk.scopes.hold(NameId::new(name), kind)? == held),
        Release(kind) => walk.scopes.release(kind)?,
        Declare(name, kind, done) => {
            return Ok(walk.scopes.declare(NameId::new(name), kind)? == done);
        }
        Admits(name, kind, may) => {
            return Ok(walk.scopes.may_declare(NameId::new(name), kind) == may);
        }
        Holds(name, held) => return Ok(walk.scopes.holds(NameId::new(name)) == held),
        Sees(name, kind) => {
            let name = NameId::new(name);
            let is_type = kind == Some(Typedef);
            return Ok(walk.scopes.kind_of(name) == kind && walk.scopes.names_type(name) == is_type);
        }
    }
    Ok(true)
}

/// The number of the first step whose answer is another than the one that is awaited.
fn first_unmet(alloc: Global, steps: &[Step]) -> Result<Option<usize>, NoMemory> {
    let scopes = TypedefScopes::new(alloc, false)?;
    let closed = Vec::new(alloc);
    let mut walk = Walk { scopes, closed };
    for (n, step) in steps.iter().enumerate() {
        if !take(&mut walk, *step)? {
            return Ok(Some(n));
        }
    }
    Ok(None)
}

#[test]
fn a_held_name_keeps_its_outer_kind_until_it_is_released(rt: HostRuntime) -> Result<(), Fail> {
    // typedef int a; { a a; }
    let steps = [
        Hold(0, Typedef, true),
        Sees(0, None),
        Release(Typedef),
        Enter,
        Hold(0, Value, true),
        Sees(0, Some(Typedef)),
        Release(Value),
        Sees(0, Some(Value)),
        Leave,
        Sees(0, Some(Typedef)),
    ];
    assert_eq!(rt; first_unmet(rt.alloc(), &steps), Ok(None));
    Ok(())
}

#[test]
fn an_enumerator_cannot_take_a_held_name_of_its_scope(rt: HostRuntime) -> Result<(), Fail> {
    // int a[sizeof(enum { b })], where b may not be a
    let steps = [
        Hold(7, Constant, true),
        Holds(7, true),
        Holds(8, false),
        Declare(7, Constant, false),
        Holds(7, true),
        Sees(7, None),
        Declare(8, Constant, true),
        Sees(8, Some(Constant)),
        Release(Value),
        Holds(7, false),
        Sees(7, Some(Value)),
    ];
    assert_eq!(rt; first_unmet(rt.alloc(), &steps), Ok(None));
    Ok(())
}

#[test]
fn an_inner_scope_may_declare_a_name_that_an_outer_one_holds(rt: HostRuntime) -> Result<(), Fail> {
    // int a(int b[sizeof(enum { a })]);
    let steps = [
        Hold(1, Value, true),
        Enter,
        Hold(0, Value, true),
        Holds(1, false),
        Declare(1, Constant, true),
        Release(Value),
        Sees(1, Some(Constant)),
        Sees(0, Some(Value)),
        Leave,
        Sees(1, None),
        Holds(1, true),
        Holds(0, false),
        Release(Value),
        Sees(1, Some(Value)),
        Sees(0, None),
    ];
    assert_eq!(rt; first_unmet(rt.alloc(), &steps), Ok(None));
    Ok(())
}

#[test]
fn a_reopened_scope_has_its_names_and_its_held_name(rt: HostRuntime) -> Result<(), Fail> {
    // int a(int b) { }, where the scope of the parameters is opened again for the body
    let steps = [
        Hold(0, Value, true),
        Enter,
        Declare(1, Value, true),
        Hold(2, Typedef, true),
        Close,
        Sees(1, None),
        Holds(2, false),
        Holds(0, true),
        Release(Value),
        Reopen,
        Sees(0, Some(Value)),
        Sees(1, Some(Value)),
        Holds(0, false),
        Holds(2, true),
        Admits(1, Typedef, false),
        Release(Typedef),
        Sees(2, Some(Typedef)),
        Leave,
        Sees(0, Some(Value)),
        Sees(1, None),
    ];
    assert_eq!(rt; first_unmet(rt.alloc(), &steps), Ok(None));
    Ok(())
}

#[test]
fn a_release_where_no_name_is_held_does_nothing(rt: HostRuntime) -> Result<(), Fail> {
    let steps = [
        Declare(3, Constant, true),
        Release(Value),
        Sees(3, Some(Constant)),
        Holds(3, false),
        Sees(0, None),
    ];
    assert_eq!(rt; first_unmet(rt.alloc(), &steps), Ok(None));
    Ok(())
}

#[test]
fn one_scope_gives_a_name_one_kind(rt: HostRuntime) -> Result<(), Fail> {
    let kinds = [Typedef, Value, Constant];
    for (n, kind) in kinds.iter().enumerate() {
        for (m, other) in kinds.iter().enumerate() {
            let same = n == m;
            let steps = [
                Admits(5, *kind, true),
                Declare(5, *kind, true),
                Admits(5, *other, same),
                Declare(5, *other, same),
                Hold(5, *other, same),
                Holds(5, same),
                Sees(5, Some(*kind)),
                Release(*other),
                Holds(5, false),
                Sees(5, Some(*kind)),
            ];
            assert_eq!(rt; first_unmet(rt.alloc(), &steps), Ok(None));
        }
    }
    Ok(())
}

#[test]
fn where_no_scope_is_open_a_name_opens_one(rt: HostRuntime) -> Result<(), Fail> {
    let steps = [
        Declare(0, Value, true),
        Leave,
        Sees(0, None),
        Admits(0, Typedef, true),
        Release(Value),
        Declare(1, Typedef, true),
        Sees(0, None),
        Sees(1, Some(Typedef)),
        Leave,
        Leave,
        Hold(0, Value, true),
        Holds(0, true),
        Sees(1, None),
        Close,
        Close,
        Reopen,
        Holds(0, false),
        Reopen,
        Holds(0, true),
    ];
    assert_eq!(rt; first_unmet(rt.alloc(), &steps), Ok(None));
    Ok(())
}

/// A kind for each number.
fn kind_at(n: u32) -> Kind {
    match n % 3 {
        0 => Typedef,
        1 => Value,
        _ => Constant,
    }
}

/// How many of the first 3,000 names have another kind than their number's.
fn others(scopes: &TypedefScopes) -> u32 {
    let mut count = 0u32;
    for n in 0..3000 {
        if scopes.kind_of(NameId::new(n)) != Some(kind_at(n)) {
            count = count.saturating_add(1);
        }
    }
    count
}

#[test]
fn many_names_and_scopes_are_told_apart(rt: HostRuntime) -> Result<(), Fail> {
    let mut scopes = TypedefScopes::new(rt.alloc(), false)?;
    for n in 0..3000 {
        let _new = scopes.declare(NameId::new(n), kind_at(n))?;
    }
    assert_eq!(rt; others(&scopes), 0);
    for n in 0..300 {
        scopes.enter()?;
        let _new = scopes.declare(NameId::new(n), kind_at(n + 1))?;
    }
    assert_eq!(rt; others(&scopes), 300);
    for _ in 0..300 {
        scopes.leave();
    }
    assert_eq!(rt; others(&scopes), 0);
    Ok(())
}
