//! The loop over a tape.

ghost use Rattle.std.specs.Prelude.{◌≡◌, ◌||◌, ◌∷◌, ◌++◌, [], map, not, suc, IfOk, OnOk};
ghost use Rattle.name_rules.specs.Values.{is_of_type};
ghost use Rattle.name_rules.specs.ShapeSteps.State as states;
ghost use Rattle.name_rules.specs.ShapeSteps.State.{nothing};
ghost use Rattle.name_rules.specs.ShapeSteps.Steps.{step, twice};
ghost use Rattle.row_rules.specs.RowSteps.Rounds.{round_step};
ghost use Rattle.row_rules.specs.RowSteps.Starting.{op_starts, starts_found, unit_starts};
ghost use Rattle.row_rules.specs.RowSteps.Starting.{form_op_selections, op_selections, selection_at, selections_found};
ghost use Rattle.expr_shapes.specs.ShapeStacks.Views.{state_in};
ghost use Rattle.name_tables.specs.UnitSpelling.Spelled.{spelling_of};
ghost use Rattle.unit_shapes.specs.Views.{names_in, AreImplicit};
ghost use Rattle.unit_starts.specs.Views.{start_in, starts_in};
ghost use Rattle.unit_starts.specs.Selecting.{AddsSelections, selection_row};

use crate::ops::start_of;
use crate::start::Start;
use expr_shapes::shape_stacks::Stacks;
use expr_shapes::{has_of_type, is_of_type};
use name_state::found_names::FoundNames;
use name_tables::place_flags::PlaceFlags;
use name_tables::unit_spelling::Spelling;
use qual_base::{NoMemory, TokenId};
use row_world::tape_rounds::Rounds;
use std::alloc::Global;
use std::marker::Model;
use tape_ops::{FormOp, Op};
use type_table::TypeTable;
use unit_shapes::{ImplicitTypes, step};

/// Skeletons in the order in which they begin. Clauses see their list. Memory is linear in it.
#[derive(Drop)]
pub struct Starts {
    all: Vec<Start>,
}

impl Model for Starts {
    ghost use Rattle.std.specs.Prelude.{List};
    ghost use Rattle.unit_starts.specs.declared.start.Start.{Start};

    ghost Value = { List Start };

    ghost view = { λ s. s.all.items };
}

impl Starts {
    /// No skeletons. Takes no memory.
    pub fn new(alloc: Global) -> Self
        ensures { result ≡ [] }
    {
        Starts {
            all: Vec::new(alloc),
        }
    }

    /// The skeletons in the order in which they begin.
    pub fn as_slice(&self) -> &[Start]
        ensures { result.now ≡ self.now }
    {
        self.all.as_slice()
    }

    /// Adds what begins at an op. Constant time but for growth.
    fn add(&mut self, types: &TypeTable, start: &Option<Start>) -> Result<(), NoMemory>
        ensures { OnOk result (map (start_in types.now) self.new
            ≡ map (start_in types.now) self.old ++ starts_in types.now start.now) }
    {
        let _ = types;
        match start {
            Some(start) => {
                // The borrow checker has to see the types of the parts.
                let (unit, token) = start.at;
                let it = Start {
                    at: (unit, token),
                    ..*start
                };
                match self.all.push(it) {
                    Ok(()) => Ok(()),
                    Err(_) => Err(NoMemory),
                }
            }
            None => Ok(()),
        }
    }
}

/// Whether an association of so many is a candidate, by how many are behind it. Linear in the depth of its type.
fn is_candidate(has_some: bool, stacks: &Stacks, types: &TypeTable, count: u32, behind: u32) -> bool
    ensures { result ≡ (not has_some || is_of_type
        (states.value_at (twice count) (state_in types.now stacks.now))
        (states.type_at (suc (twice behind)) (state_in types.now stacks.now))) }
{
    !has_some || is_of_type(stacks, types, count, behind)
}

/// Which of so many associations of a selection are candidates. Linear in them and in the depth of their types.
fn selection(
    alloc: Global,
    stacks: &Stacks,
    types: &TypeTable,
    count: u32,
) -> Result<Vec<bool>, NoMemory>
    ensures { IfOk result (λ row. row.items ≡ selection_row count (state_in types.now stacks.now)) }
{
    let has_some = has_of_type(stacks, types, count);
    let mut row = Vec::new(alloc);
    let mut left = count;
    while left > 0 {
        left -= 1;
        row.push(is_candidate(has_some, stacks, types, count, left))?;
    }
    Ok(row)
}

/// Adds which associations of a selection at a token are candidates.
fn add_selection(
    alloc: Global,
    candidates: &mut PlaceFlags,
    stacks: &Stacks,
    spelling: &Spelling,
    types: &TypeTable,
    token: TokenId,
    count: u32,
) -> Result<(), NoMemory>
    ensures { OnOk result (AddsSelections candidates.old candidates.new
        (selection_at (spelling_of spelling.now) (state_in types.now stacks.now) token count ∷ [])) }
{
    let row = selection(alloc, stacks, types, count)?;
    candidates.add(&spelling.place(token), row)
}

/// Adds which associations are candidates, where a form is a selection.
fn add_form(
    alloc: Global,
    candidates: &mut PlaceFlags,
    stacks: &Stacks,
    spelling: &Spelling,
    types: &TypeTable,
    op: FormOp,
) -> Result<(), NoMemory>
    ensures { OnOk result (AddsSelections candidates.old candidates.new
        (form_op_selections (spelling_of spelling.now) (state_in types.now stacks.now) op)) }
{
    match op {
        FormOp::Cast { .. } => Ok(()),
        FormOp::Sizeof { .. } => Ok(()),
        FormOp::StmtExpr { .. } => Ok(()),
        FormOp::VaArg { .. } => Ok(()),
        FormOp::VaStart { .. } => Ok(()),
        FormOp::VaCopy { .. } => Ok(()),
        FormOp::OffsetMember { .. } => Ok(()),
        FormOp::OffsetIndex { .. } => Ok(()),
        FormOp::Offset { .. } => Ok(()),
        FormOp::Compat { .. } => Ok(()),
        FormOp::Control => Ok(()),
        FormOp::NoType => Ok(()),
        FormOp::Choose { .. } => Ok(()),
        FormOp::Generic { token, count } => {
            add_selection(alloc, candidates, stacks, spelling, types, token, count)
        }
    }
}

/// Adds which associations are candidates, where an op is a selection.
fn add_candidates(
    alloc: Global,
    candidates: &mut PlaceFlags,
    stacks: &Stacks,
    spelling: &Spelling,
    types: &TypeTable,
    op: Op,
) -> Result<(), NoMemory>
    ensures { OnOk result (AddsSelections candidates.old candidates.new
        (op_selections (spelling_of spelling.now) (state_in types.now stacks.now) op)) }
{
    match op {
        Op::Expr(_) => Ok(()),
        Op::Form(op) => add_form(alloc, candidates, stacks, spelling, types, op),
        Op::Init(_) => Ok(()),
        Op::Spec(_) => Ok(()),
        Op::Declr(_) => Ok(()),
        Op::Stmt(_) => Ok(()),
    }
}

/// Adds what begins at an op, and what it selects, and passes by it. Constant time, but for growth, and linear in the members of the struct
/// one of which it names and in the associations of a selection.
fn pass(
    alloc: Global,
    found: &mut Starts,
    candidates: &mut PlaceFlags,
    stacks: &mut Stacks,
    rounds: &mut Rounds,
    spelling: &Spelling,
    names: &FoundNames,
    types: &TypeTable,
    implicit: &ImplicitTypes,
    op: &Op,
) -> Result<(), NoMemory>
    requires { AreImplicit types.now implicit.now }
    ensures starts { OnOk result (map (start_in types.now) found.new
        ≡ map (start_in types.now) found.old
        ++ op_starts (spelling_of spelling.now) (names_in types.now names.now)
        (state_in types.now stacks.old) rounds.old op.now) }
    ensures selections { OnOk result (AddsSelections candidates.old candidates.new
        (op_selections (spelling_of spelling.now) (state_in types.now stacks.old) op.now)) }
    ensures rounds { OnOk result (rounds.new
        ≡ round_step (state_in types.now stacks.old).declarations rounds.old op.now) }
    ensures stacks { OnOk result (state_in types.now stacks.new
        ≡ step (spelling_of spelling.now) (names_in types.now names.now)
        (state_in types.now stacks.old) op.now) }
{
    let start = start_of(stacks, spelling, names, types, implicit, rounds, *op);
    found.add(types, &start)?;
    add_candidates(alloc, candidates, stacks, spelling, types, *op)?;
    rounds.pass(stacks, *op)?;
    step(stacks, spelling, names.names(), types, implicit, *op)
}

/// Adds what begins along a tape. Linear in the tape, but for growth, and in the members of the structs one of which an op names.
fn find(
    alloc: Global,
    found: &mut Starts,
    candidates: &mut PlaceFlags,
    stacks: &mut Stacks,
    rounds: &mut Rounds,
    spelling: &Spelling,
    names: &FoundNames,
    types: &TypeTable,
    implicit: &ImplicitTypes,
    tape: &[Op],
) -> Result<(), NoMemory>
    requires { AreImplicit types.now implicit.now }
    ensures starts { OnOk result (map (start_in types.now) found.new
        ≡ map (start_in types.now) found.old
        ++ starts_found (spelling_of spelling.now) (names_in types.now names.now)
        (state_in types.now stacks.old) rounds.old tape.now) }
    ensures selections { OnOk result (AddsSelections candidates.old candidates.new
        (selections_found (spelling_of spelling.now) (names_in types.now names.now)
        (state_in types.now stacks.old) tape.now)) }
{
    for op in tape {
        pass(
            alloc, found, candidates, stacks, rounds, spelling, names, types, implicit, op,
        )?;
    }
    Ok(())
}

/// Adds the skeletons of a unit in the order in which they begin along its tape, and which associations of its selections by types are
/// candidates. `access`: some lattice has an element that bounds accesses. Linear in the tape, but for growth, and in the
/// members of the structs one of which an op names; memory is linear in the skeletons.
pub fn add_starts(
    alloc: Global,
    found: &mut Starts,
    candidates: &mut PlaceFlags,
    spelling: &Spelling,
    names: &FoundNames,
    types: &TypeTable,
    implicit: &ImplicitTypes,
    access: bool,
    tape: &[Op],
) -> Result<(), NoMemory>
    requires { AreImplicit types.now implicit.now }
    ensures starts { OnOk result (map (start_in types.now) found.new
        ≡ map (start_in types.now) found.old
        ++ unit_starts access (spelling_of spelling.now) (names_in types.now names.now) tape.now) }
    ensures selections { OnOk result (AddsSelections candidates.old candidates.new
        (selections_found (spelling_of spelling.now) (names_in types.now names.now) nothing
        tape.now)) }
{
    let mut stacks = Stacks::new(alloc);
    let mut rounds = Rounds::new(alloc, access);
    find(
        alloc,
        found,
        candidates,
        &mut stacks,
        &mut rounds,
        spelling,
        names,
        types,
        implicit,
        tape,
    )
}
