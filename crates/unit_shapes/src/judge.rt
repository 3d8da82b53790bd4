//! The loop over a tape.

ghost use Rattle.std.specs.Prelude.{◌≡◌, ◌++◌, ℕ, List, None, Some, map, OnOk};
ghost use Rattle.type_table.specs.Types.{CType};
ghost use Rattle.name_rules.specs.Faults as rules;
ghost use Rattle.name_rules.specs.ShapeSteps.State.{nothing};
ghost use Rattle.name_rules.specs.ShapeSteps.Found.{faults_found};
ghost use Rattle.expr_shapes.specs.ShapeStacks.Views.{state_in};
ghost use Rattle.name_state.specs.UnitNames.Shown as shown;
ghost use Rattle.name_state.specs.UnitNames.Shown.{names_of};
ghost use Rattle.name_tables.specs.UnitSpelling.Spelled.{spelling_of};
ghost use Rattle.unit_shapes.specs.Faults.{rule_of, some_fault_of, keep, IsFirstOf};
ghost use Rattle.unit_shapes.specs.Views.{names_in, AreImplicit};

use crate::fault::{Fault, Rule, keep};
use crate::op_faults::note_faults;
use crate::steps::step;
use crate::uses::ImplicitTypes;
use expr_shapes::shape_stacks::Stacks;
use name_state::unit_names::Names;
use name_tables::name_records as records;
use name_tables::unit_spelling::Spelling;
use qual_base::NoMemory;
use std::alloc::Global;
use tape_ops::Op;
use type_table::TypeTable;

/// A rule of names among all rules.
fn rule_of_names(rule: &records::Rule) -> Rule
    ensures { rule_of result ≡ shown.rule_of rule.now }
{
    match rule {
        records::Rule::Undeclared => Rule::Undeclared,
        records::Rule::DefinedTwice => Rule::DefinedTwice,
        records::Rule::TypeTooLarge => Rule::TypeTooLarge,
        records::Rule::NoType => Rule::NoType,
    }
}

/// A fault of names among all faults.
fn fault_of_names(fault: &records::Fault) -> Fault
    ensures { some_fault_of (Some result) ≡ Some (shown.fault_of fault.now) }
{
    let rule = rule_of_names(&fault.rule);
    Fault { at: fault.at, rule }
}

/// Keeps the earliest one of a fault that is known and of some faults of names. Linear in them.
fn keep_each(best: &mut Option<Fault>, faults: &[records::Fault])
    ensures { some_fault_of best.new
        ≡ keep (some_fault_of best.old) (map shown.fault_of faults.now) }
{
    for fault in faults {
        keep(best, &fault_of_names(fault));
    }
}

/// The earliest of some faults of names. Linear in them.
fn earliest(faults: &[records::Fault]) -> Option<Fault>
    ensures { some_fault_of result ≡ keep None (map shown.fault_of faults.now) }
{
    let mut best = None;
    keep_each(&mut best, faults);
    best
}

/// The first of the faults of names; none where they have none. Linear in them.
pub fn first_of_names(names: &Names) -> Option<Fault>
    ensures { (t : ℕ → CType) → IsFirstOf (some_fault_of result) (names_of t names.now).faults }
{
    earliest(names.faults())
}

/// Keeps the first one of some faults and of these faults of names. Linear in them.
pub fn keep_of_names(best: &mut Option<Fault>, more: &[records::Fault])
    ensures { (faults : List rules.Fault) → IsFirstOf (some_fault_of best.old) faults
        → IsFirstOf (some_fault_of best.new) (faults ++ map shown.fault_of more.now) }
{
    keep_each(best, more);
}

/// Keeps the earliest one of a fault that is known and of those of a tape. Linear in the tape, but
/// for growth.
fn judge(
    best: &mut Option<Fault>,
    stacks: &mut Stacks,
    spelling: &Spelling,
    names: &Names,
    types: &TypeTable,
    implicit: &ImplicitTypes,
    tape: &[Op],
) -> Result<(), NoMemory>
    requires { AreImplicit types.now implicit.now }
    ensures { OnOk result (some_fault_of best.new ≡ keep (some_fault_of best.old)
        (faults_found (spelling_of spelling.now) (names_in types.now names.now)
        (state_in types.now stacks.old) tape.now)) }
{
    for op in tape {
        note_faults(best, stacks, spelling, names, types, *op);
        step(stacks, spelling, names, types, implicit, *op)?;
    }
    Ok(())
}

/// Keeps the first one of some faults and of those of a tape: of the expressions of a unit, which see also what is declared
/// behind them. Linear in the tape, but for growth.
pub fn judge_tape(
    alloc: Global,
    best: &mut Option<Fault>,
    spelling: &Spelling,
    names: &Names,
    types: &TypeTable,
    implicit: &ImplicitTypes,
    tape: &[Op],
) -> Result<(), NoMemory>
    requires { AreImplicit types.now implicit.now }
    ensures { OnOk result ((faults : List rules.Fault) → IsFirstOf (some_fault_of best.old) faults
        → IsFirstOf (some_fault_of best.new) (faults ++ faults_found (spelling_of spelling.now)
        (names_in types.now names.now) nothing tape.now)) }
{
    let mut stacks = Stacks::new(alloc);
    judge(best, &mut stacks, spelling, names, types, implicit, tape)?;
    Ok(())
}
