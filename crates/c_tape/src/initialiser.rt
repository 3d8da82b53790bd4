//! Initialisers, their designators, and the steps of offsets.

ghost use Rattle.std.specs.Prelude.{◌≡◌, ◌++◌, OnOk};
ghost use Rattle.c_tree.specs.View.{init_of, init_list_of};
ghost use Rattle.c_tree.specs.Lists.{desigs_from, init_items_from, some_init_from};
ghost use Rattle.c_tape.specs.Tape.{init_tape, list_tape, rule_of_list as list_again, init_items_tape, indices_tape, index_tape, rule, rule_of_items, desigs_tape, desig_tape, steps_tape, step_tape, declared_init_tape, some_init_tape};
ghost use Rattle.c_tape.specs.Parts.{list_rule};

use crate::todo::Todo;
use c_syntax::{Desig, Init, InitItem, InitList, Marked};
use c_tree::{first, last};
use qual_base::NoMemory;
use tape_ops::{FormOp, InitOp};

/// The expressions of a list in braces.
fn list_leaves<'a>(list: &'a InitList, todo: &mut Todo<'a>) -> Result<(), NoMemory>
    ensures { OnOk result (todo.new ≡ list_tape (init_list_of list.now) ++ todo.old) }
{
    todo.init_items(list.items.as_slice())
}

/// The expressions of an initialiser.
fn leaves<'a>(init: &'a Init, todo: &mut Todo<'a>) -> Result<(), NoMemory>
    ensures { OnOk result (todo.new ≡ init_tape (init_of init.now) ++ todo.old) }
{
    match init {
        Init::Value(e) => todo.expr(e),
        Init::InitList(list) => list_leaves(list, todo),
    }
}

/// The expressions of a list one after the other.
#[tactic(auto, using(crate::proofs::TodoLemmas::list_assoc))]
pub fn expand_init_items<'a>(items: &'a [InitItem], todo: &mut Todo<'a>) -> Result<(), NoMemory>
    ensures { OnOk result (todo.new ≡ init_items_tape (init_items_from items.now) ++ todo.old) }
{
    match items.split_first() {
        None => Ok(()),
        Some((item, rest)) => {
            todo.init_items(rest)?;
            leaves(&item.init, todo)?;
            todo.indices(item.desigs.as_slice())
        }
    }
}

/// The indices of designators one after the other.
#[tactic(auto, using(crate::proofs::TodoLemmas::list_assoc))]
pub fn expand_indices<'a>(desigs: &'a [Desig], todo: &mut Todo<'a>) -> Result<(), NoMemory>
    ensures { OnOk result (todo.new ≡ indices_tape (desigs_from desigs.now) ++ todo.old) }
{
    match desigs.split_first() {
        None => Ok(()),
        Some((Desig::Member { .. }, rest)) => todo.indices(rest),
        Some((Desig::Index { index, .. }, rest)) => {
            todo.indices(rest)?;
            todo.quiet(index)
        }
        Some((Desig::Range { first, last, .. }, rest)) => {
            todo.indices(rest)?;
            todo.quiet(last)?;
            todo.quiet(first)
        }
        Some((Desig::Old { .. }, rest)) => todo.indices(rest),
    }
}

/// A list in braces once more, with the targets of its values.
#[tactic(auto, using(crate::proofs::TodoLemmas::list_assoc))]
pub fn rule_of_list<'a>(items: &'a Vec<InitItem>, todo: &mut Todo<'a>) -> Result<(), NoMemory>
    ensures { OnOk result (todo.new ≡ list_rule items.now.items ++ todo.old) }
{
    todo.init_op(InitOp::ListEnd)?;
    todo.rule_items(items.as_slice())?;
    todo.init_op(InitOp::ListBegin)
}

fn rule_of_braces<'a>(list: &'a InitList, todo: &mut Todo<'a>) -> Result<(), NoMemory>
    ensures { OnOk result (todo.new ≡ list_again (init_list_of list.now) ++ todo.old) }
{
    rule_of_list(&list.items, todo)
}

fn rule_of<'a>(init: &'a Init, todo: &mut Todo<'a>) -> Result<(), NoMemory>
    ensures { OnOk result (todo.new ≡ rule (init_of init.now) ++ todo.old) }
{
    match init {
        Init::Value(e) => todo.init_op(InitOp::Leaf {
            first: first(e),
            last: last(e),
        }),
        Init::InitList(list) => rule_of_braces(list, todo),
    }
}

/// Items of a list one after the other, with the targets of their values.
#[tactic(auto, using(crate::proofs::TodoLemmas::list_assoc))]
pub fn expand_rule_items<'a>(items: &'a [InitItem], todo: &mut Todo<'a>) -> Result<(), NoMemory>
    ensures { OnOk result (todo.new ≡ rule_of_items (init_items_from items.now) ++ todo.old) }
{
    match items.split_first() {
        None => Ok(()),
        Some((item, rest)) => {
            todo.rule_items(rest)?;
            rule_of(&item.init, todo)?;
            todo.desigs(item.desigs.as_slice())
        }
    }
}

/// Designators one after the other.
#[tactic(auto, using(crate::proofs::TodoLemmas::list_assoc))]
pub fn expand_desigs<'a>(desigs: &'a [Desig], todo: &mut Todo<'a>) -> Result<(), NoMemory>
    ensures { OnOk result (todo.new ≡ desigs_tape (desigs_from desigs.now) ++ todo.old) }
{
    match desigs.split_first() {
        None => Ok(()),
        Some((Desig::Member { name, .. }, rest)) => {
            todo.desigs(rest)?;
            todo.init_op(InitOp::Member {
                token: name.token,
                name: name.name,
            })
        }
        Some((Desig::Old { name, .. }, rest)) => {
            todo.desigs(rest)?;
            todo.init_op(InitOp::Member {
                token: name.token,
                name: name.name,
            })
        }
        Some((Desig::Index { open, .. } | Desig::Range { open, .. }, rest)) => {
            todo.desigs(rest)?;
            todo.init_op(InitOp::Index { token: *open })
        }
    }
}

/// The steps of an offset one after the other.
#[tactic(auto, using(crate::proofs::TodoLemmas::list_assoc))]
pub fn expand_steps<'a>(steps: &'a [Desig], todo: &mut Todo<'a>) -> Result<(), NoMemory>
    ensures { OnOk result (todo.new ≡ steps_tape (desigs_from steps.now) ++ todo.old) }
{
    match steps.split_first() {
        None => Ok(()),
        Some((Desig::Member { name, .. }, rest)) => {
            todo.steps(rest)?;
            todo.form_op(FormOp::OffsetMember {
                token: name.token,
                name: name.name,
            })
        }
        Some((Desig::Old { name, .. }, rest)) => {
            todo.steps(rest)?;
            todo.form_op(FormOp::OffsetMember {
                token: name.token,
                name: name.name,
            })
        }
        Some(
            (
                Desig::Range {
                    open,
                    first: begin,
                    last: end,
                    ..
                },
                rest,
            ),
        ) => {
            todo.steps(rest)?;
            todo.form_op(FormOp::OffsetIndex { token: *open })?;
            todo.quiet(end)?;
            todo.expr(begin)
        }
        Some((Desig::Index { open, index, .. }, rest)) => {
            todo.steps(rest)?;
            todo.form_op(FormOp::OffsetIndex { token: *open })?;
            todo.expr(index)
        }
    }
}

/// The initialiser of the name that was declared last.
#[tactic(auto, using(crate::proofs::TodoLemmas::list_assoc))]
fn declared_init<'a>(init: &'a Init, todo: &mut Todo<'a>) -> Result<(), NoMemory>
    ensures { OnOk result (todo.new ≡ declared_init_tape (init_of init.now) ++ todo.old) }
{
    match init {
        Init::Value(e) => {
            todo.init_op(InitOp::Value {
                first: first(e),
                last: last(e),
            })?;
            todo.expr(e)
        }
        Init::InitList(list) => {
            todo.init_op(InitOp::End)?;
            rule_of_braces(list, todo)?;
            todo.init_op(InitOp::Rule)?;
            list_leaves(list, todo)?;
            todo.init_op(InitOp::Begin)
        }
    }
}

/// The initialiser of the name that was declared last, if there is one.
pub fn some_init<'a>(init: &'a Option<Marked<Init>>, todo: &mut Todo<'a>) -> Result<(), NoMemory>
    ensures { OnOk result (todo.new ≡ some_init_tape (some_init_from init.now) ++ todo.old) }
{
    match init {
        Some(init) => declared_init(&init.part, todo),
        None => Ok(()),
    }
}
