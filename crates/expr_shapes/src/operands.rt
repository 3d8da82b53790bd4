//! Operands.

ghost use Rattle.std.specs.Prelude.{◌≡◌, ℕ, List, OnOk};
ghost use Rattle.type_table.specs.declared.row.TypeRow as row;
ghost use Rattle.name_rules.specs.Spellings.{Spelling};
ghost use Rattle.name_rules.specs.Scopes.{Names};
ghost use Rattle.expr_shapes.specs.ShapeValues.Views.{shape_in};
ghost use Rattle.name_rules.specs.ShapeSteps.State as states;
ghost use Rattle.name_rules.specs.ShapeSteps.Steps as steps;
ghost use Rattle.expr_shapes.specs.ShapeStacks.Views.{state_in};
ghost use Rattle.expr_shapes.specs.Types.{ArePlain};
ghost use Rattle.tape_ops.specs.declared.expression.ExprOp.TheVariants as exprs;

use crate::plain::Plain;
use crate::shape_stacks::Stacks;
use crate::shape_values::{ExprShape, ValueType};
use qual_base::NoMemory;
use type_table::TypeTable;

/// A name, of which this was found. Constant time but for growth.
pub fn name(stacks: &mut Stacks, shape: &ExprShape) -> Result<(), NoMemory>
    ensures { OnOk result ((rows : List row.TypeRow)
        → state_in rows stacks.new
        ≡ states.put 0 (shape_in rows shape.now) (state_in rows stacks.old)) }
{
    stacks.put(0, shape, false)
}

/// A number, by whether it is spelled `0`. Constant time but for growth.
pub fn number(
    stacks: &mut Stacks,
    types: &TypeTable,
    plain: &Plain,
    is_naught: bool,
) -> Result<(), NoMemory>
    requires { ArePlain types.now plain.now }
    ensures { OnOk result ((u : Spelling) (s : Names) (token : ℕ)
        → is_naught ≡ u.is_naught token → state_in types.now stacks.new
        ≡ steps.expr_step u s (state_in types.now stacks.old) (exprs.Number token)) }
{
    let _ = types;
    stacks.put(
        0,
        &ExprShape::Value(Some(ValueType::Of(plain.base))),
        is_naught,
    )
}

/// A character. Constant time but for growth.
pub fn plain_operand(stacks: &mut Stacks, types: &TypeTable, plain: &Plain) -> Result<(), NoMemory>
    requires { ArePlain types.now plain.now }
    ensures { OnOk result ((u : Spelling) (s : Names) (token : ℕ)
        → state_in types.now stacks.new
        ≡ steps.expr_step u s (state_in types.now stacks.old) (exprs.Char token)) }
{
    let _ = types;
    stacks.put(0, &ExprShape::Value(Some(ValueType::Of(plain.base))), false)
}

/// Texts. Constant time but for growth.
pub fn text(stacks: &mut Stacks, types: &TypeTable, plain: &Plain) -> Result<(), NoMemory>
    requires { ArePlain types.now plain.now }
    ensures { OnOk result ((u : Spelling) (s : Names) (token : ℕ)
        → state_in types.now stacks.new
        ≡ steps.expr_step u s (state_in types.now stacks.old) (exprs.Text token)) }
{
    let _ = types;
    stacks.put(0, &ExprShape::Place(Some(plain.text)), false)
}

/// `__extension__`. Constant time.
pub fn extension(stacks: &mut Stacks) -> Result<(), NoMemory>
    ensures { OnOk result ((rows : List row.TypeRow) (u : Spelling) (s : Names) (token : ℕ)
        → state_in rows stacks.new
        ≡ steps.expr_step u s (state_in rows stacks.old) (exprs.Ext token)) }
{
    let shape = stacks.shape_at(0);
    stacks.put(1, &shape, false)
}
