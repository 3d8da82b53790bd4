//! The constraints that names, initialisers and returns give.

ghost use Rattle.std.specs.Prelude.{◌≡◌, IfErr, IfOk, OnOk, option_map};
ghost use Rattle.tape_ops.specs.declared.initialiser.InitOp.TheVariants as inits;
ghost use Rattle.name_rules.specs.Uses.{use_at};
ghost use Rattle.tape_ops.specs.declared.statement.StmtOp.TheVariants as stmts;
ghost use Rattle.name_state.specs.UnitNames.Shown.{declared_of, role_of};
ghost use Rattle.row_rules.specs.Worlds.{World, at};
ghost use Rattle.row_rules.specs.Rows as rows;
ghost use Rattle.row_rules.specs.RowSteps.Rounds as rules;
ghost use Rattle.row_world.specs.TapeRounds.Views.{naming_of};
ghost use Rattle.row_rules.specs.RowSteps.OpRows as op_rows;
ghost use Rattle.row_world.specs.Shown.{Shows, skel, type};
ghost use Rattle.row_adding.specs.Adding.{Adds, Halts};
ghost use Rattle.row_adding.specs.Kinds.{kind_of};
ghost use Rattle.skel_steps.specs.Stepping.{state_of};

use flow_graph::{FlowGraph, GraphFault};
use name_tables::name_records::{Declared, Role};
use qual_base::{NoMemory, SkelId, TokenId};
use row_adding as adding;
use row_adding::RowKind;
use row_world::tape_rounds::Naming;
use row_world::{Known, contents};
use skel_steps::skel_stacks::Stacks;
use skel_steps::{initialised_by, target_in, value_at};
use std::alloc::Global;

/// The skeleton of the function whose name is at a token. Constant time.
pub(crate) fn function_skeleton(known: &Known, token: &Option<TokenId>) -> Option<SkelId>
    ensures { (w : World) → Shows known.now w
        → option_map (skel known.now) result ≡ op_rows.function_skeleton w token.now }
{
    match token {
        Some(token) => Some(contents(known.vars, known.own(*token))),
        None => None,
    }
}

/// A name.
pub(crate) fn name_row(
    known: &Known,
    graph: &mut FlowGraph,
    token: TokenId,
) -> Result<(), GraphFault>
    ensures ok { OnOk result (Adds known.now graph.old graph.new (λ w.
        rows.use_demand w token (use_at w.names.uses (at w token)))) }
    ensures err { IfErr result (λ fault. Halts known.now graph.old graph.new fault (λ w.
        rows.use_demand w token (use_at w.names.uses (at w token)))) }
{
    let found = known.use_at(token);
    adding::used(known, graph, token, &found)
}

/// A value that initialises the name that was declared last.
pub(crate) fn value_row(
    known: &Known,
    stacks: &Stacks,
    graph: &mut FlowGraph,
    first: TokenId,
    last: TokenId,
) -> Result<(), GraphFault>
    ensures ok { OnOk result (Adds known.now graph.old graph.new (λ w.
        op_rows.init_row w (state_of known.now stacks.now) (inits.Value first last))) }
    ensures err { IfErr result (λ fault. Halts known.now graph.old graph.new fault (λ w.
        op_rows.init_row w (state_of known.now stacks.now) (inits.Value first last))) }
{
    let token = stacks.declared_last();
    let target = initialised_by(known, &token);
    let is_zero = stacks.is_zero_at(0);
    let operand = stacks.val_at(known.vars, 0);
    let span = known.span(first, last);
    adding::into_target(known, graph, &target, is_zero, &operand, &span)
}

/// The next value of an initialiser in braces.
pub(crate) fn leaf_row(
    known: &Known,
    stacks: &Stacks,
    graph: &mut FlowGraph,
    first: TokenId,
    last: TokenId,
) -> Result<(), GraphFault>
    ensures ok { OnOk result (Adds known.now graph.old graph.new (λ w.
        op_rows.init_row w (state_of known.now stacks.now) (inits.Leaf first last))) }
    ensures err { IfErr result (λ fault. Halts known.now graph.old graph.new fault (λ w.
        op_rows.init_row w (state_of known.now stacks.now) (inits.Leaf first last))) }
{
    let it = stacks.braces();
    let target = target_in(known, &it);
    let is_zero = stacks.leaf_is_zero();
    let operand = stacks.leaf_val(known.vars);
    let span = known.span(first, last);
    adding::into_target(known, graph, &target, is_zero, &operand, &span)
}

/// A `return` with a value.
pub(crate) fn return_row(
    known: &Known,
    stacks: &Stacks,
    graph: &mut FlowGraph,
    token: TokenId,
    last: TokenId,
) -> Result<(), GraphFault>
    ensures ok { OnOk result (Adds known.now graph.old graph.new (λ w.
        op_rows.stmt_row w (state_of known.now stacks.now) (stmts.Return token last))) }
    ensures err { IfErr result (λ fault. Halts known.now graph.old graph.new fault (λ w.
        op_rows.stmt_row w (state_of known.now stacks.now) (stmts.Return token last))) }
{
    let own = function_skeleton(known, &stacks.body());
    let is_zero = stacks.is_zero_at(0);
    let value = value_at(known, stacks, 0);
    let span = known.span(token, last);
    adding::returned(known, graph, &own, is_zero, value, &span)
}

/// A compound literal.
pub(crate) fn literal_row(
    alloc: Global,
    known: &Known,
    stacks: &Stacks,
    graph: &mut FlowGraph,
    token: TokenId,
) -> Result<(), GraphFault>
    ensures ok { OnOk result (Adds known.now graph.old graph.new (λ w.
        op_rows.init_row w (state_of known.now stacks.now) (inits.Literal token))) }
    ensures err { IfErr result (λ fault. Halts known.now graph.old graph.new fault (λ w.
        op_rows.init_row w (state_of known.now stacks.now) (inits.Literal token))) }
{
    let ty = stacks.type_below();
    adding::literal(alloc, known, graph, token, &ty)
}

/// The kind of the row of a parameter, by the token of its function's name and by its number. Constant time.
fn parameter_kind(
    known: &Known,
    function: &Option<TokenId>,
    number: usize,
) -> Result<RowKind, NoMemory>
    ensures { IfOk result (λ kind. (w : World) → Shows known.now w
        → kind_of (skel known.now) kind
        ≡ op_rows.some_param_row (op_rows.function_skeleton w function.now) number) }
{
    match function_skeleton(known, function) {
        Some(own) => {
            if number > u32::MAX as usize {
                return Err(NoMemory);
            }
            Ok(RowKind::Parameter(own, number as u32))
        }
        None => Ok(RowKind::Nothing),
    }
}

/// The kind of the row of a parameter by its identifier, by what its declaration is as. Constant time.
fn numbered_kind(known: &Known, function: &Option<TokenId>, role: Role) -> Result<RowKind, NoMemory>
    ensures { IfOk result (λ kind. (w : World) → Shows known.now w
        → kind_of (skel known.now) kind
        ≡ rows.numbered_row (op_rows.function_skeleton w function.now) (role_of role)) }
{
    match role {
        Role::Typedef => Ok(RowKind::Nothing),
        Role::Object => Ok(RowKind::Nothing),
        Role::Function => Ok(RowKind::Nothing),
        Role::Parameter(number) => parameter_kind(known, function, number),
        Role::Field(_, _) => Ok(RowKind::Nothing),
        Role::Enumerator => Ok(RowKind::Nothing),
    }
}

/// The kind of the row of a parameter by its identifier, by its declaration. Constant time.
fn kind_by(
    known: &Known,
    function: &Option<TokenId>,
    declared: &Option<Declared>,
) -> Result<RowKind, NoMemory>
    ensures { IfOk result (λ kind. (w : World) → Shows known.now w
        → kind_of (skel known.now) kind
        ≡ rows.identified_by (op_rows.function_skeleton w function.now)
        (option_map (declared_of (type known.now)) declared.now)) }
{
    match declared {
        Some(declared) => numbered_kind(known, function, declared.role),
        None => Ok(RowKind::Nothing),
    }
}

/// The kind of the row of a parameter by its identifier: its number is that of its declaration, where that is one of a parameter.
/// Constant time.
fn identified_kind(
    known: &Known,
    function: &Option<TokenId>,
    token: TokenId,
) -> Result<RowKind, NoMemory>
    ensures { IfOk result (λ kind. (w : World) → Shows known.now w
        → kind_of (skel known.now) kind
        ≡ op_rows.identified_row w (op_rows.function_skeleton w function.now) token) }
{
    let declared = known.declared_here(token);
    kind_by(known, function, &declared)
}

/// The kind of the row of a declarator's name, by what it is. Constant time.
fn naming_kind(known: &Known, naming: Naming, token: TokenId) -> Result<RowKind, NoMemory>
    ensures { IfOk result (λ kind. (w : World) → Shows known.now w
        → kind_of (skel known.now) kind ≡ op_rows.naming_row w (naming_of naming) token) }
{
    match naming {
        Naming::Name => Ok(RowKind::Name),
        Naming::OwnParam { function, number } => parameter_kind(known, &function, number),
        Naming::OtherParam => Ok(RowKind::Nothing),
        Naming::Identified { function } => identified_kind(known, &function, token),
    }
}

/// The name of a declarator.
pub(crate) fn declared_row(
    alloc: Global,
    known: &Known,
    stacks: &Stacks,
    graph: &mut FlowGraph,
    token: TokenId,
) -> Result<(), GraphFault>
    ensures ok { OnOk result (Adds known.now graph.old graph.new (λ w.
        rows.row_at w (op_rows.naming_row w
        (rules.naming (state_of known.now stacks.now).rounds) token) token)) }
    ensures err { IfErr result (λ fault. Halts known.now graph.old graph.new fault (λ w.
        rows.row_at w (op_rows.naming_row w
        (rules.naming (state_of known.now stacks.now).rounds) token) token)) }
{
    let naming = stacks.naming();
    match naming_kind(known, naming, token) {
        Ok(kind) => adding::declared(alloc, known, graph, &kind, token),
        Err(_) => Err(GraphFault::NoMemory),
    }
}
