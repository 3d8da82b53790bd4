//! The loop over a tape.

ghost use Rattle.std.specs.Prelude.{◌≡◌, ◌≤◌, ℕ, [], length, OnOk, IfOk, List};
ghost use Rattle.tape_ops.specs.declared.op.Op.{Op};
ghost use Rattle.type_table.specs.Types.{CType};
ghost use Rattle.name_state.specs.NameTypes.Known.{Knows, Grows};
ghost use Rattle.name_rules.specs.Units.{no_names, unit_begun};
ghost use Rattle.name_rules.specs.NameSteps.State.{with_names};
ghost use Rattle.name_rules.specs.NameSteps.Steps.{is_plain, is_counted, expression_step, statement_step, names_step, run};
ghost use Rattle.name_tables.specs.UnitSpelling.Spelled.{spelling_of};
ghost use Rattle.unit_shapes.specs.Views.{AreImplicit};
ghost use Rattle.name_state.specs.UnitNames.Shown.{names_of};
ghost use Rattle.c_names.specs.Shown.{state_of, state_at, passed_by, IsShown, AreShown};

use crate::specifier::no_specifiers;
use crate::stack::Stack;
use crate::state::State;
use c_words::Keyword;
use name_state::name_types::Types;
use name_state::name_uses::{enter_body, has_word, use_name};
use name_state::unit_names::Names;
use name_tables::unit_spelling::Spelling;
use qual_base::NoMemory;
use std::alloc::Global;
use tape_ops::{ExprOp, Op, StmtOp};
use unit_shapes::ImplicitTypes;

impl State {
    /// Nothing is begun; names are known as before. Takes no memory.
    #[tactic(auto, unfolding(crate::specs::Shown::state_of))]
    fn new(alloc: Global, names: Names) -> Self
        ensures { (t : ℕ → CType) (p : List Op) → state_of t p result
            ≡ passed_by p (with_names (names_of t names)) }
    {
        State {
            alloc,
            names,
            specifiers: no_specifiers(alloc),
            bodies: Stack::new(alloc),
            declarations: Stack::new(alloc),
            parameters: Stack::new(alloc),
            finished: Stack::new(alloc),
            parts: Stack::new(alloc),
        }
    }

    /// What an operand or operator does.
    #[tactic(auto, unfolding(crate::specs::Shown::state_of))]
    fn expression(&mut self, spelling: &Spelling, op: ExprOp) -> Result<(), NoMemory>
        ensures { OnOk result
            ((t : ℕ → CType) (p : List Op) → state_of t p self.new
            ≡ expression_step (spelling_of spelling.now) (state_of t p self.old) op) }
    {
        match op {
            ExprOp::Name {
                is_called,
                token,
                name,
            } => use_name(&mut self.names, spelling, is_called, token, name),
            ExprOp::Number { .. }
            | ExprOp::Char { .. }
            | ExprOp::Text { .. }
            | ExprOp::Paren { .. }
            | ExprOp::Ext { .. }
            | ExprOp::Comma { .. }
            | ExprOp::Assign { .. }
            | ExprOp::Cond { .. }
            | ExprOp::Binary { .. }
            | ExprOp::Prefix { .. }
            | ExprOp::Post { .. }
            | ExprOp::Index { .. }
            | ExprOp::Arg { .. }
            | ExprOp::Call { .. }
            | ExprOp::Arrow { .. }
            | ExprOp::Dot { .. }
            | ExprOp::Label { .. } => Ok(()),
        }
    }

    /// Whether a body of the innermost declaration is counted: in wider C one with `extern` and `inline` is not. Linear in its storage
    /// words.
    #[tactic(auto, unfolding(crate::specs::Shown::state_of))]
    fn is_counted(&self, spelling: &Spelling) -> bool
        ensures { (t : ℕ → CType) → result
            ≡ is_counted (spelling_of spelling.now) (state_of t [] self.now) }
    {
        match self.declarations.top() {
            Some(declaration) => {
                !(spelling.wide
                    && has_word(Keyword::Extern, &declaration.storage)
                    && has_word(Keyword::Inline, &declaration.storage))
            }
            None => true,
        }
    }

    /// Whether the innermost declaration is without `inline`. Linear in its storage words.
    #[tactic(auto, unfolding(crate::specs::Shown::state_of))]
    fn is_plain(&self) -> bool
        ensures { (t : ℕ → CType) → result ≡ is_plain (state_of t [] self.now) }
    {
        match self.declarations.top() {
            Some(declaration) => !has_word(Keyword::Inline, &declaration.storage),
            None => true,
        }
    }

    /// What a statement, a scope or a silence does.
    #[tactic(auto, unfolding(crate::specs::Shown::state_of))]
    fn statement(&mut self, spelling: &Spelling, op: StmtOp) -> Result<(), NoMemory>
        ensures { OnOk result ((t : ℕ → CType) (p : List Op) → state_of t p self.new
            ≡ statement_step (spelling_of spelling.now) (state_of t p self.old) op) }
    {
        match op {
            StmtOp::Quiet | StmtOp::Loud | StmtOp::Pop | StmtOp::Return { .. } => Ok(()),
            StmtOp::Enter => self.names.enter(),
            StmtOp::Leave => {
                self.names.leave();
                Ok(())
            }
            StmtOp::FunctionBody => {
                let is_plain = self.is_plain();
                let is_counted = self.is_counted(spelling);
                enter_body(&mut self.names, is_plain, is_counted)
            }
            StmtOp::FunctionEnd => {
                self.names.leave_body();
                Ok(())
            }
        }
    }

    /// What the op does that is behind so many ops of a tape. Constant time but for growth, and at the end of a type by an expression
    /// linear in the ops of that.
    fn step(
        &mut self,
        spelling: &Spelling,
        types: &mut Types,
        implicit: &ImplicitTypes,
        tape: &[Op],
        at: usize,
        op: Op,
    ) -> Result<(), NoMemory>
        requires shown { IsShown types.old self.old }
        requires implicit { AreImplicit types.old implicit.now }
        requires within { at ≤ length tape.now }
        ensures shown { OnOk result
            ((t : ℕ → CType) → Knows t types.new → state_at t tape.now at self.new
            ≡ names_step (spelling_of spelling.now) (state_at t tape.now at self.old) op) }
        ensures grown { OnOk result (Grows types.old types.new) }
    {
        match op {
            Op::Expr(op) => self.expression(spelling, op),
            Op::Form(_) => Ok(()),
            Op::Init(_) => Ok(()),
            Op::Spec(op) => self.specifier(spelling, types, implicit, tape, at, op),
            Op::Declr(op) => self.declarator(spelling, types, implicit, tape, at, op),
            Op::Stmt(op) => {
                self.statement(spelling, op)?;
                Ok(())
            }
        }
    }

    /// What the ops of a tape do, one after another. Linear in them but for looking names up in the scopes that are open.
    fn run(
        &mut self,
        spelling: &Spelling,
        types: &mut Types,
        implicit: &ImplicitTypes,
        tape: &[Op],
    ) -> Result<(), NoMemory>
        requires shown { IsShown types.old self.old }
        requires implicit { AreImplicit types.old implicit.now }
        ensures shown { OnOk result
            ((t : ℕ → CType) → Knows t types.new → state_of t tape.now self.new
            ≡ run (spelling_of spelling.now) tape.now (state_of t [] self.old)) }
        ensures grown { OnOk result (Grows types.old types.new) }
    {
        let mut at = 0;
        for op in tape {
            self.step(spelling, types, implicit, tape, at, *op)?;
            at += 1;
        }
        Ok(())
    }
}

/// The names of a unit and their types, from the tape of the unit and what is known behind the units before it. Linear in the
/// tape and in the names of those units, but for looking names up in the scopes that are open and for the words and parameters
/// of the types that are made.
pub fn name_unit(
    alloc: Global,
    mut names: Names,
    spelling: &Spelling,
    types: &mut Types,
    implicit: &ImplicitTypes,
    tape: &[Op],
) -> Result<Names, NoMemory>
    requires shown { AreShown types.old names }
    requires implicit { AreImplicit types.old implicit.now }
    ensures named { IfOk result (λ after. (t : ℕ → CType) → Knows t types.new → names_of t after
        ≡ (run (spelling_of spelling.now) tape.now
        (with_names (unit_begun (spelling_of spelling.now).unit (names_of t names)))).names) }
    ensures shown { IfOk result (λ after. AreShown types.new after) }
    ensures grown { OnOk result (Grows types.old types.new) }
{
    names.begin_unit(spelling.unit)?;
    let mut state = State::new(alloc, names);
    state.run(spelling, types, implicit, tape)?;
    Ok(state.names)
}

/// The names of one unit alone and their types.
pub fn resolve_names(
    alloc: Global,
    spelling: &Spelling,
    types: &mut Types,
    implicit: &ImplicitTypes,
    tape: &[Op],
) -> Result<Names, NoMemory>
    requires { AreImplicit types.old implicit.now }
    ensures named { IfOk result (λ after. (t : ℕ → CType) → Knows t types.new → names_of t after
        ≡ (run (spelling_of spelling.now) tape.now (with_names no_names)).names) }
    ensures shown { IfOk result (λ after. AreShown types.new after) }
    ensures grown { OnOk result (Grows types.old types.new) }
{
    let names = Names::new(alloc)?;
    let named = name_unit(alloc, names, spelling, types, implicit, tape)?;
    Ok(named)
}
