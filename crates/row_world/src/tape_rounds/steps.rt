//! What each op of a tape does to the context.

ghost use Rattle.std.specs.Prelude.{◌≡◌, List, get_or, map, OnOk};
ghost use Rattle.row_rules.specs.RowSteps.Rounds as rules;
ghost use Rattle.expr_shapes.specs.ShapeStacks.Stacked.{no_declaration};
ghost use Rattle.expr_shapes.specs.ShapeStacks.Views.{open_as};
ghost use Rattle.row_world.specs.TapeRounds.Views.{naming_of};

use crate::tape_rounds::rounds::{Naming, Rounds};
use expr_shapes::shape_stacks::{OpenDeclaration, Stacks};
use qual_base::NoMemory;
use tape_ops::{DeclrOp, FormOp, Op, SpecOp, StmtOp};

/// What the names in a list of parameters are, by the innermost declaration. Constant time.
#[tactic(auto, using(crate::proofs::TapeRounds::Innermost::name_found))]
fn params_naming(it: &OpenDeclaration, is_own: bool) -> Naming
    ensures { (ds : List OpenDeclaration) → it.now ≡ get_or ds 0 no_declaration
        → naming_of result ≡ rules.params_naming is_own (map open_as ds) }
{
    if is_own {
        Naming::OwnParam {
            function: it.name,
            number: 0,
        }
    } else {
        Naming::OtherParam
    }
}

impl Rounds {
    /// What a form does. Constant time.
    fn pass_form(&mut self, op: FormOp)
        ensures { self.new ≡ rules.form_round self.old op }
    {
        match op {
            FormOp::Cast { .. } => {}
            FormOp::Sizeof { .. } => self.leave(),
            FormOp::StmtExpr { .. } => {}
            FormOp::VaArg { .. } => {}
            FormOp::VaStart { .. } => {}
            FormOp::VaCopy { .. } => {}
            FormOp::OffsetMember { .. } => {}
            FormOp::OffsetIndex { .. } => {}
            FormOp::Offset { .. } => self.leave(),
            FormOp::Compat { .. } => self.leave(),
            FormOp::Control => self.leave(),
            FormOp::NoType => {}
            FormOp::Choose { .. } => {}
            FormOp::Generic { .. } => {}
        }
    }

    /// What a word of specifiers does. Constant time but for growth.
    fn pass_specifier(&mut self, op: SpecOp) -> Result<(), NoMemory>
        ensures { OnOk result (self.new ≡ rules.spec_round self.old op) }
    {
        match op {
            SpecOp::Word { .. } => Ok(()),
            SpecOp::Storage { .. } => Ok(()),
            SpecOp::Void => Ok(()),
            SpecOp::Typedef { .. } => Ok(()),
            SpecOp::TagUse { .. } => Ok(()),
            SpecOp::TagAlone { .. } => Ok(()),
            SpecOp::TagBody { .. } => self.enter(),
            SpecOp::Untagged { .. } => self.enter(),
            SpecOp::BodyEnd => {
                self.leave();
                Ok(())
            }
            SpecOp::Enumerator { .. } => Ok(()),
            SpecOp::UnnamedMember { .. } => Ok(()),
            SpecOp::PartBegin => Ok(()),
            SpecOp::TypeofEnd { .. } => Ok(()),
            SpecOp::TypeEnd => Ok(()),
            SpecOp::SpecsEnd => Ok(()),
        }
    }

    /// What a part of a declarator does. Constant time but for growth.
    fn pass_declarator(&mut self, it: &OpenDeclaration, op: DeclrOp) -> Result<(), NoMemory>
        ensures { OnOk result ((ds : List OpenDeclaration) → it.now ≡ get_or ds 0 no_declaration
            → self.new ≡ rules.declr_round (map open_as ds) self.old op) }
    {
        match op {
            DeclrOp::DeclName { .. } => Ok(()),
            DeclrOp::ParamsBegin { is_own } => {
                let naming = params_naming(it, is_own);
                let quiet = self.is_quiet();
                self.begin(naming, quiet)
            }
            DeclrOp::Param => self.next_param(),
            DeclrOp::ParamsEnd => {
                self.leave();
                Ok(())
            }
            DeclrOp::Pointer => Ok(()),
            DeclrOp::Array => Ok(()),
            DeclrOp::Function { .. } => Ok(()),
            DeclrOp::Declare => Ok(()),
            DeclrOp::AutoBegin => Ok(()),
            DeclrOp::AutoEnd { .. } => Ok(()),
            DeclrOp::Identifier { .. } => self.identify(),
            DeclrOp::OldParam => Ok(()),
            DeclrOp::Member => Ok(()),
            DeclrOp::TypeName { .. } => Ok(()),
            DeclrOp::DeclarationEnd => Ok(()),
        }
    }

    /// The body of the function that was declared last begins. Constant time.
    #[tactic(auto, using(crate::proofs::TapeRounds::Innermost::declared_found))]
    fn begin_body(&mut self, it: &OpenDeclaration)
        ensures { (ds : List OpenDeclaration) → it.now ≡ get_or ds 0 no_declaration
            → self.new ≡ rules.stmt_round (map open_as ds) self.old StmtOp.FunctionBody }
    {
        self.set_body(it.declared);
    }

    /// What a statement does. Constant time but for growth.
    fn pass_statement(&mut self, it: &OpenDeclaration, op: StmtOp) -> Result<(), NoMemory>
        ensures { OnOk result ((ds : List OpenDeclaration) → it.now ≡ get_or ds 0 no_declaration
            → self.new ≡ rules.stmt_round (map open_as ds) self.old op) }
    {
        match op {
            StmtOp::Quiet => self.silence(),
            StmtOp::Loud => {
                self.leave();
                Ok(())
            }
            StmtOp::Pop => Ok(()),
            StmtOp::Return { .. } => Ok(()),
            StmtOp::Enter => self.enter(),
            StmtOp::Leave => {
                self.leave();
                Ok(())
            }
            StmtOp::FunctionBody => {
                self.begin_body(it);
                Ok(())
            }
            StmtOp::FunctionEnd => {
                self.set_body(None);
                Ok(())
            }
        }
    }

    /// What an op does, by the stacks before it. Constant time but for growth.
    pub fn pass(&mut self, stacks: &Stacks, op: Op) -> Result<(), NoMemory>
        ensures { OnOk result (self.new
            ≡ rules.round_step (map open_as stacks.now.declarations) self.old op) }
    {
        self.pass_by(&stacks.innermost(), op)
    }

    /// What an op does, by the innermost of the declarations that are open before it. Constant time but for growth.
    pub fn pass_by(&mut self, it: &OpenDeclaration, op: Op) -> Result<(), NoMemory>
        ensures { OnOk result ((ds : List OpenDeclaration) → it.now ≡ get_or ds 0 no_declaration
            → self.new ≡ rules.round_step (map open_as ds) self.old op) }
    {
        match op {
            Op::Expr(_) => Ok(()),
            Op::Form(op) => {
                self.pass_form(op);
                Ok(())
            }
            Op::Init(_) => Ok(()),
            Op::Spec(op) => self.pass_specifier(op),
            Op::Declr(op) => self.pass_declarator(it, op),
            Op::Stmt(op) => self.pass_statement(it, op),
        }
    }
}
