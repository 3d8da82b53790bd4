//! What is left to be put on a tape.

ghost use Rattle.std.specs.Prelude.{◌≡◌, ◌++◌, [], ◌∷◌, map, OnOk, true, false};
ghost use Rattle.c_tree.specs.View.{expr_of, declaration_of, declr_of, stmt_of};
ghost use Rattle.c_tree.specs.Unit.{spec_words_from, block_items_from, item_of};
ghost use Rattle.c_tree.specs.Lists.{assocs_from, exprs_from, struct_items_from, mem_declrs_from, enumerators_from, params_from, desigs_from, init_items_from, init_declrs_from};
ghost use Rattle.c_tape.specs.Tape.{assocs_tape, tape_in, auto_declrs_tape, identifiers_tape, old_contents, old_declarations_tape, old_declrs_tape, expr, form, init, spec, declr, stmt, quietly, expr_tape, exprs_tape, arguments, steps_tape, words_tape, unnamed_tape, struct_items_tape, mem_declrs_tape, enumerators_tape, contents, pieces, params_tape, pointer_words_tape, array_words_tape, quals_tape, init_items_tape, indices_tape, rule_of_items, desigs_tape, init_declrs_tape, block_items_tape, stmt_tape, items_tape};
ghost use Rattle.c_tape.specs.Pending.{pending, next_tape};

use c_syntax::{
    ArrayWord, Assoc, BlockItem, Declaration, Declr, Desig, Enumerator, Expr, Identifier,
    InitDeclr, InitItem, Item, Listed, MemDeclr, Param, PointerWord, Qual, SpecWord, Stmt,
    StructItem,
};
use qual_base::{NoMemory, TokenId};
use std::alloc::Global;
use std::marker::Model;
use tape_ops::{DeclrOp, ExprOp, FormOp, InitOp, Op, SpecOp, StmtOp};

/// A part of a tape that is left to be put on it: an op, a node, or the rest of a list of nodes.
#[derive(Clone, Copy)]
pub enum Task<'a> {
    Put(Op),
    /// An expression, whether it stands right before the `(` of a call, and whether its place is only addressed.
    Expr(&'a Box<Expr>, bool, bool),
    Exprs(&'a [Expr]),
    /// The arguments of a call, behind their values.
    Arguments(&'a [Expr]),
    /// The steps of an offset.
    Steps(&'a [Desig]),
    /// Words of specifiers, and whether a tag in them is a declaration by itself.
    Words(&'a [SpecWord], bool),
    /// A struct or union without a tag among the words of a member without a declarator.
    Unnamed(&'a [SpecWord]),
    StructItems(&'a [StructItem]),
    MemDeclrs(&'a [Listed<MemDeclr>]),
    Enumerators(&'a [Enumerator]),
    /// The name, the parameters and the sizes of a declarator, and whether it is of a function with a body.
    Contents(&'a Box<Declr>, bool),
    /// What the type of a declarator is made of.
    Pieces(&'a Box<Declr>),
    Params(&'a [Param]),
    PointerWords(&'a [PointerWord]),
    ArrayWords(&'a [ArrayWord]),
    Quals(&'a [Qual]),
    /// The expressions of a list of an initialiser.
    InitItems(&'a [InitItem]),
    /// The indices of designators.
    Indices(&'a [Desig]),
    /// The items of a list of an initialiser, with the targets of their values.
    RuleItems(&'a [InitItem]),
    Desigs(&'a [Desig]),
    InitDeclrs(&'a [Listed<InitDeclr>]),
    /// Items of a block, and whether the value of the last one is that of the block.
    BlockItems(&'a [BlockItem], bool),
    Stmt(&'a Box<Stmt>),
    Items(&'a [Item]),
    /// The associations of a selection by a type.
    Assocs(&'a [Assoc]),
    /// The declarators of a declaration with `__auto_type` and this `;`.
    AutoDeclrs(&'a [Listed<InitDeclr>], &'a TokenId),
    Identifiers(&'a [Identifier]),
    /// The name, the identifiers, the parameters and the sizes of a declarator of a function with these declarations.
    OldContents(&'a Box<Declr>, &'a [Declaration]),
    /// Declarations behind a list of identifiers.
    OldDeclarations(&'a [Declaration]),
    OldDeclrs(&'a [Listed<InitDeclr>]),
}

/// The tasks that are left, the next one last. Clauses see the tape that they are of.
#[derive(Drop)]
pub struct Todo<'a> {
    tasks: Vec<Task<'a>>,
}

impl<'a> Model for Todo<'a> {
    ghost use Rattle.std.specs.Prelude.{List};
    ghost use Rattle.tape_ops.specs.declared.op.Op as op;
    ghost use Rattle.c_tape.specs.Pending.{pending};

    ghost Value = { List op.Op };

    ghost view = { λ a. pending a.tasks.items };
}

impl<'a> Todo<'a> {
    #[tactic(auto, unfolding(crate::specs::Pending::pending))]
    pub fn new(alloc: Global) -> Self
        ensures { result ≡ [] }
    {
        Todo {
            tasks: Vec::new(alloc),
        }
    }

    /// Whether no task is left.
    #[tactic(auto, unfolding(crate::specs::Pending::pending))]
    pub fn is_done(&self) -> bool
        ensures { result ≡ true → self.now ≡ [] }
    {
        match self.tasks.last() {
            Some(_) => false,
            None => true,
        }
    }

    /// Takes the next task.
    #[tactic(auto, using(crate::proofs::TodoLemmas::pending_push), unfolding(crate::specs::Pending::pending))]
    pub fn next(&mut self) -> Option<Task<'a>>
        ensures { self.old ≡ next_tape result ++ self.new }
    {
        self.tasks.pop()
    }

    #[tactic(auto, using(crate::proofs::TodoLemmas::pending_push))]
    pub fn put(&mut self, op: Op) -> Result<(), NoMemory>
        ensures { OnOk result (self.new ≡ (op ∷ []) ++ self.old) }
    {
        match self.tasks.push(Task::Put(op)) {
            Ok(()) => Ok(()),
            Err(_) => Err(NoMemory),
        }
    }

    pub fn expr_op(&mut self, op: ExprOp) -> Result<(), NoMemory>
        ensures { OnOk result (self.new ≡ expr op ++ self.old) }
    {
        self.put(Op::Expr(op))
    }

    pub fn form_op(&mut self, op: FormOp) -> Result<(), NoMemory>
        ensures { OnOk result (self.new ≡ form op ++ self.old) }
    {
        self.put(Op::Form(op))
    }

    pub fn init_op(&mut self, op: InitOp) -> Result<(), NoMemory>
        ensures { OnOk result (self.new ≡ init op ++ self.old) }
    {
        self.put(Op::Init(op))
    }

    pub fn spec_op(&mut self, op: SpecOp) -> Result<(), NoMemory>
        ensures { OnOk result (self.new ≡ spec op ++ self.old) }
    {
        self.put(Op::Spec(op))
    }

    pub fn declr_op(&mut self, op: DeclrOp) -> Result<(), NoMemory>
        ensures { OnOk result (self.new ≡ declr op ++ self.old) }
    {
        self.put(Op::Declr(op))
    }

    pub fn stmt_op(&mut self, op: StmtOp) -> Result<(), NoMemory>
        ensures { OnOk result (self.new ≡ stmt op ++ self.old) }
    {
        self.put(Op::Stmt(op))
    }

    #[tactic(auto, using(crate::proofs::TodoLemmas::pending_push))]
    pub fn expr(&mut self, e: &'a Box<Expr>) -> Result<(), NoMemory>
        ensures { OnOk result (self.new ≡ expr_tape false (expr_of e.now.value) ++ self.old) }
    {
        match self.tasks.push(Task::Expr(e, false, false)) {
            Ok(()) => Ok(()),
            Err(_) => Err(NoMemory),
        }
    }

    /// An expression, and whether its place is only addressed.
    #[tactic(auto, using(crate::proofs::TodoLemmas::pending_push))]
    pub fn part(&mut self, e: &'a Box<Expr>, is_addressed: bool) -> Result<(), NoMemory>
        ensures { OnOk result
            (self.new ≡ tape_in false is_addressed (expr_of e.now.value) ++ self.old) }
    {
        match self.tasks.push(Task::Expr(e, false, is_addressed)) {
            Ok(()) => Ok(()),
            Err(_) => Err(NoMemory),
        }
    }

    /// An expression right before the `(` of a call.
    #[tactic(auto, using(crate::proofs::TodoLemmas::pending_push))]
    pub fn callee(&mut self, e: &'a Box<Expr>) -> Result<(), NoMemory>
        ensures { OnOk result (self.new ≡ expr_tape true (expr_of e.now.value) ++ self.old) }
    {
        match self.tasks.push(Task::Expr(e, true, false)) {
            Ok(()) => Ok(()),
            Err(_) => Err(NoMemory),
        }
    }

    /// An expression that says nothing.
    #[tactic(auto, using(crate::proofs::TodoLemmas::list_assoc))]
    pub fn quiet(&mut self, e: &'a Box<Expr>) -> Result<(), NoMemory>
        ensures { OnOk result
            (self.new ≡ quietly (expr_tape false (expr_of e.now.value)) ++ self.old) }
    {
        self.stmt_op(StmtOp::Loud)?;
        self.expr(e)?;
        self.stmt_op(StmtOp::Quiet)
    }

    #[tactic(auto, using(crate::proofs::TodoLemmas::pending_push))]
    pub fn words(&mut self, words: &'a [SpecWord], is_alone: bool) -> Result<(), NoMemory>
        ensures { OnOk result
            (self.new ≡ words_tape is_alone (spec_words_from words.now) ++ self.old) }
    {
        match self.tasks.push(Task::Words(words, is_alone)) {
            Ok(()) => Ok(()),
            Err(_) => Err(NoMemory),
        }
    }

    #[tactic(auto, using(crate::proofs::TodoLemmas::pending_push))]
    pub fn contents(&mut self, d: &'a Box<Declr>, is_own: bool) -> Result<(), NoMemory>
        ensures { OnOk result (self.new ≡ contents is_own (declr_of d.now.value) ++ self.old) }
    {
        match self.tasks.push(Task::Contents(d, is_own)) {
            Ok(()) => Ok(()),
            Err(_) => Err(NoMemory),
        }
    }

    #[tactic(auto, using(crate::proofs::TodoLemmas::pending_push))]
    pub fn pieces(&mut self, d: &'a Box<Declr>) -> Result<(), NoMemory>
        ensures { OnOk result (self.new ≡ pieces (declr_of d.now.value) ++ self.old) }
    {
        match self.tasks.push(Task::Pieces(d)) {
            Ok(()) => Ok(()),
            Err(_) => Err(NoMemory),
        }
    }

    #[tactic(auto, using(crate::proofs::TodoLemmas::pending_push))]
    pub fn block_items(&mut self, items: &'a [BlockItem], is_kept: bool) -> Result<(), NoMemory>
        ensures { OnOk result
            (self.new ≡ block_items_tape is_kept (block_items_from items.now) ++ self.old) }
    {
        match self.tasks.push(Task::BlockItems(items, is_kept)) {
            Ok(()) => Ok(()),
            Err(_) => Err(NoMemory),
        }
    }

    #[tactic(auto, using(crate::proofs::TodoLemmas::pending_push))]
    pub fn stmt(&mut self, s: &'a Box<Stmt>) -> Result<(), NoMemory>
        ensures { OnOk result (self.new ≡ stmt_tape false (stmt_of s.now.value) ++ self.old) }
    {
        match self.tasks.push(Task::Stmt(s)) {
            Ok(()) => Ok(()),
            Err(_) => Err(NoMemory),
        }
    }

    #[tactic(auto, using(crate::proofs::TodoLemmas::pending_push))]
    pub fn exprs(&mut self, es: &'a [Expr]) -> Result<(), NoMemory>
        ensures { OnOk result (self.new ≡ exprs_tape (exprs_from es.now) ++ self.old) }
    {
        match self.tasks.push(Task::Exprs(es)) {
            Ok(()) => Ok(()),
            Err(_) => Err(NoMemory),
        }
    }

    #[tactic(auto, using(crate::proofs::TodoLemmas::pending_push))]
    pub fn arguments(&mut self, es: &'a [Expr]) -> Result<(), NoMemory>
        ensures { OnOk result (self.new ≡ arguments (exprs_from es.now) ++ self.old) }
    {
        match self.tasks.push(Task::Arguments(es)) {
            Ok(()) => Ok(()),
            Err(_) => Err(NoMemory),
        }
    }

    #[tactic(auto, using(crate::proofs::TodoLemmas::pending_push))]
    pub fn steps(&mut self, steps: &'a [Desig]) -> Result<(), NoMemory>
        ensures { OnOk result (self.new ≡ steps_tape (desigs_from steps.now) ++ self.old) }
    {
        match self.tasks.push(Task::Steps(steps)) {
            Ok(()) => Ok(()),
            Err(_) => Err(NoMemory),
        }
    }

    #[tactic(auto, using(crate::proofs::TodoLemmas::pending_push))]
    pub fn unnamed(&mut self, words: &'a [SpecWord]) -> Result<(), NoMemory>
        ensures { OnOk result (self.new ≡ unnamed_tape (spec_words_from words.now) ++ self.old) }
    {
        match self.tasks.push(Task::Unnamed(words)) {
            Ok(()) => Ok(()),
            Err(_) => Err(NoMemory),
        }
    }

    #[tactic(auto, using(crate::proofs::TodoLemmas::pending_push))]
    pub fn struct_items(&mut self, items: &'a [StructItem]) -> Result<(), NoMemory>
        ensures { OnOk result
            (self.new ≡ struct_items_tape (struct_items_from items.now) ++ self.old) }
    {
        match self.tasks.push(Task::StructItems(items)) {
            Ok(()) => Ok(()),
            Err(_) => Err(NoMemory),
        }
    }

    #[tactic(auto, using(crate::proofs::TodoLemmas::pending_push))]
    pub fn mem_declrs(&mut self, declrs: &'a [Listed<MemDeclr>]) -> Result<(), NoMemory>
        ensures { OnOk result
            (self.new ≡ mem_declrs_tape (mem_declrs_from declrs.now) ++ self.old) }
    {
        match self.tasks.push(Task::MemDeclrs(declrs)) {
            Ok(()) => Ok(()),
            Err(_) => Err(NoMemory),
        }
    }

    #[tactic(auto, using(crate::proofs::TodoLemmas::pending_push))]
    pub fn enumerators(&mut self, items: &'a [Enumerator]) -> Result<(), NoMemory>
        ensures { OnOk result
            (self.new ≡ enumerators_tape (enumerators_from items.now) ++ self.old) }
    {
        match self.tasks.push(Task::Enumerators(items)) {
            Ok(()) => Ok(()),
            Err(_) => Err(NoMemory),
        }
    }

    #[tactic(auto, using(crate::proofs::TodoLemmas::pending_push))]
    pub fn params(&mut self, params: &'a [Param]) -> Result<(), NoMemory>
        ensures { OnOk result (self.new ≡ params_tape (params_from params.now) ++ self.old) }
    {
        match self.tasks.push(Task::Params(params)) {
            Ok(()) => Ok(()),
            Err(_) => Err(NoMemory),
        }
    }

    #[tactic(auto, using(crate::proofs::TodoLemmas::pending_push))]
    pub fn pointer_words(&mut self, words: &'a [PointerWord]) -> Result<(), NoMemory>
        ensures { OnOk result (self.new ≡ pointer_words_tape words.now ++ self.old) }
    {
        match self.tasks.push(Task::PointerWords(words)) {
            Ok(()) => Ok(()),
            Err(_) => Err(NoMemory),
        }
    }

    #[tactic(auto, using(crate::proofs::TodoLemmas::pending_push))]
    pub fn array_words(&mut self, words: &'a [ArrayWord]) -> Result<(), NoMemory>
        ensures { OnOk result (self.new ≡ array_words_tape words.now ++ self.old) }
    {
        match self.tasks.push(Task::ArrayWords(words)) {
            Ok(()) => Ok(()),
            Err(_) => Err(NoMemory),
        }
    }

    #[tactic(auto, using(crate::proofs::TodoLemmas::pending_push))]
    pub fn quals(&mut self, quals: &'a [Qual]) -> Result<(), NoMemory>
        ensures { OnOk result (self.new ≡ quals_tape quals.now ++ self.old) }
    {
        match self.tasks.push(Task::Quals(quals)) {
            Ok(()) => Ok(()),
            Err(_) => Err(NoMemory),
        }
    }

    #[tactic(auto, using(crate::proofs::TodoLemmas::pending_push))]
    pub fn init_items(&mut self, items: &'a [InitItem]) -> Result<(), NoMemory>
        ensures { OnOk result (self.new ≡ init_items_tape (init_items_from items.now) ++ self.old) }
    {
        match self.tasks.push(Task::InitItems(items)) {
            Ok(()) => Ok(()),
            Err(_) => Err(NoMemory),
        }
    }

    #[tactic(auto, using(crate::proofs::TodoLemmas::pending_push))]
    pub fn indices(&mut self, desigs: &'a [Desig]) -> Result<(), NoMemory>
        ensures { OnOk result (self.new ≡ indices_tape (desigs_from desigs.now) ++ self.old) }
    {
        match self.tasks.push(Task::Indices(desigs)) {
            Ok(()) => Ok(()),
            Err(_) => Err(NoMemory),
        }
    }

    #[tactic(auto, using(crate::proofs::TodoLemmas::pending_push))]
    pub fn rule_items(&mut self, items: &'a [InitItem]) -> Result<(), NoMemory>
        ensures { OnOk result (self.new ≡ rule_of_items (init_items_from items.now) ++ self.old) }
    {
        match self.tasks.push(Task::RuleItems(items)) {
            Ok(()) => Ok(()),
            Err(_) => Err(NoMemory),
        }
    }

    #[tactic(auto, using(crate::proofs::TodoLemmas::pending_push))]
    pub fn desigs(&mut self, desigs: &'a [Desig]) -> Result<(), NoMemory>
        ensures { OnOk result (self.new ≡ desigs_tape (desigs_from desigs.now) ++ self.old) }
    {
        match self.tasks.push(Task::Desigs(desigs)) {
            Ok(()) => Ok(()),
            Err(_) => Err(NoMemory),
        }
    }

    #[tactic(auto, using(crate::proofs::TodoLemmas::pending_push))]
    pub fn init_declrs(&mut self, declrs: &'a [Listed<InitDeclr>]) -> Result<(), NoMemory>
        ensures { OnOk result
            (self.new ≡ init_declrs_tape (init_declrs_from declrs.now) ++ self.old) }
    {
        match self.tasks.push(Task::InitDeclrs(declrs)) {
            Ok(()) => Ok(()),
            Err(_) => Err(NoMemory),
        }
    }

    #[tactic(auto, using(crate::proofs::TodoLemmas::pending_push))]
    pub fn items(&mut self, items: &'a [Item]) -> Result<(), NoMemory>
        ensures { OnOk result (self.new ≡ items_tape items.now ++ self.old) }
    {
        match self.tasks.push(Task::Items(items)) {
            Ok(()) => Ok(()),
            Err(_) => Err(NoMemory),
        }
    }

    #[tactic(auto, using(crate::proofs::TodoLemmas::pending_push))]
    pub fn assocs(&mut self, assocs: &'a [Assoc]) -> Result<(), NoMemory>
        ensures { OnOk result (self.new ≡ assocs_tape (assocs_from assocs.now) ++ self.old) }
    {
        match self.tasks.push(Task::Assocs(assocs)) {
            Ok(()) => Ok(()),
            Err(_) => Err(NoMemory),
        }
    }

    #[tactic(auto, using(crate::proofs::TodoLemmas::pending_push))]
    pub fn auto_declrs(
        &mut self,
        declrs: &'a [Listed<InitDeclr>],
        semi: &'a TokenId,
    ) -> Result<(), NoMemory>
        ensures { OnOk result
            (self.new ≡ auto_declrs_tape semi.now (init_declrs_from declrs.now) ++ self.old) }
    {
        match self.tasks.push(Task::AutoDeclrs(declrs, semi)) {
            Ok(()) => Ok(()),
            Err(_) => Err(NoMemory),
        }
    }

    #[tactic(auto, using(crate::proofs::TodoLemmas::pending_push))]
    pub fn identifiers(&mut self, names: &'a [Identifier]) -> Result<(), NoMemory>
        ensures { OnOk result (self.new ≡ identifiers_tape names.now ++ self.old) }
    {
        match self.tasks.push(Task::Identifiers(names)) {
            Ok(()) => Ok(()),
            Err(_) => Err(NoMemory),
        }
    }

    #[tactic(auto, using(crate::proofs::TodoLemmas::pending_push))]
    pub fn old_contents(
        &mut self,
        d: &'a Box<Declr>,
        declarations: &'a [Declaration],
    ) -> Result<(), NoMemory>
        ensures { OnOk result (self.new
            ≡ old_contents (map declaration_of declarations.now) (declr_of d.now.value)
            ++ self.old) }
    {
        match self.tasks.push(Task::OldContents(d, declarations)) {
            Ok(()) => Ok(()),
            Err(_) => Err(NoMemory),
        }
    }

    #[tactic(auto, using(crate::proofs::TodoLemmas::pending_push))]
    pub fn old_declarations(&mut self, declarations: &'a [Declaration]) -> Result<(), NoMemory>
        ensures { OnOk result (self.new
            ≡ old_declarations_tape (map declaration_of declarations.now) ++ self.old) }
    {
        match self.tasks.push(Task::OldDeclarations(declarations)) {
            Ok(()) => Ok(()),
            Err(_) => Err(NoMemory),
        }
    }

    #[tactic(auto, using(crate::proofs::TodoLemmas::pending_push))]
    pub fn old_declrs(&mut self, declrs: &'a [Listed<InitDeclr>]) -> Result<(), NoMemory>
        ensures { OnOk result
            (self.new ≡ old_declrs_tape (init_declrs_from declrs.now) ++ self.old) }
    {
        match self.tasks.push(Task::OldDeclrs(declrs)) {
            Ok(()) => Ok(()),
            Err(_) => Err(NoMemory),
        }
    }
}
