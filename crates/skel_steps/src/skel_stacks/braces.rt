//! Initialisers in braces.

ghost use Rattle.std.specs.Prelude.{◌≡◌, option_map, ◌∷◌, false, drop, List, OnOk};
ghost use Rattle.type_table.specs.declared.row.TypeRow as row;
ghost use Rattle.row_rules.specs.RowSteps.State as states;
ghost use Rattle.name_rules.specs.ShapeSteps.State.{without_innermost};
ghost use Rattle.row_rules.specs.RowSteps.Steps as steps;
ghost use Rattle.skel_steps.specs.SkelStacks.Stacked.{is_last};
ghost use Rattle.skel_steps.specs.SkelStacks.Views.{Tables, tables, state_in, braces_in, skel_in};

use crate::skel_stacks::stacks::{Braces, Stacks};
use qual_base::{NoMemory, SkelId};
use qual_types::VarTable;
use row_world::contents;

impl Stacks {
    /// The operands of an initialiser in braces begin. Constant time but for growth.
    #[tactic(auto, using(crate::proofs::SkelStacks::Lists::length_viewed))]
    pub fn begin(&mut self) -> Result<(), NoMemory>
        ensures { OnOk result ((t : Tables) → state_in t self.new
            ≡ steps.begun (state_in t self.old)) }
    {
        let count = self.operands.len();
        self.bases.push(count)
    }

    /// A list in braces begins, which initialises this skeleton. Constant time but for growth.
    pub fn begin_list(&mut self, target: &Option<SkelId>) -> Result<(), NoMemory>
        ensures { OnOk result ((t : Tables) → state_in t self.new
            ≡ record (state_in t self.old) {
              braces = steps.list_of (option_map (skel_in t) target.now)
                  ∷ (state_in t self.old).braces;
            }) }
    {
        self.braces.push(list_of(target))
    }

    /// What is gone through; outside of all initialisers a list that initialises nothing. Constant time.
    #[tactic(auto, using(crate::proofs::SkelStacks::Lists::first_found))]
    pub fn braces(&self) -> Braces
        ensures { (t : Tables) → braces_in t result
            ≡ states.first_braces (state_in t self.now).braces }
    {
        self.braces.at(0, Braces::Untargeted)
    }

    /// This is gone through in place of the innermost. Constant time.
    pub fn replace_braces(&mut self, next: &Braces) -> Result<(), NoMemory>
        ensures { OnOk result ((t : Tables) (change : states.Braces → states.Braces)
            → braces_in t next.now ≡ change (states.first_braces (state_in t self.old).braces)
            → state_in t self.new ≡ steps.in_braces change (state_in t self.old)) }
    {
        self.braces.replace(*next)
    }

    /// The next item of the innermost list is behind us. Constant time.
    fn pass_item(&mut self) -> Result<(), NoMemory>
        ensures { OnOk result ((t : Tables) → state_in t self.new
            ≡ steps.in_braces steps.with_item (state_in t self.old)) }
    {
        let it = self.braces();
        if is_last(&it) {
            return Err(NoMemory);
        }
        let next = passed(&it);
        self.replace_braces(&next)
    }

    /// The innermost list, behind a designator of an element. Constant time.
    pub fn index(&mut self, vars: &VarTable) -> Result<(), NoMemory>
        ensures { OnOk result ((types : List row.TypeRow) → state_in (tables vars.now types)
            self.new
            ≡ steps.in_braces steps.with_index (state_in (tables vars.now types) self.old)) }
    {
        let it = self.braces();
        let next = indexed(vars, &it);
        self.replace_braces(&next)
    }

    /// An item takes the next operand. Constant time.
    pub fn take_leaf(&mut self) -> Result<(), NoMemory>
        ensures { OnOk result ((t : Tables) → state_in t self.new
            ≡ steps.leaf_taken (state_in t self.old)) }
    {
        self.drop_leaf();
        self.pass_item()
    }

    /// The next operand of an item goes. Constant time.
    fn drop_leaf(&mut self)
        ensures { (t : Tables) → state_in t self.new
            ≡ record (state_in t self.old) { leaves = drop 1 (state_in t self.old).leaves } }
    {
        self.leaves.take_off(1);
    }

    /// The innermost list ends, and is an item itself. Constant time.
    pub fn leave_list(&mut self) -> Result<(), NoMemory>
        ensures { OnOk result ((t : Tables) → state_in t self.new
            ≡ steps.list_left (state_in t self.old)) }
    {
        self.drop_list();
        self.pass_item()
    }

    /// The innermost list goes. Constant time.
    #[tactic(auto, using(crate::proofs::SkelStacks::Lists::braces_left))]
    fn drop_list(&mut self)
        ensures { (t : Tables) → state_in t self.new
            ≡ record (state_in t self.old)
            { braces = without_innermost (state_in t self.old).braces } }
    {
        self.braces.take_off(1);
    }
}

/// A list of a skeleton, if there is one.
fn list_of(target: &Option<SkelId>) -> Braces
    ensures { (t : Tables) → braces_in t result
        ≡ steps.list_of (option_map (skel_in t) target.now) }
{
    match target {
        None => Braces::Untargeted,
        Some(skel) => Braces::Listed {
            skel: *skel,
            is_first: true,
            next: 0,
            named: None,
        },
    }
}

/// Whether the next member is the last that has a number.
fn is_last(it: &Braces) -> bool
    ensures { result ≡ is_last it.now }
{
    match it {
        Braces::Whole(_) => false,
        Braces::Untargeted => false,
        Braces::Listed { next, .. } => *next == usize::MAX,
    }
}

/// A list behind an item.
fn passed(it: &Braces) -> Braces
    requires { is_last it.now ≡ false }
    ensures { (t : Tables) → braces_in t result ≡ steps.with_item (braces_in t it.now) }
{
    match it {
        Braces::Whole(skel) => Braces::Whole(*skel),
        Braces::Untargeted => Braces::Untargeted,
        Braces::Listed {
            skel,
            next,
            named,
            ..
        } => {
            let next = match named {
                Some(_) => *next,
                None => *next + 1,
            };
            Braces::Listed {
                skel: *skel,
                is_first: false,
                next,
                named: None,
            }
        }
    }
}

/// A list behind a designator of an element.
fn indexed(vars: &VarTable, it: &Braces) -> Braces
    ensures { (types : List row.TypeRow) → braces_in (tables vars.now types) result
        ≡ steps.with_index (braces_in (tables vars.now types) it.now) }
{
    match it {
        Braces::Whole(skel) => Braces::Whole(*skel),
        Braces::Untargeted => Braces::Untargeted,
        Braces::Listed {
            skel,
            is_first,
            next,
            named,
        } => {
            let inside = match named {
                Some(named) => contents(vars, *named),
                None => contents(vars, *skel),
            };
            Braces::Listed {
                skel: *skel,
                is_first: *is_first,
                next: *next,
                named: Some(inside),
            }
        }
    }
}
