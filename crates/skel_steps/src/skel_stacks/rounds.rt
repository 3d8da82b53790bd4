//! What is around an op.

ghost use Rattle.std.specs.Prelude.{◌≡◌, OnOk};
ghost use Rattle.row_rules.specs.RowSteps.Rounds as rules;
ghost use Rattle.row_rules.specs.RowSteps.Steps as steps;
ghost use Rattle.row_world.specs.TapeRounds.Views.{naming_of};
ghost use Rattle.skel_steps.specs.SkelStacks.Views.{Tables, state_in};

use crate::skel_stacks::stacks::Stacks;
use qual_base::{NoMemory, TokenId};
use row_world::tape_rounds::Naming;
use tape_ops::Op;

impl Stacks {
    /// Whether nothing here gives a constraint. Constant time.
    pub fn is_quiet(&self) -> bool
        ensures { (t : Tables) → result ≡ rules.is_quiet (state_in t self.now).rounds }
    {
        self.rounds.is_quiet()
    }

    /// What the name of the next declarator is. Constant time.
    pub fn naming(&self) -> Naming
        ensures { (t : Tables) → naming_of result ≡ rules.naming (state_in t self.now).rounds }
    {
        self.rounds.naming()
    }

    /// The token of the name of the function whose body this is. Constant time.
    pub fn body(&self) -> Option<TokenId>
        ensures { (t : Tables) → result ≡ (state_in t self.now).rounds.body }
    {
        self.rounds.body()
    }

    /// What an op does to the context. Constant time but for growth.
    pub fn pass_around(&mut self, op: Op) -> Result<(), NoMemory>
        ensures { OnOk result ((t : Tables) → state_in t self.new
            ≡ steps.with_round_step (state_in t self.old) op (state_in t self.old)) }
    {
        let it = self.innermost();
        self.rounds.pass_by(&it, op)
    }
}
