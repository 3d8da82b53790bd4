//! Arguments of a call.

ghost use Rattle.std.specs.Prelude.{◌≡◌, suc, OnOk};
ghost use Rattle.row_rules.specs.RowSteps.State as states;
ghost use Rattle.skel_steps.specs.SkelStacks.Views.{Tables, state_in};

use crate::skel_stacks::stacks::Stacks;
use qual_base::NoMemory;

impl Stacks {
    /// How many arguments of a call are behind us. Constant time.
    pub fn passed(&self) -> u32
        ensures { (t : Tables) → result ≡ (state_in t self.now).passed }
    {
        self.passed
    }

    /// One more argument is behind us. Constant time.
    pub fn pass_argument(&mut self) -> Result<(), NoMemory>
        ensures { OnOk result ((t : Tables) → state_in t self.new
            ≡ record (state_in t self.old) { passed = suc (state_in t self.old).passed }) }
    {
        if self.passed == u32::MAX {
            return Err(NoMemory);
        }
        self.passed += 1;
        Ok(())
    }

    /// The arguments of the next call begin. Constant time.
    pub fn leave_arguments(&mut self)
        ensures { (t : Tables) → state_in t self.new ≡ record (state_in t self.old) { passed = 0 } }
    {
        self.passed = 0;
    }
}
