//! Which groups were followed.

ghost use Rattle.std.specs.Prelude.{◌≡◌, ◌<◌, ◌⊎◌, ◌↔◌, ℕ, [], true, false, IsTrue, IfOk, OnOk};
ghost use Rattle.error_path.specs.Marks.{mark_of, size_of, AreAmong};

use crate::marks::Marks;
use flow_graph::Phase;
use qual_base::{EdgeId, NoMemory, Numbered, VarId};
use std::alloc::Global;
use std::marker::Model;

/// For each phase a mark for each constraint. That of the last `Enter` of a site to a variable says that all groups of the
/// site that begin there were followed, and that of its last `Leave` from a variable that all those `Leave`s were. Beside the
/// marks those that were set are listed.
#[derive(Drop)]
pub struct Passed {
    marks: Marks,
    added: Vec<EdgeId>,
}

impl Model for Passed {
    ghost use Rattle.error_path.specs.Marks.{PhaseMarks, AreAmong};

    ghost Value = { PhaseMarks };

    ghost view = { λ p. p.marks };

    ghost invariant = { λ p. AreAmong p.marks p.added.items };
}

impl Passed {
    /// Marks that are not set: 2 bytes for each constraint.
    pub fn new(alloc: Global, constraints: u32) -> Result<Passed, NoMemory>
        ensures size { IfOk result (λ passed. size_of passed ≡ constraints) }
        ensures none { IfOk result (λ passed. (p : Phase) (n : ℕ) → mark_of passed p n ≡ false) }
    {
        let marks = Marks::new(alloc, constraints)?;
        Ok(Passed {
            marks,
            added: Vec::new(alloc),
        })
    }

    /// Whether a constraint is marked in a phase. Constant time.
    pub fn has(&self, phase: Phase, at: EdgeId) -> bool
        ensures { IsTrue result ↔ (mark_of self.now phase at ≡ true) }
    {
        self.marks.get(phase, VarId::new(at.number()))
    }

    /// Marks a constraint in a phase. Constant time but for growth.
    pub fn add(&mut self, phase: Phase, at: EdgeId) -> Result<(), NoMemory>
        requires { at < size_of self.old }
        ensures only { OnOk result ((p : Phase) (n : ℕ) →
            mark_of self.new p n ≡ true → (mark_of self.old p n ≡ true) ⊎ ((phase ≡ p) × (at ≡ n))) }
        ensures size { OnOk result (size_of self.new ≡ size_of self.old) }
    {
        self.added.push(at)?;
        self.marks.mark(phase, VarId::new(at.number()));
        Ok(())
    }

    /// Takes all marks away. Linear in those that were set.
    pub fn clear(&mut self)
        ensures none { (p : Phase) (n : ℕ) → mark_of self.new p n ≡ false }
        ensures size { size_of self.new ≡ size_of self.old }
    {
        clear_each(&mut self.marks, &mut self.added);
    }
}

/// Takes all marks away, where a list has each constraint that is marked. It is empty afterwards.
fn clear_each(marks: &mut Marks, added: &mut Vec<EdgeId>)
    requires { AreAmong marks.old added.old.items }
    ensures none { (p : Phase) (n : ℕ) → mark_of marks.new p n ≡ false }
    ensures size { size_of marks.new ≡ size_of marks.old }
{
    while let Some(at) = added.pop() {
        marks.clear(VarId::new(at.number()));
    }
}
