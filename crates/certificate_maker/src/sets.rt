//! The sets of a certificate.

ghost use Rattle.std.specs.Prelude.{IfOk};
ghost use Rattle.flow_graph.specs.declared.phase.Phase.TheVariants.{First};
ghost use Rattle.lattice_solver.specs.Phases.{set_of};
ghost use Rattle.lattice_solver.specs.Solution.{reached_at};
ghost use Rattle.certificate_maker.specs.Making.{AreSetsBy};

use lattice_solver::Solver;
use qual_base::{ElemSet, NoMemory, Numbered, VarId};
use std::alloc::Global;

/// What leads to each variable below a number with no call open since the last variable of nobody.
pub fn first_sets(alloc: Global, vars: u32, solver: &Solver) -> Result<Vec<ElemSet>, NoMemory>
    ensures { IfOk result (λ sets.
        AreSetsBy (λ v. set_of solver.now.phases First v) vars sets.items) }
{
    let mut sets = Vec::new(alloc);
    for n in 0..vars {
        sets.push(solver.first(VarId::new(n)))?;
    }
    Ok(sets)
}

/// What leads to each variable below a number.
pub fn second_sets(alloc: Global, vars: u32, solver: &Solver) -> Result<Vec<ElemSet>, NoMemory>
    ensures { IfOk result (λ sets.
        AreSetsBy (λ v. reached_at solver.now v) vars sets.items) }
{
    let mut sets = Vec::new(alloc);
    for n in 0..vars {
        sets.push(solver.reached(VarId::new(n)))?;
    }
    Ok(sets)
}
