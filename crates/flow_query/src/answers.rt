//! The answer to who reaches a name.

ghost use Rattle.std.specs.Prelude.{◌≡◌, ◌∷◌, [], IfOk, OnOk, codes, length, option_map};
ghost use Rattle.flow_graph.specs.System.{IsWellOwned};
ghost use Rattle.annotate.specs.Scenes.{Shows, WritesSome};
ghost use Rattle.annotate.specs.Texts.{line};
ghost use Rattle.flow_query.specs.Answers.{IsWho, VarText, VarsText};
ghost use Rattle.flow_query.specs.Searches.{IsFinder, IsFound};
ghost use Rattle.flow_query.specs.Walks.{AllWalks};

use crate::asking::asked_of;
use crate::ends::all_ends;
use crate::searches::{Finder, Found, section_in};
use crate::sections::put_section;
use crate::walks::{Walks, add_all_walks, walks_in};
use annotate::{Scene, put, solve_all};
use error_path::Room;
use flow_graph::FlowGraph;
use qual_base::{LatticeNo, NoMemory, Numbered, VarId};
use std::alloc::Global;

/// What is written of a variable in all lattices, in order. Answers the finder.
fn put_var_sections(
    alloc: Global,
    out: &mut Vec<u8>,
    scene: &Scene<'_>,
    found: &Found<'_>,
    walks: &[Walks],
    finder: Finder,
    var: VarId,
) -> Result<Finder, NoMemory>
    requires found { IsFound found.now }
    requires count { length found.now.solutions.now ≡ length scene.now.lattices.now }
    requires walks { AllWalks found.now.graph.now (length scene.now.lattices.now) (var ∷ []) walks.now }
    requires finder { IsFinder found.now.graph.now finder }
    ensures finder { IfOk result (IsFinder found.now.graph.now) }
    ensures text { OnOk result (WritesSome scene.now out.old.items out.new.items
        (λ s text. VarText s found.now.graph.now var text)) }
{
    let mut finder = finder;
    for n in 0..scene.lattices.len() {
        let lattice = LatticeNo::new(n);
        let section = section_in(found, lattice, var);
        finder = put_section(
            alloc,
            out,
            scene,
            &section,
            walks_in(walks, lattice),
            finder,
        )?;
    }
    Ok(finder)
}

/// What is written of variables, in order.
fn put_vars(
    alloc: Global,
    out: &mut Vec<u8>,
    scene: &Scene<'_>,
    found: &Found<'_>,
    walks: &[Walks],
    finder: Finder,
    vars: &[VarId],
) -> Result<(), NoMemory>
    requires found { IsFound found.now }
    requires count { length found.now.solutions.now ≡ length scene.now.lattices.now }
    requires walks { AllWalks found.now.graph.now (length scene.now.lattices.now) vars.now walks.now }
    requires finder { IsFinder found.now.graph.now finder }
    ensures { OnOk result (WritesSome scene.now out.old.items out.new.items
        (λ s text. VarsText s found.now.graph.now vars.now text)) }
{
    let mut finder = finder;
    for var in vars {
        finder = put_var_sections(alloc, out, scene, found, walks, finder, *var)?;
    }
    Ok(())
}

/// The text for variables.
fn answer_found(
    alloc: Global,
    scene: &Scene<'_>,
    found: &Found<'_>,
    vars: &[VarId],
) -> Result<Vec<u8>, NoMemory>
    requires found { IsFound found.now }
    requires count { length found.now.solutions.now ≡ length scene.now.lattices.now }
    ensures { IfOk result (λ text. WritesSome scene.now (line (codes "who")) text.items
        (λ s text. VarsText s found.now.graph.now vars.now text)) }
{
    let finder = Finder::Idle(Room::new(alloc, found.graph, scene.vars.count())?);
    let mut walks = Vec::new(alloc);
    let finder = add_all_walks(alloc, &mut walks, found, scene.lattices, finder, vars)?;
    let mut text = Vec::new(alloc);
    put(&mut text, b"who\n")?;
    put_vars(alloc, &mut text, scene, found, &walks, finder, vars)?;
    Ok(text)
}

/// For each variable of a declared name with this spelling, in the order of the report, and each lattice: the constants that lead
/// to it, and the bounds that it leads to, each with a walk. None where no declared name is spelled so, which is known before
/// anything is solved, by a pass over the variables that the report lists.
///
/// Each lattice is solved once, and its constants and bounds are listed in one pass over the constraints. Then each variable of
/// the name takes in each lattice a look at each bound, and at each constant where some constant leads to the variable. What the
/// variable of a constant leads to is searched for once, where the element of the constant is one that reaches some variable of
/// the name; and what a variable of the name leads to once, where the lattice has a bound. Searches share their room, so each
/// takes the time of what it reaches, as `error_path::reach_from` says, and the memory of one is taken once: 6 bytes for each
/// variable and 2 for each constraint. The walks from constants are kept until they are written, which takes less than the text.
/// Beside that the time is linear in the text, and in the paths of the variables in it.
pub fn answer_who(
    alloc: Global,
    scene: &Scene<'_>,
    graph: &FlowGraph,
    name: &[u8],
) -> Result<Option<Vec<u8>>, NoMemory>
    requires owned { IsWellOwned graph.now }
    ensures { IfOk result (λ found. (s : _) → Shows scene.now s →
        IsWho s graph.now name.now (option_map (λ text. text.items) found)) }
{
    let vars = asked_of(alloc, scene, name)?;
    if vars.is_empty() {
        return Ok(None);
    }
    let solutions = solve_all(alloc, graph, scene.lattices)?;
    let ends = all_ends(alloc, graph, scene.lattices)?;
    let found = Found {
        graph,
        solutions: solutions.as_slice(),
        ends: ends.as_slice(),
    };
    let text = answer_found(alloc, scene, &found, &vars)?;
    Ok(Some(text))
}
