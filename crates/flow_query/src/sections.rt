//! What is written of a variable in a lattice.

ghost use Rattle.std.specs.Prelude.{◌≡◌, ◌<◌, ◌∷◌, ◌++◌, [], IfOk, OnOk, length, codes};
ghost use Rattle.std.specs.Fmt.{decimal};
ghost use Rattle.annotate.specs.Texts.{line, walk_text};
ghost use Rattle.annotate.specs.Scenes.{Writes, WritesSome};
ghost use Rattle.flow_query.specs.Answers.{FromText, FromsText, ToText, TosText, SectionText};
ghost use Rattle.flow_query.specs.Answers.{headed};
ghost use Rattle.flow_query.specs.Searches.{IsBoundAt, IsFinder, IsSearchIn, IsSection};
ghost use Rattle.flow_query.specs.Walks.{AreWalks};

use crate::ends::{bound_at, constant_at, is_unreached};
use crate::searches::{Finder, Search, Section, search_at, walk_to};
use crate::walks::Walks;
use annotate::{Scene, put, put_decimal, put_var, put_walk};
use flow_graph::{FlowGraph, Walk};
use qual_base::{EdgeId, LatticeNo, NoMemory, Numbered, VarId};
use std::alloc::Global;
use walk_laws::leads_are_walks;

/// A line with a word and the number of a constraint, and the lines of a walk.
fn put_lines(
    out: &mut Vec<u8>,
    scene: &Scene<'_>,
    graph: &FlowGraph,
    word: &[u8],
    number: EdgeId,
    walk: &Walk,
    begin: Option<EdgeId>,
    bound: Option<EdgeId>,
) -> Result<(), NoMemory>
    ensures { OnOk result (Writes scene.now out.old.items out.new.items (λ s.
        line (word.now ++ decimal number) ++ walk_text s graph.now begin bound walk.now)) }
{
    put(out, word)?;
    put_decimal(out, u64::from(number.number()))?;
    put(out, b"\n")?;
    put_walk(out, scene, graph, walk, begin, bound)
}

/// What is written of a bound behind the variable that is asked of, by a search from that.
fn put_bound(
    alloc: Global,
    out: &mut Vec<u8>,
    scene: &Scene<'_>,
    section: &Section<'_>,
    search: &Search,
    number: EdgeId,
    at: VarId,
) -> Result<(), NoMemory>
    requires section { IsSection section.now }
    requires search { IsSearchIn section.now search.now }
    requires start { search.now.start ≡ section.now.var }
    requires bound { IsBoundAt section.now.graph.now section.now.lattice number at }
    ensures { OnOk result (WritesSome scene.now out.old.items out.new.items (λ s text.
        ToText s section.now.graph.now section.now.lattice section.now.var number text)) }
{
    leads_are_walks();
    if !search.reach.reaches(at) {
        return Ok(());
    }
    let walk = walk_to(alloc, section, search, at)?;
    put_lines(
        out,
        scene,
        section.graph,
        b"to ",
        number,
        &walk,
        None,
        Some(number),
    )
}

/// What is written of a constraint before the variable that is asked of, by the walk from its variable.
fn put_from(
    out: &mut Vec<u8>,
    scene: &Scene<'_>,
    section: &Section<'_>,
    walks: &Walks,
    number: EdgeId,
) -> Result<(), NoMemory>
    requires section { IsSection section.now }
    requires walks { AreWalks
        section.now.graph.now section.now.lattice (section.now.var ∷ []) walks.now }
    requires number { number < length section.now.graph.now.constraints }
    ensures { OnOk result (WritesSome scene.now out.old.items out.new.items (λ s text.
        FromText s section.now.graph.now section.now.lattice section.now.var number text)) }
{
    leads_are_walks();
    let Some(at) = constant_at(section, number) else {
        return Ok(());
    };
    let Some(walk) = walks.get(at, section.var) else {
        return Ok(());
    };
    put_lines(
        out,
        scene,
        section.graph,
        b"from ",
        number,
        walk,
        Some(number),
        None,
    )
}

/// What is written of a constraint behind the variable that is asked of, by a search from that.
fn put_to(
    alloc: Global,
    out: &mut Vec<u8>,
    scene: &Scene<'_>,
    section: &Section<'_>,
    search: &Search,
    number: EdgeId,
) -> Result<(), NoMemory>
    requires section { IsSection section.now }
    requires search { IsSearchIn section.now search.now }
    requires start { search.now.start ≡ section.now.var }
    requires number { number < length section.now.graph.now.constraints }
    ensures { OnOk result (WritesSome scene.now out.old.items out.new.items (λ s text.
        ToText s section.now.graph.now section.now.lattice section.now.var number text)) }
{
    match bound_at(section, number) {
        None => Ok(()),
        Some(at) => put_bound(alloc, out, scene, section, search, number, at),
    }
}

/// The constants that lead to the variable, in order. Goes over the constants of the lattice where one leads there.
fn put_froms(
    out: &mut Vec<u8>,
    scene: &Scene<'_>,
    section: &Section<'_>,
    walks: &Walks,
) -> Result<(), NoMemory>
    requires section { IsSection section.now }
    requires walks { AreWalks
        section.now.graph.now section.now.lattice (section.now.var ∷ []) walks.now }
    ensures { OnOk result (WritesSome scene.now out.old.items out.new.items (λ s text.
        FromsText s section.now.graph.now section.now.lattice section.now.var text)) }
{
    if is_unreached(section) {
        return Ok(());
    }
    put_constants(out, scene, section, walks)
}

/// The same, where constants may lead to the variable.
fn put_constants(
    out: &mut Vec<u8>,
    scene: &Scene<'_>,
    section: &Section<'_>,
    walks: &Walks,
) -> Result<(), NoMemory>
    requires section { IsSection section.now }
    requires walks { AreWalks
        section.now.graph.now section.now.lattice (section.now.var ∷ []) walks.now }
    ensures { OnOk result (WritesSome scene.now out.old.items out.new.items (λ s text.
        FromsText s section.now.graph.now section.now.lattice section.now.var text)) }
{
    let constants = section.ends.constants.as_slice();
    for number in constants {
        put_from(out, scene, section, walks, *number)?;
    }
    Ok(())
}

/// The bounds that the variable leads to, in order. Goes over the bounds of the lattice. One search, and none where the lattice
/// has no bound.
fn put_tos(
    alloc: Global,
    out: &mut Vec<u8>,
    scene: &Scene<'_>,
    section: &Section<'_>,
    finder: Finder,
) -> Result<Finder, NoMemory>
    requires section { IsSection section.now }
    requires finder { IsFinder section.now.graph.now finder }
    ensures finder { IfOk result (IsFinder section.now.graph.now) }
    ensures text { OnOk result (WritesSome scene.now out.old.items out.new.items (λ s text.
        TosText s section.now.graph.now section.now.lattice section.now.var text)) }
{
    let bounds = section.ends.bounds.as_slice();
    if bounds.is_empty() {
        return Ok(finder);
    }
    let search = search_at(section, finder, section.var)?;
    for number in bounds {
        put_to(alloc, out, scene, section, &search, *number)?;
    }
    Ok(Finder::Kept(search))
}

/// The line of a variable and a lattice before what is listed there, and nothing where that is nothing.
fn put_headed(
    out: &mut Vec<u8>,
    scene: &Scene<'_>,
    lattice: LatticeNo,
    var: VarId,
    listed: &[u8],
) -> Result<(), NoMemory>
    ensures { OnOk result (Writes scene.now out.old.items out.new.items
        (λ s. headed s lattice var listed.now)) }
{
    if listed.is_empty() {
        return Ok(());
    }
    put(out, b"at ")?;
    put_var(out, scene, var)?;
    put(out, b" lattice ")?;
    put_decimal(out, u64::from(lattice.number()) + 1)?;
    put(out, b"\n")?;
    put(out, listed)?;
    Ok(())
}

/// What is written of a variable in a lattice: a look at the bounds of the lattice, and at its constants where one leads to the
/// variable; a search for the bounds; and the text. Answers the finder, which keeps the last search.
pub fn put_section(
    alloc: Global,
    out: &mut Vec<u8>,
    scene: &Scene<'_>,
    section: &Section<'_>,
    walks: &Walks,
    finder: Finder,
) -> Result<Finder, NoMemory>
    requires section { IsSection section.now }
    requires walks { AreWalks
        section.now.graph.now section.now.lattice (section.now.var ∷ []) walks.now }
    requires finder { IsFinder section.now.graph.now finder }
    ensures finder { IfOk result (IsFinder section.now.graph.now) }
    ensures text { OnOk result (WritesSome scene.now out.old.items out.new.items (λ s text.
        SectionText s section.now.graph.now section.now.var section.now.lattice text)) }
{
    let mut listed = Vec::new(alloc);
    put_froms(&mut listed, scene, section, walks)?;
    let finder = put_tos(alloc, &mut listed, scene, section, finder)?;
    put_headed(out, scene, section.lattice, section.var, &listed)?;
    Ok(finder)
}
