//! The text of certificates.

ghost use Rattle.std.specs.Prelude.{◌≡◌, ◌++◌, ◌+◌, ◌*◌, ◌<◌, ◌^◌, ℕ, Some, IfOk, OnOk, length};
ghost use Rattle.std.specs.Prelude.{map, slice_get, slice_index};
ghost use Rattle.certificate_text.specs.Names.{AreNames, ends_in, named_at, names_in};
ghost use Rattle.certificate_text.specs.Text.{sets_of, sets_text, pairs_of, pairs_text};
ghost use Rattle.certificate_text.specs.Text.{parts_text, written, lattice_text};
ghost use Rattle.certificate_text.specs.Naming.{pair_name, pair_names};

use crate::names::{end_at, ends, name_in, name_table};
use crate::order::put_in_order;
use crate::putting::{SetLine, put, put_lattice, put_pairs, put_set};
use closure_check::Part;
use flow_graph::FlowGraph;
use qual_base::{ElemSet, NoMemory, Numbered, VarId};
use std::alloc::{AllocError, Global};

/// The text of the certificates of a file's lattices: the line `certificate`, and for each lattice the line `lattice N`,
/// its lines `  set V F S` and its lines `  pair V W`. A variable stands under the name of the first end at which it
/// stands, `Na` or `Nb` for the ends of constraint N; one that stands at none is left out. Sets are numbers, in which
/// bit n is element n.
///
/// Takes memory linear in the constraints, the variables, the pairs and the text, and time too, for each lattice and but for
/// the sorting of its pairs.
pub fn certificate_text(
    alloc: Global,
    graph: &FlowGraph,
    parts: &[Part],
) -> Result<Vec<u8>, NoMemory>
    ensures { IfOk result (λ bytes. bytes.items
        ≡ Rattle.certificate_text.specs.Text.certificate_text graph.now parts.now) }
{
    let names = name_table(alloc, graph)?;
    let mut out = Vec::new(alloc);
    put(&mut out, b"certificate\n")?;
    put_parts(&mut out, graph, names.as_slice(), parts)?;
    Ok(out)
}

/// The certificates of all lattices.
fn put_parts(
    out: &mut Vec<u8>,
    graph: &FlowGraph,
    names: &[Option<u32>],
    parts: &[Part],
) -> Result<(), AllocError>
    requires { AreNames graph.now names.now }
    ensures { OnOk result (out.new.items ≡ out.old.items
        ++ parts_text 1 (map (λ part. written graph.now part) parts.now)) }
{
    let mut number: u64 = 1;
    for part in parts {
        put_lattice(out, number)?;
        put_sets(out, graph, names, part)?;
        put_named_pairs(out, graph, names, part.pairs.as_slice())?;
        number += 1;
    }
    Ok(())
}

/// The sets of all variables, in the order of their names.
fn put_sets(
    out: &mut Vec<u8>,
    graph: &FlowGraph,
    names: &[Option<u32>],
    part: &Part,
) -> Result<(), AllocError>
    requires { AreNames graph.now names.now }
    ensures { OnOk result (out.new.items ≡ out.old.items
        ++ sets_text (sets_of part.now (names_in graph.now))) }
{
    'ends: for end in 0..ends(graph) {
        put_set_at(out, graph, names, part, end)?;
    }
    Ok(())
}

/// The sets of the variable at an end, where that is its name.
fn put_set_at(
    out: &mut Vec<u8>,
    graph: &FlowGraph,
    names: &[Option<u32>],
    part: &Part,
    end: u32,
) -> Result<(), AllocError>
    requires names { AreNames graph.now names.now }
    requires within { end < 2 * length graph.now.constraints }
    ensures { OnOk result ((v : ℕ) → slice_get (ends_in graph.now) end ≡ Some v →
        out.new.items ≡ out.old.items ++ sets_text (sets_of part.now (named_at graph.now end v))) }
{
    let at = end_at(graph, end);
    if name_in(names, at) != Some(end) {
        return Ok(());
    }
    let second = bits_at(part.second.as_slice(), at);
    if second == 0 {
        return Ok(());
    }
    let first = bits_at(part.first.as_slice(), at);
    put_set(
        out,
        SetLine {
            name: end,
            first,
            second,
        },
    )
}

/// The set of a variable as a number, 0 past the last one.
fn bits_at(sets: &[ElemSet], at: VarId) -> u64
    ensures { result ≡ slice_index sets.now at }
{
    match sets.get(at.number() as usize) {
        Some(set) => set.number(),
        None => 0,
    }
}

/// The pairs in the order of their names.
fn put_named_pairs(
    out: &mut Vec<u8>,
    graph: &FlowGraph,
    names: &[Option<u32>],
    pairs: &[(VarId, VarId)],
) -> Result<(), AllocError>
    requires { AreNames graph.now names.now }
    ensures { OnOk result (out.new.items ≡ out.old.items
        ++ pairs_text (pairs_of pairs.now (names_in graph.now) (names_in graph.now))) }
{
    let mut named = named_pairs(*out.allocator(), names, pairs)?;
    put_in_order(&mut named)?;
    let _ = graph;
    put_pairs(out, named.as_slice())
}

/// The names of pairs.
fn named_pairs(
    alloc: Global,
    names: &[Option<u32>],
    pairs: &[(VarId, VarId)],
) -> Result<Vec<(u32, u32)>, AllocError>
    ensures { IfOk result (λ named. named.items ≡ pair_names names.now pairs.now) }
{
    let mut named = Vec::new(alloc);
    for pair in pairs {
        if let Some(name) = pair_name(names, *pair) {
            named.push(name)?;
        }
    }
    Ok(named)
}

/// The names of two variables, where both have one.
fn pair_name(names: &[Option<u32>], pair: (VarId, VarId)) -> Option<(u32, u32)>
    ensures { result ≡ pair_name names.now pair }
{
    match (name_in(names, pair.0), name_in(names, pair.1)) {
        (Some(from), Some(to)) => Some((from, to)),
        _ => None,
    }
}
