//! The index words of a function: which of its nodes matched paths join.

ghost use Rattle.std.specs.Prelude.{◌≡◌, ◌<◌, ◌≤◌, ◌+◌, ◌-◌, ◌^◌, ℕ, [], IfOk, OnOk, length};
ghost use Rattle.std.specs.Prelude.{slice_get, MatchOption, Some};
ghost use Rattle.match_summary.specs.declared.reason.Summary.{Summary};
ghost use Rattle.sig_writer.specs.Marks.{AreIndicesOf, AreMarks, IsJoined, JoinsNone};
ghost use Rattle.sig_writer.specs.Marking.{AreUpTo, IsEnd, IsLastEnd, IsMarked, Marks, Puts};
ghost use Rattle.sig_writer.specs.Marking.{Reaches, SomeFrom};
ghost use Rattle.sig_writer.specs.Marking.{ends_with, items_at, marked_before, with_last};

use crate::nodes::Nodes;
use match_summary::Summaries;
use qual_base::{NoMemory, Numbered, VarId};
use std::alloc::Global;

/// A pair of nodes, by their numbers among the nodes.
#[derive(Clone, Copy)]
struct Pair {
    from: u32,
    to: u32,
}

/// The nodes that a matched path joins, where it joins two different ones.
fn joined(summaries: &Summaries, nodes: Nodes, at: usize) -> Option<Pair>
    requires { at < length summaries.now }
    ensures { (row : Summary) → slice_get summaries.now at ≡ Some row →
        MatchOption result (JoinsNone nodes row) (IsJoined nodes row) }
{
    let row = summaries.row(at);
    let from = nodes.find(row.from)?;
    let to = nodes.find(row.to)?;
    if from == to {
        return None;
    }
    Some(Pair { from, to })
}

/// Marks two nodes, where a matched path joins them.
fn mark(marks: &mut Vec<bool>, summaries: &Summaries, nodes: Nodes, at: usize)
    requires at { at < length summaries.now }
    requires size { length marks.old.items ≡ nodes.to - nodes.from }
    ensures { (row : Summary) → slice_get summaries.now at ≡ Some row →
        Marks (IsEnd nodes row) marks.old.items marks.new.items }
{
    if let Some(pair) = joined(summaries, nodes, at) {
        marks[pair.from as usize] = true;
        marks[pair.to as usize] = true;
    }
}

/// Marks a node and those that matched paths from it lead to. Linear in the matched paths that begin at it.
fn mark_from(marks: &mut Vec<bool>, summaries: &Summaries, nodes: Nodes, from: VarId)
    requires { length marks.old.items ≡ nodes.to - nodes.from }
    ensures { Marks (λ i. SomeFrom summaries.now from (λ row. IsEnd nodes row i))
        marks.old.items marks.new.items }
{
    let mut next = summaries.newest_from(from);
    while let Some(at) = next {
        mark(marks, summaries, nodes, at);
        next = summaries.before_from(at);
    }
}

/// No marks at so many nodes.
fn no_marks(alloc: Global, count: u32) -> Result<Vec<bool>, NoMemory>
    ensures size { IfOk result (λ marks. length marks.items ≡ count) }
    ensures none { IfOk result (λ marks. (i : ℕ) → IsMarked marks.items i → ⊥) }
{
    match vec![in alloc; false; count as usize] {
        Ok(marks) => Ok(marks),
        Err(_) => Err(NoMemory),
    }
}

/// For each node whether matched paths join it with another one. Linear in the matched paths that begin at nodes.
fn marks_of(alloc: Global, summaries: &Summaries, nodes: Nodes) -> Result<Vec<bool>, NoMemory>
    requires { nodes.from ≤ nodes.to }
    ensures { IfOk result (λ marks. AreMarks nodes summaries.now marks.items) }
{
    let mut marks = no_marks(alloc, nodes.count())?;
    for n in nodes.from..nodes.to {
        mark_from(&mut marks, summaries, nodes, VarId::new(n));
    }
    Ok(marks)
}

/// So many empty lists.
fn no_lists(alloc: Global, count: u32) -> Result<Vec<Vec<u32>>, NoMemory>
    ensures size { IfOk result (λ lists. length lists.items ≡ count) }
    ensures empty { IfOk result (λ lists. (j : ℕ) → items_at lists.items j ≡ []) }
{
    let mut lists = Vec::new(alloc);
    for _ in 0..count {
        lists.push(Vec::new(alloc))?;
    }
    Ok(lists)
}

/// Whether a list ends with a number.
fn ends_with(list: &[u32], number: u32) -> bool
    ensures { result ≡ ends_with list.now number }
{
    match list.last() {
        Some(last) => *last == number,
        None => false,
    }
}

/// Puts a number at the end of a list, where it does not stand there.
fn put(list: &mut Vec<u32>, number: u32) -> Result<(), NoMemory>
    ensures { OnOk result (list.new.items ≡ with_last list.old.items number) }
{
    if ends_with(list, number) {
        return Ok(());
    }
    list.push(number)?;
    Ok(())
}

/// Puts a number into the list of a node.
fn put_at(lists: &mut Vec<Vec<u32>>, at: u32, number: u32) -> Result<(), NoMemory>
    requires { at < length lists.old.items }
    ensures { OnOk result (Puts (λ j. at ≡ j) number lists.old.items lists.new.items) }
{
    put(&mut lists[at as usize], number)
}

/// Puts a number into the list of the node that a matched path leads to.
fn add(
    lists: &mut Vec<Vec<u32>>,
    summaries: &Summaries,
    nodes: Nodes,
    at: usize,
    number: u32,
) -> Result<(), NoMemory>
    requires at { at < length summaries.now }
    requires size { length lists.old.items ≡ nodes.to - nodes.from }
    ensures { OnOk result ((row : Summary) → slice_get summaries.now at ≡ Some row →
        Puts (IsLastEnd nodes row) number lists.old.items lists.new.items) }
{
    match joined(summaries, nodes, at) {
        Some(pair) => put_at(lists, pair.to, number),
        None => Ok(()),
    }
}

/// Puts the number of a node into the lists of the nodes that matched paths from it lead to. Linear in the matched paths that begin
/// at it.
fn add_from(
    lists: &mut Vec<Vec<u32>>,
    summaries: &Summaries,
    nodes: Nodes,
    from: VarId,
    number: u32,
) -> Result<(), NoMemory>
    requires { length lists.old.items ≡ nodes.to - nodes.from }
    ensures { OnOk result (Puts (λ j. SomeFrom summaries.now from (λ row. IsLastEnd nodes row j))
        number lists.old.items lists.new.items) }
{
    let mut next = summaries.newest_from(from);
    while let Some(at) = next {
        add(lists, summaries, nodes, at, number)?;
        next = summaries.before_from(at);
    }
    Ok(())
}

/// Puts the number of a node into its own list, and into those of the nodes that matched paths from it lead to.
fn add_node(
    lists: &mut Vec<Vec<u32>>,
    summaries: &Summaries,
    nodes: Nodes,
    n: u32,
    number: u32,
) -> Result<(), NoMemory>
    requires size { length lists.old.items ≡ nodes.to - nodes.from }
    requires node { n < nodes.to - nodes.from }
    ensures { OnOk result
        (Puts (Reaches nodes summaries.now n) number lists.old.items lists.new.items) }
{
    put_at(lists, n, number)?;
    add_from(lists, summaries, nodes, VarId::new(nodes.from + n), number)
}

/// Numbers a node, where it is marked, and gives how many are numbered then.
fn number_node(
    lists: &mut Vec<Vec<u32>>,
    marks: &[bool],
    summaries: &Summaries,
    nodes: Nodes,
    n: u32,
    numbered: u32,
) -> Result<u32, NoMemory>
    requires marks { AreMarks nodes summaries.now marks.now }
    requires node { n < nodes.to - nodes.from }
    requires few { n + 1 < 2 ^ 32 }
    requires numbered { numbered ≡ marked_before marks.now n }
    requires lists { AreUpTo nodes summaries.now marks.now n lists.old.items }
    ensures numbered { IfOk result (λ numbered. numbered ≡ marked_before marks.now (n + 1)) }
    ensures lists { OnOk result (AreUpTo nodes summaries.now marks.now (n + 1) lists.new.items) }
{
    if !marks[n as usize] {
        return Ok(numbered);
    }
    add_node(lists, summaries, nodes, n, numbered + 1)?;
    Ok(numbered + 1)
}

/// For each node the numbers of its index word, ascending; none where it has no such word. Marked nodes are numbered from 1, in
/// pre-order. Linear in the nodes, and in the matched paths that begin at them.
pub fn indices_of(
    alloc: Global,
    summaries: &Summaries,
    nodes: Nodes,
) -> Result<Vec<Vec<u32>>, NoMemory>
    requires { nodes.from ≤ nodes.to }
    ensures { IfOk result (λ lists. AreIndicesOf nodes summaries.now lists.items) }
{
    let marks = marks_of(alloc, summaries, nodes)?;
    let mut lists = no_lists(alloc, nodes.count())?;
    let mut numbered = 0;
    for n in 0..nodes.count() {
        numbered = number_node(&mut lists, &marks, summaries, nodes, n, numbered)?;
    }
    Ok(lists)
}
