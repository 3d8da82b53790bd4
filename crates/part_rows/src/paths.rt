//! Matched paths through graphs of constraints, all of the second lattice.
//!
//! A row begins with one of `row:n`, `back:n` and `ring:n`, functions that call one another as `graphs` says, or has these
//! words: `own:v:f` has function f own variable v, `call:f:g` is a call of f in g, `outer:f` one at file scope, `le:u:v`,
//! `enter:s:u:v` and `leave:s:u:v` are constraints. With `from:v` paths begin at v too. `in:l` asks for lattice l.
//! Questions are `why:u:v`, `holds:u:v`, and, of functions 1 to n - 1 with variables 2k and 2k + 1, `each:n`, for how many
//! a path leads from 2k to 2k + 1, and `before:n`, for how many one leads from 2k to 2k - 1.

use crate::graphs::{call, enter, flow, leave, own, ring_of_calls, row_of_calls};
use crate::words::{Word, halves, put, put_number, put_whether, word_of};
use flow_graph::FlowGraph;
use match_summary::{Reason, Summaries, summarise, summarise_from};
use qual_base::{FuncId, LatticeNo, NoMemory, Numbered, Owner, VarId};
use std::alloc::Global;

/// What the words of a row ask for.
#[derive(Drop)]
struct Asked {
    starts: Vec<VarId>,
    has_starts: bool,
    lattice: u32,
}

/// The graph that a row begins with.
fn first_graph(alloc: Global, words: &str) -> Result<FlowGraph, NoMemory> {
    let (first, _) = halves(words, ' ');
    let word = word_of(first);
    match word.name {
        b"row" => row_of_calls(alloc, word.first, false),
        b"back" => row_of_calls(alloc, word.first, true),
        b"ring" => ring_of_calls(alloc, word.first),
        _ => Ok(FlowGraph::new(alloc)),
    }
}

/// What a word adds to a graph.
fn put_piece(graph: &mut FlowGraph, word: &Word) -> Result<(), NoMemory> {
    match word.name {
        b"own" => own(graph, word.first, word.second),
        b"call" => call(graph, word.first, Owner::Function(FuncId::new(word.second))),
        b"outer" => call(graph, word.first, Owner::Nobody),
        b"le" => flow(graph, word.first, word.second),
        b"enter" => enter(graph, word.first, word.second, word.third),
        b"leave" => leave(graph, word.first, word.second, word.third),
        _ => Ok(()),
    }
}

/// What a word asks for.
fn put_asked(asked: &mut Asked, word: &Word) -> Result<(), NoMemory> {
    match word.name {
        b"from" => {
            asked.has_starts = true;
            asked.starts.push(VarId::new(word.first))?;
            Ok(())
        }
        b"in" => {
            asked.lattice = word.first;
            Ok(())
        }
        _ => Ok(()),
    }
}

/// The pairs that matched paths of a graph join.
fn summaries_of(alloc: Global, graph: &FlowGraph, asked: &Asked) -> Result<Summaries, NoMemory> {
    let number = u8::try_from(asked.lattice).unwrap_or(15);
    if number >= 16 {
        return Err(NoMemory);
    }
    let lattice = LatticeNo::new(number);
    if asked.has_starts {
        summarise_from(alloc, graph, lattice, asked.starts.as_slice())
    } else {
        summarise(alloc, graph, lattice)
    }
}

/// Adds a flow from a variable as the reason of a path.
fn put_last(alloc: Global, out: &mut String, edge: u32, before: u32) -> Result<(), NoMemory> {
    put(out, format!(in alloc; "last:{edge}:{before}")?.as_str())
}

/// Adds a group behind a variable as the reason of a path.
fn put_group(
    alloc: Global,
    out: &mut String,
    before: u32,
    enter: u32,
    leave: u32,
) -> Result<(), NoMemory> {
    put(
        out,
        format!(in alloc; "group:{before}:{enter}:{leave}")?.as_str(),
    )
}

/// Adds why a path leads from one variable to another.
fn put_why(alloc: Global, out: &mut String, why: &Reason) -> Result<(), NoMemory> {
    match why {
        Reason::Last(edge, before) => put_last(alloc, out, edge.number(), before.number()),
        Reason::Group {
            before,
            enter,
            leave,
        } => put_group(alloc, out, before.number(), enter.number(), leave.number()),
    }
}

/// Adds why a path leads from one variable to another, if one does.
fn put_some_why(
    alloc: Global,
    out: &mut String,
    summaries: &Summaries,
    from: u32,
    to: u32,
) -> Result<(), NoMemory> {
    match summaries.why(VarId::new(from), VarId::new(to)) {
        Some(why) => put_why(alloc, out, &why),
        None => put(out, "none"),
    }
}

/// Whether a path leads from one variable to another.
fn leads(summaries: &Summaries, from: u32, to: u32) -> bool {
    summaries.holds(VarId::new(from), VarId::new(to))
}

/// In how many of these functions a path leads from the first variable to the second.
fn count_each(summaries: &Summaries, functions: u32) -> u32 {
    let mut count = 0_u32;
    for k in 1..functions {
        let first = k.saturating_mul(2);
        if leads(summaries, first, first.saturating_add(1)) {
            count = count.saturating_add(1);
        }
    }
    count
}

/// In how many of these functions a path leads from the first variable to the one before it.
fn count_before(summaries: &Summaries, functions: u32) -> u32 {
    let mut count = 0_u32;
    for k in 1..functions {
        let first = k.saturating_mul(2);
        if leads(summaries, first, first.saturating_sub(1)) {
            count = count.saturating_add(1);
        }
    }
    count
}

/// Adds the answer to a question.
fn put_answer(
    alloc: Global,
    out: &mut String,
    summaries: &Summaries,
    question: &Word,
) -> Result<(), NoMemory> {
    let (from, to) = (question.first, question.second);
    match question.name {
        b"why" => put_some_why(alloc, out, summaries, from, to),
        b"holds" => put_whether(out, leads(summaries, from, to)),
        b"each" => put_number(alloc, out, count_each(summaries, from)),
        b"before" => put_number(alloc, out, count_before(summaries, from)),
        _ => put(out, "?"),
    }
}

/// The answers to questions about paths.
pub(crate) fn paths_text(alloc: Global, words: &str, questions: &str) -> Result<String, NoMemory> {
    let mut graph = first_graph(alloc, words)?;
    let mut asked = Asked {
        starts: Vec::new(alloc),
        has_starts: false,
        lattice: 1,
    };
    for text in words.split_whitespace() {
        let word = word_of(text);
        put_piece(&mut graph, &word)?;
        put_asked(&mut asked, &word)?;
    }
    let summaries = summaries_of(alloc, &graph, &asked)?;
    let mut out = String::new(alloc);
    for question in questions.split_whitespace() {
        put_answer(alloc, &mut out, &summaries, &word_of(question))?;
    }
    Ok(out)
}
