//! Constants and bounds that annotation words give.
#![tactic(auto, using(crate::proofs::Lists::with_none, crate::proofs::Lists::with_append, crate::proofs::Lists::stop_front, crate::proofs::Lists::stop_back))]

ghost use Rattle.std.specs.Prelude.{◌≡◌, IfErr, OnOk};
ghost use Rattle.flow_rules.specs.Adding.{with};
ghost use Rattle.qual_types.specs.Table.{IsVar, IsSomeVar};
ghost use Rattle.row_rules.specs.Worlds.{word_span};
ghost use Rattle.row_rules.specs.Annotations as rules;
ghost use Rattle.row_world.specs.Shown.{IsMark};
ghost use Rattle.row_adding.specs.Adding.{StopsEarly, Adds, Halts};
ghost use Rattle.row_adding.specs.Nodes.{word_row, words_row};

use crate::bounds::alone;
use crate::flows::add;
use flow_graph::{FlowGraph, GraphFault, Link};
use lattice_core::Sign;
use name_tables::name_scopes::Place;
use qual_base::{Elem, LatticeNo, Span, VarId};
use row_world::Known;

/// The span of a word.
pub(crate) fn word_span(word: &Place) -> Span
    ensures { result ≡ word_span word.now }
{
    Span {
        unit: word.0,
        from: word.1,
        to: word.1,
    }
}

/// A constant below a variable, a bound above it, or both, in the lattice of a mark alone.
fn add_signed(
    graph: &mut FlowGraph,
    sign: Sign,
    mark: &(LatticeNo, Elem),
    var: VarId,
    span: &Span,
) -> Result<(), GraphFault>
    requires var { IsVar var }
    requires mark { IsMark mark.now }
    ensures ok { OnOk result (graph.new ≡ with graph.old
        (rules.alone mark.now span.now (rules.signed sign mark.now var))) }
    ensures err { IfErr result (λ fault. StopsEarly graph.old graph.new fault
        (rules.alone mark.now span.now (rules.signed sign mark.now var))) }
{
    let lattices = alone(mark.0);
    match sign {
        Sign::Pos => add(graph, lattices, span, Link::Const(mark.0, mark.1, var)),
        Sign::Neg => add(graph, lattices, span, Link::Bound(var, mark.0, mark.1)),
        Sign::Eq => {
            add(graph, lattices, span, Link::Const(mark.0, mark.1, var))?;
            add(graph, lattices, span, Link::Bound(var, mark.0, mark.1))
        }
    }
}

/// What an annotation word gives at a variable. Constant time.
fn add_word(
    known: &Known,
    graph: &mut FlowGraph,
    var: VarId,
    word: &Place,
) -> Result<(), GraphFault>
    requires { IsVar var }
    ensures ok { OnOk result (Adds known.now graph.old graph.new (λ w. word_row w var word.now)) }
    ensures err { IfErr result (λ fault. Halts known.now graph.old graph.new fault
        (λ w. word_row w var word.now)) }
{
    match known.mark(word) {
        Some(mark) => match known.entry(&mark) {
            Some(entry) => add_signed(graph, entry.sign, &mark, var, &word_span(word)),
            None => Ok(()),
        },
        None => Ok(()),
    }
}

/// What annotation words give at a variable, one behind the other. Linear in the words.
#[tactic(auto, using(crate::proofs::Wording::none_behind, crate::proofs::Wording::word_behind, crate::proofs::Wording::stops_at_word, crate::proofs::Wording::all_added))]
pub(crate) fn add_words(
    known: &Known,
    graph: &mut FlowGraph,
    var: VarId,
    words: &[Place],
) -> Result<(), GraphFault>
    requires { IsVar var }
    ensures ok { OnOk result (Adds known.now graph.old graph.new (λ w. words_row w var words.now)) }
    ensures err { IfErr result (λ fault. Halts known.now graph.old graph.new fault
        (λ w. words_row w var words.now)) }
{
    for word in words {
        add_word(known, graph, var, word)?;
    }
    Ok(())
}
