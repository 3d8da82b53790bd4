//! What the rules look up: the constraints that begin at a variable, and the returns of a site.

ghost use Rattle.std.specs.Prelude.{◌≡◌, ◌<◌, ◌^◌, ◌-◌, ℕ, IfOk, length, Some};
ghost use Rattle.flow_graph.specs.declared.constraint.Link.TheVariants.{Leave};
ghost use Rattle.flow_graph.specs.System.{Has};
ghost use Rattle.flow_graph.specs.Rows.{row_in};
ghost use Rattle.closure_check.specs.Index.{AreReturns, IsIndex, LiesIn, span_at};

use flow_graph::{Beginnings, FlowGraph};
use qual_base::{EdgeId, NoMemory, Numbered, SiteId, VarId};
use std::alloc::{AllocError, Global};

/// The numbers from one up to another, which is not among them.
#[derive(Clone, Copy, PartialEq, Eq, Debug)]
pub struct Span {
    pub from: u32,
    pub to: u32,
}

/// For each variable the constraints that begin at it, and for each site the span in which its returns stand, if it has any.
#[derive(Drop)]
pub struct CheckIndex {
    beginnings: Beginnings,
    returns: Vec<Option<Span>>,
}

impl CheckIndex {
    /// Linear in the constraints, the variables and the sites. Memory: at most 4 bytes a constraint, 4 a variable and 12 a
    /// site, and while it is made 4 more a variable.
    pub fn build(alloc: Global, graph: &FlowGraph) -> Result<CheckIndex, NoMemory>
        ensures { IfOk result (IsIndex graph.now) }
    {
        Ok(CheckIndex {
            beginnings: Beginnings::build(alloc, graph)?,
            returns: returns_of(alloc, graph)?,
        })
    }

    /// The constraints that begin at a variable, ascending. Constant time.
    pub fn out(&self, at: VarId) -> &[EdgeId]
        ensures { result.now ≡ row_in self.now.beginnings at }
    {
        self.beginnings.out(at)
    }

    /// The span in which the returns of a site stand, if it has any. Constant time.
    pub fn returns(&self, site: SiteId) -> Option<Span>
        ensures { result ≡ span_at self.now.returns.items site }
    {
        match self.returns.get(site.number() as usize) {
            Some(span) => *span,
            None => None,
        }
    }
}

/// For each site the span of its returns.
fn returns_of(alloc: Global, graph: &FlowGraph) -> Result<Vec<Option<Span>>, NoMemory>
    ensures { IfOk result (λ spans. AreReturns graph.now spans.items) }
{
    let mut spans = no_spans(alloc, graph.sites())?;
    for n in 0..graph.len() {
        note(&mut spans, graph, n);
    }
    Ok(spans)
}

/// So many sites without a return.
fn no_spans(alloc: Global, count: u32) -> Result<Vec<Option<Span>>, AllocError>
    ensures { IfOk result (λ spans. length spans.items ≡ count) }
{
    vec![in alloc; None; count as usize]
}

/// Widens the span of a constraint's site, where that is a return.
fn note(spans: &mut Vec<Option<Span>>, graph: &FlowGraph, n: u32)
    requires n { n < length graph.now.constraints }
    requires size { length spans.old.items ≡ length graph.now.sites }
    ensures here { (s y v : ℕ) → Has graph.now n (Leave s y v) →
        LiesIn (span_at spans.new.items s) n }
    ensures kept { (s m : ℕ) → LiesIn (span_at spans.old.items s) m →
        LiesIn (span_at spans.new.items s) m }
    ensures size { length spans.new.items ≡ length spans.old.items }
{
    graph.law();
    if let Some(back) = graph.constraint(EdgeId::new(n)).link.as_leave() {
        let index = back.site.number() as usize;
        spans[index] = Some(widened(spans[index], n));
    }
}

/// The least span that has a number and all that a span has.
fn widened(span: Option<Span>, n: u32) -> Span
    requires { n < 2 ^ 32 - 1 }
    ensures here { LiesIn (Some result) n }
    ensures kept { (m : ℕ) → LiesIn span m → LiesIn (Some result) m }
{
    match span {
        Some(old) => Span {
            from: old.from.min(n),
            to: old.to.max(n + 1),
        },
        None => Span { from: n, to: n + 1 },
    }
}
