//! What goes on by a call, a pair inside and a return.

ghost use Rattle.std.specs.Prelude.{◌≡◌, ◌<◌, ◌↔◌, ℕ, true, IsTrue, Some, length};
ghost use Rattle.closure_check.specs.Index.{LiesIn};
ghost use Rattle.closure_check.specs.Checking.{claimed, GoesBack, GoesOn, GoesRound, IsFit};

use crate::claim::{Claim, is_first_within};
use crate::index::Span;
use crate::pairs::has_pair;
use qual_base::{EdgeId, Numbered, SiteId, VarId};

/// What goes on behind a call: the first set of the variable before it, or the pair of a variable with that variable.
#[derive(Clone, Copy, PartialEq, Eq, Debug)]
pub enum Going {
    First(VarId),
    Pair(VarId),
}

/// Whether it goes on by each return of a site behind a pair that begins where the call leads. Linear in the span of the site's
/// returns, beside two look-ups of pairs for each of them.
pub fn goes_round(given: &Claim, going: &Going, site: SiteId, inner: VarId) -> bool
    requires { IsFit given.now }
    ensures { IsTrue result ↔ GoesRound given.now going.now site inner }
{
    match given.index.returns(site) {
        Some(span) => goes_through(given, going, site, inner, span),
        None => true,
    }
}

/// Whether it goes on by each return of a site in a span, behind a pair that begins at a variable.
fn goes_through(given: &Claim, going: &Going, site: SiteId, inner: VarId, span: Span) -> bool
    requires { IsFit given.now }
    ensures { IsTrue result ↔ ((m : ℕ) → LiesIn (Some span) m →
        GoesBack given.now going.now site inner m) }
{
    let end = span.to.min(given.graph.len());
    for n in span.from..end {
        if !goes_back(given, going, site, inner, EdgeId::new(n)) {
            return false;
        }
    }
    true
}

/// Whether it goes on by a constraint, where that is a return of a site behind a pair that begins at a variable.
fn goes_back(given: &Claim, going: &Going, site: SiteId, inner: VarId, edge: EdgeId) -> bool
    requires fit { IsFit given.now }
    requires edge { edge < length given.now.graph.now.constraints }
    ensures { IsTrue result ↔ GoesBack given.now going.now site inner edge }
{
    let constraint = given.graph.constraint(edge);
    if !constraint.is_in(given.at) {
        return true;
    }
    match constraint.link.as_leave() {
        Some(back) => back.site != site || goes_out(given, going, inner, back.from, back.to),
        None => true,
    }
}

/// Whether it goes on to a variable, where two others are a pair. It mostly does, so that is asked first.
fn goes_out(given: &Claim, going: &Going, inner: VarId, last: VarId, to: VarId) -> bool
    requires { IsFit given.now }
    ensures { IsTrue result
        ↔ ((claimed given.now).paired inner last ≡ true → GoesOn given.now going.now to) }
{
    goes_on(given, going, to) || !has_pair(given.part.pairs.as_slice(), inner, last)
}

/// Whether it goes on to a variable.
pub fn goes_on(given: &Claim, going: &Going, to: VarId) -> bool
    requires { IsFit given.now }
    ensures { IsTrue result ↔ GoesOn given.now going.now to }
{
    match going {
        Going::First(from) => is_first_within(given, *from, to),
        Going::Pair(from) => has_pair(given.part.pairs.as_slice(), *from, to),
    }
}
