//! What a constraint graph is made of.

ghost use Rattle.std.specs.Prelude.{◌≡◌, ◌<◌, ◌↔◌, IsTrue, MatchOption};
ghost use Rattle.std.specs.Int.{bit_at};
ghost use Rattle.flow_graph.specs.declared.constraint.Link.TheVariants.{Bound, Enter, Leave};
ghost use Rattle.flow_graph.specs.System.{IsInLattice, IsNoBound, IsNoEnter, IsNoLeave};
ghost use Rattle.flow_graph.specs.PathRules.{link_begins, link_ends};

use qual_base::{Elem, FuncId, LatticeNo, Owner, SiteId, Span, TokenId, UnitNo, VarId};

/// What a constraint says of its variables.
///
/// A constant stands below its variable and a bound above it. An `Enter` leads into the copy of a function that its
/// call site makes, and a `Leave` of the same site leads back (Rehof and Fähndrich, POPL 2001).
#[derive(Clone, Copy, PartialEq, Eq, Debug)]
pub enum Link {
    Le(VarId, VarId),
    Const(LatticeNo, Elem, VarId),
    Bound(VarId, LatticeNo, Elem),
    Enter(SiteId, VarId, VarId),
    Leave(SiteId, VarId, VarId),
}

/// A constraint with the lattices that it is in (bit n stands for lattice n) and the tokens that it comes from.
///
/// A constant or a bound is in the lattice that it names, whatever its mask.
#[derive(Clone, Copy, PartialEq, Eq, Debug)]
pub struct Constraint {
    pub link: Link,
    pub lattices: u16,
    pub span: Span,
}

/// An `Enter` or a `Leave`: its site, and the variables that it leads from and to.
#[derive(Clone, Copy, PartialEq, Eq, Debug)]
pub struct Crossing {
    pub site: SiteId,
    pub from: VarId,
    pub to: VarId,
}

/// A bound: its variable and its element.
#[derive(Clone, Copy, PartialEq, Eq, Debug)]
pub struct Limit {
    pub at: VarId,
    pub elem: Elem,
}

impl Link {
    /// The variable where the link begins; a constant begins nowhere.
    pub fn begin(self) -> Option<VarId>
        ensures { result ≡ link_begins self }
    {
        match self {
            Link::Le(from, _) => Some(from),
            Link::Const(_, _, _) => None,
            Link::Bound(at, _, _) => Some(at),
            Link::Enter(_, from, _) => Some(from),
            Link::Leave(_, from, _) => Some(from),
        }
    }

    /// The variable where the link ends; a bound ends at its variable.
    pub fn end(self) -> VarId
        ensures { result ≡ link_ends self }
    {
        match self {
            Link::Le(_, to) => to,
            Link::Const(_, _, at) => at,
            Link::Bound(at, _, _) => at,
            Link::Enter(_, _, to) => to,
            Link::Leave(_, _, to) => to,
        }
    }

    /// The call that the link is.
    pub fn as_enter(self) -> Option<Crossing>
        ensures { MatchOption result
            (IsNoEnter self) (λ call. self ≡ Enter call.site call.from call.to) }
    {
        match self {
            Link::Enter(site, from, to) => Some(Crossing { site, from, to }),
            _ => None,
        }
    }

    /// The return that the link is.
    pub fn as_leave(self) -> Option<Crossing>
        ensures { MatchOption result
            (IsNoLeave self) (λ back. self ≡ Leave back.site back.from back.to) }
    {
        match self {
            Link::Leave(site, from, to) => Some(Crossing { site, from, to }),
            _ => None,
        }
    }
}

impl Constraint {
    /// The bound that the constraint is in a lattice.
    pub fn bound_in(&self, lattice: LatticeNo) -> Option<Limit>
        ensures { MatchOption result (IsNoBound self.now.link lattice)
            (λ limit. self.now.link ≡ Bound limit.at lattice limit.elem) }
    {
        match self.link {
            Link::Bound(at, named, elem) if named == lattice => Some(Limit { at, elem }),
            _ => None,
        }
    }

    /// Whether the constraint is in a lattice.
    pub fn is_in(&self, lattice: LatticeNo) -> bool
        ensures { IsTrue result ↔ IsInLattice lattice self.now.link self.now.lattices }
    {
        is_link_in(self.link, self.lattices, lattice)
    }
}

/// Whether a link with a mask is in a lattice.
fn is_link_in(link: Link, mask: u16, lattice: LatticeNo) -> bool
    ensures { IsTrue result ↔ IsInLattice lattice link mask }
{
    match link {
        Link::Le(_, _) => has(mask, lattice),
        Link::Const(named, _, _) => are_one(named, lattice),
        Link::Bound(_, named, _) => are_one(named, lattice),
        Link::Enter(_, _, _) => has(mask, lattice),
        Link::Leave(_, _, _) => has(mask, lattice),
    }
}

/// Whether two are one lattice.
fn are_one(one: LatticeNo, other: LatticeNo) -> bool
    ensures { IsTrue result ↔ (one ≡ other) }
{
    one.number() == other.number()
}

/// Whether a mask has a lattice's bit.
fn has(mask: u16, lattice: LatticeNo) -> bool
    ensures { IsTrue result ↔ (bit_at mask lattice ≡ 1) }
{
    if lattice.number() >= 16 {
        return false;
    }
    (mask >> lattice.number()) & 1 == 1
}

/// A call site: an occurrence of a function's name in the body of its owner, or at file scope.
#[derive(Clone, Copy, PartialEq, Eq, Debug)]
pub struct Site {
    pub unit: UnitNo,
    pub token: TokenId,
    pub target: FuncId,
    pub owner: Owner,
}
