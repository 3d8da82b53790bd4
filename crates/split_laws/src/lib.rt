//! Laws of a library and its clients: what the words of a library's signatures stand for. Functions without a body,
//! each with a law as its contract.
//!
//! Entry: the laws of one site with two bodies. Invariant: what a library does to a client is what its words do.
//! It does not know any algorithm, and how `sig_writer` finds the words. Above: `bounds_below`, `sig_writer`.
#![tactic(auto)]

ghost use Rattle.split_laws.specs.Same.{SamePaths};
ghost use Rattle.split_laws.specs.Splits.{ServedIsWhole, WholeIsServed};

/// Where the words of a library serve a client, the library does.
pub fn served_is_whole()
    ensures { ServedIsWhole }
{}

/// Where a library serves a client, its words do.
pub fn whole_is_served()
    ensures { WholeIsServed }
{}

/// Systems with the same constraints, in which their variables have the same owners, have the same paths.
pub fn same_paths()
    ensures { SamePaths }
{}
