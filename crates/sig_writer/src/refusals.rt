//! Which functions have no signature.

ghost use Rattle.std.specs.Prelude.{◌≡◌, ◌<◌};
ghost use Rattle.lattice_core.specs.Order.{size};
ghost use Rattle.qual_types.specs.Rows.{params_from, skel_of};
ghost use Rattle.sig_writer.specs.Signatures as rules;
ghost use Rattle.sig_writer.specs.Saying.{some_says, AreOf};
ghost use Rattle.sig_writer.specs.Refusing.{refusal_in, some_unplaced, some_unsigned, AreAllWithin};

use crate::says::{Elements, Said};
use lattice_core::{Lattice, Sign};
use qual_base::{Elem, Numbered, SkelId, VarId};
use qual_types::{Look, VarTable};

/// Why a function has no signature.
#[derive(Clone, Copy, PartialEq, Eq, Debug, Drop)]
pub enum Refusal {
    /// Something is said where no word has a place: of the function itself, of a function inside its type, or of the arguments of one
    /// without parameters.
    NoPlace,
    /// Else some node has elements for which there is no word, or no pair of words.
    NoWord,
}

/// Whether something is said of the further arguments of a function that has no parameters.
fn is_lone(vars: &VarTable, said: &Said, first: SkelId, ellipsis: Option<VarId>) -> bool
    ensures { result ≡ some_says said.now (rules.lone (params_from vars.now first) ellipsis) }
{
    match (vars.next_part(first), ellipsis) {
        (None, Some(rest)) => said.says(rest),
        (None, None) => false,
        (Some(_), _) => false,
    }
}

/// Whether something is said where no word has a place: of a function inside a type, or of the arguments of one without parameters.
/// Linear in the nodes of the type.
#[cycle(unplaced)]
fn is_unplaced(vars: &VarTable, said: &Said, at: SkelId) -> bool
    ensures { result ≡ some_says said.now (rules.unplaced (skel_of vars.now at)) }
{
    match vars.look(at) {
        Look::Flat(_, _) => false,
        Look::Ref(_, inside) => is_unplaced(vars, said, inside),
        Look::Fun {
            var,
            first,
            result,
            ellipsis,
        } => {
            said.says(var)
                || is_lone(vars, said, first, ellipsis)
                || are_unplaced(vars, said, first)
                || is_unplaced(vars, said, result)
        }
    }
}

/// The same of the parameters of a function, from one on.
#[cycle(unplaced)]
fn are_unplaced(vars: &VarTable, said: &Said, first: SkelId) -> bool
    ensures { result ≡ some_says said.now (rules.all_unplaced (params_from vars.now first)) }
{
    match vars.next_part(first) {
        Some(next) => is_unplaced(vars, said, first) || are_unplaced(vars, said, next),
        None => false,
    }
}

/// Whether something is said of a function itself, or in its type where no word has a place.
fn is_some_unplaced(vars: &VarTable, said: &Said, at: SkelId) -> bool
    ensures { result ≡ some_unplaced said.now (skel_of vars.now at) }
{
    said.says(vars.var(at)) || is_unplaced(vars, said, at)
}

/// Whether an element has a sign.
fn has_sign(lattice: &Lattice, sign: Sign, elem: Elem) -> bool
    requires { elem < size lattice.now.order }
    ensures { result ≡ rules.has_sign lattice.now sign elem }
{
    lattice.law();
    lattice.entry(elem).sign == sign
}

/// Whether words by elements give the constant of the join and the bound of the meet, and nothing else.
fn has_words(lattice: &Lattice, elements: Elements) -> bool
    requires { AreOf lattice.now.order elements }
    ensures { result ≡ rules.has_words lattice.now elements.low elements.high }
{
    match (elements.low, elements.high) {
        (None, None) => true,
        (Some(low), None) => has_sign(lattice, Sign::Pos, low),
        (None, Some(high)) => has_sign(lattice, Sign::Neg, high),
        (Some(low), Some(high)) => {
            if low == high {
                has_sign(lattice, Sign::Eq, low)
            } else {
                has_sign(lattice, Sign::Pos, low) && has_sign(lattice, Sign::Neg, high)
            }
        }
    }
}

/// Whether some node lacks words. Linear in the nodes.
fn is_some_unsigned(lattice: &Lattice, said: &Said) -> bool
    requires { AreAllWithin lattice.now said.now }
    ensures { result ≡ some_unsigned lattice.now said.now }
{
    let nodes = said.nodes();
    for n in nodes.from..nodes.to {
        if !has_words(lattice, said.elements(VarId::new(n))) {
            return true;
        }
    }
    false
}

/// Why a function has no signature, where it has none, by its skeleton and what the nodes of that say. Linear in them, and takes no
/// memory.
pub fn refusal_of(lattice: &Lattice, vars: &VarTable, said: &Said, at: SkelId) -> Option<Refusal>
    requires elements { AreAllWithin lattice.now said.now }
    ensures { result ≡ refusal_in lattice.now said.now (skel_of vars.now at) }
{
    if is_some_unplaced(vars, said, at) {
        Some(Refusal::NoPlace)
    } else if is_some_unsigned(lattice, said) {
        Some(Refusal::NoWord)
    } else {
        None
    }
}
