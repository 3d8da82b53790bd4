//! Laws of the tokens at which constraints, call sites and faults stand.

ghost use Rattle.token_laws.specs.Tokens.{CountedAreRead, FaultsHaveTokens, SitesHaveTokens, SpansHaveTokens};

use c_tree::{first_begins, last_ends};
use resolve_laws::name_laws::names_of_tapes;
use resolve_laws::shape_laws::faults_are_found;
use row_laws::constraints_are_found;
use row_laws::start_laws::starts_of_program_are_found;

/// Each constraint of a program whose sources were read stands at tokens of one of them.
pub fn spans_have_tokens()
    ensures { SpansHaveTokens }
{
    first_begins();
    last_ends();
    names_of_tapes();
    constraints_are_found();
}

/// Each call site of a program whose sources were read is at a token of one of them.
pub fn sites_have_tokens()
    ensures { SitesHaveTokens }
{
    first_begins();
    last_ends();
    names_of_tapes();
    starts_of_program_are_found();
}

/// Each fault of sources that were read is at a token of one of them.
pub fn faults_have_tokens()
    ensures { FaultsHaveTokens }
{
    first_begins();
    last_ends();
    names_of_tapes();
    faults_are_found();
}

/// Tokens that are numbered by their places have different numbers.
pub fn counted_are_read()
    ensures { CountedAreRead }
{}
