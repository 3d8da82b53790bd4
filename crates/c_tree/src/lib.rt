//! What holds of syntax trees: their text, which are well formed, how high they are, and which tokens are their ends.
//!
//! The definitions stand in `specs`; here are the functions and laws that need no height: nodes made of their parts,
//! the first, the last and the key token of an expression, the first tokens of specifiers, initialisers and statements.
//!
//! Entry: `specs/Unit.antt`, and the laws `first_begins`, `last_ends`. Invariant: a view of a tree has all of it.
//! It does not know how trees are read. Above: all that reads, walks or judges trees.
#![tactic(auto)]

mod ends;
mod firsts;
mod laws;
mod lexeme;
mod making;

pub use ends::{first, key, last};
pub use firsts::{first_of_init, first_of_specs, first_of_stmt, first_of_word, token_of_qual};
pub use laws::{first_begins, last_ends, operands_hold_tighter};
pub use lexeme::Lexeme;
pub use making::{
    abs_array, abs_params, abs_pointer, array, call, cast, declaration, enum_word, member, named,
    params, sizeof_type, struct_word,
};
