//! Which refusals of a list of tokens are allowed, as definitions: the trees of the grammar of C whatever other rule
//! they break (C99, 6.5, 6.7 to 6.9), the places in a tree with their scopes (6.2.1), and what each code says of its
//! token.
//!
//! Entry: `specs/Allowed.antt`, and the laws of trees that begin with tokens. Invariant: a refusal is allowed where its
//! code says of the token what is so.
//! It does not know how units are read. Above: `unit_places`, `c_parser`.
#![tactic(auto)]

mod laws;

pub use laws::{
    first_bad_is_allowed, none_is_earlier, units_are_trees, units_begin_as_trees,
    units_begin_at_any_height,
};
