//! The constraints that one form of a program gives by itself, added to a graph (Foster et al. 2006; Rehof and
//! Fähndrich 2001).
//!
//! Each call adds exactly its row, in order. Where it stops early, those before the one that was refused stand in the
//! graph. Time is linear in the row and in the skeletons that it is read from, but for what is said.
//!
//! Entry: the functions of `adding`, `operators`, `forms`. Invariant: a call adds exactly its row, in order.
//! It does not know tapes, and which forms there are in a unit. Above: `unit_system`.
#![tactic(auto)]

mod annotating;
mod bounds;
mod casts;
mod collecting;
mod flows;
mod forming;
mod indexed;
mod indexing;
mod marks;
mod naming;
mod operators;
mod others;
mod uses;
mod words;

pub use annotating::{annotate, annotate_place, annotate_some, annotate_some_place};
pub use bounds::{dereferenced, write_bounds};
pub use casts::{cast, uncut};
pub use flows::{
    cross_in_all, equate_in_all, flow_in_all, flowing, flowing_in_all, smash_in_all, unsmash_in_all,
};
pub use forming::{form, form_here};
pub use naming::{RowKind, annotate_name, declared, name};
pub use operators::{assigned, carried, chosen, computed, passed, prefixed};
pub use others::{into_target, literal, returned, started, taken, taken_fresh};
pub use uses::used;
