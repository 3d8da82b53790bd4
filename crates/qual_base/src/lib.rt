//! What every crate of the tool stands on: numbers with types of their own, tables, qualifier words.
//!
//! Entry: the numbers of `ids`, `Table`, `QualWords`, `NoMemory`. Invariant: a number of one kind is never taken for
//! one of another.
//! It does not know C and lattices. Above: every crate that has code.
#![tactic(auto)]

mod faults;
mod ids;
mod places;
mod table;
mod words;

pub use faults::NoMemory;
pub use ids::{
    EdgeId, Elem, ElemSet, EntityId, FuncId, LatticeNo, NameId, Numbered, SiteId, SkelId, StructId,
    TokenId, TypeId, UnitNo, VarId,
};
pub use places::{Owner, Span, Spot};
pub use table::Table;
pub use words::QualWords;
