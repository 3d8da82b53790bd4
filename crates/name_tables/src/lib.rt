//! Tables of what names stand for and of what was found of them: open scopes, values and flags at places, declarations,
//! uses, members, and how a unit spells its names (C99, 6.2.1 and 6.2.3).
//!
//! Entry: `name_scopes::Scopes`, `place_map::PlaceMap`, `name_records::Declarations`. Invariant: each change is the
//! change of the definition in `name_rules`.
//! It does not know types and tapes. Above: `name_state`, `row_world`.
#![tactic(auto)]

pub mod name_records;
pub mod name_scopes;
pub mod place_flags;
pub mod place_map;
pub mod unit_spelling;
