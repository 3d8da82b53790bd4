//! Lists of names, and of scopes of names, in which the newest entry of a name is found at once.
//!
//! Entry: `NameList`, `NameScopes`. Invariant: the newest entry of a name is that which was put last and is still
//! there.
//! It does not know what names stand for. Above: `held_scopes`, `name_tables`. It stands apart from `name_tables` since the
//! readers of C use it, and would load the tables of names with it.
#![tactic(auto)]

mod list;
mod scopes;

pub use list::NameList;
pub use scopes::NameScopes;
