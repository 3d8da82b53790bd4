//! What is recorded of names: declarations, structs with their members, and functions with bodies (C99, 6.7).

mod aggregates;
mod bodies;
mod body;
mod declarations;
mod member_map;
mod records;
mod things;
mod type_names;
mod uses;

pub use aggregates::{Aggregate, Aggregates, StructKey};
pub use bodies::{Bodied, Bodies};
pub use body::{Body, Known, Own};
pub use declarations::{Declarations, Declared, Role};
pub use records::{Fault, NameUse, Rule, TypeNamed, Use};
pub use things::Things;
pub use type_names::TypeNames;
pub use uses::Uses;
