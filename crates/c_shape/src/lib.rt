//! The forms of expressions, statements and declarators, as walks see them.
//!
//! A walk that matches an expression itself pays for its forty variants, and for what is known of each part that is a
//! list or may be missing. One that matches its shape has twenty-two forms, whose tree is known at once. The shapes of
//! statements and declarators have the forms that these have, sixteen and nine. A recursion over shapes goes down by
//! the height of the tree.
//!
//! Entry: `ExprShape` and its kin. Invariant: a shape has the form and the parts of its tree.
//! It does not know what walks do. Above: `c_tape`, `cq_prelude`.
#![tactic(auto)]

mod declarator;
mod shape;
mod statement;

pub use declarator::{DeclaratorShape, declarator_shape};
pub use shape::{Between, Shape, TypeShape, shape_of};
pub use statement::{StartShape, StatementShape, statement_shape};
