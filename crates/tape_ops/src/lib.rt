//! The nodes of a unit as plain values without a tree, for passes that are a loop.
//!
//! A tape has the nodes of a unit in post-order, children in token order. An op has what its step needs of the node
//! itself: tokens, numbers of names, signs. What its parts give, the steps before it have left on stacks. An op that
//! adds constraints or may be at fault has the tokens that say where, and the first and the last token of the node
//! where constraints have a span. An op takes 20 bytes.
//!
//! Entry: `Op`. Invariant: an op has what its step needs of the node itself.
//! It does not know what is done at a node. Above: `c_tape`, and all passes.
#![tactic(auto)]

mod declarator;
mod expression;
mod form;
mod initialiser;
mod op;
mod specifier;
mod statement;

pub use declarator::DeclrOp;
pub use expression::ExprOp;
pub use form::FormOp;
pub use initialiser::InitOp;
pub use op::Op;
pub use specifier::{SpecOp, TagKind};
pub use statement::StmtOp;
