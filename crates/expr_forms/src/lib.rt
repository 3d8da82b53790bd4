//! Readers of one operand of an expression (C99, 6.5.1 to 6.5.4).
//!
//! Each stands over the one reader that is lent to it, which reads what stands inside.
//!
//! Entry: `unary`, `cast`. Invariant: what is answered is what `c_reading` says of the same tokens.
//! It does not know what stands between operands. Above: `expr_rows`.
#![tactic(auto)]

mod arguments;
mod offsets;
mod operand;
mod parens;
mod picks;
mod postfix;
mod prefixes;
mod primaries;
mod sizes;
mod variadic;

pub use operand::{cast, unary};
