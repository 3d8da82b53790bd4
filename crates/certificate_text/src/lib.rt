//! Certificates as text: how they are written, and how they are read again.
//!
//! Entry: `certificate_text`. Invariant: sets and pairs stand in the order of names.
//! It does not know how certificates are made or read. Above: `certificate_maker`, `certificate_reader`.
#![tactic(auto)]

mod names;
mod order;
mod putting;
mod text;

pub use names::{end_at, ends, name_in, name_table};
pub use order::put_in_order;
pub use putting::SetLine;
pub use text::certificate_text;
