//! Readers of the items of a unit (C99, 6.9), over readers of the parts inside.

mod declared;
mod functions;
mod old;
mod units;

pub use units::{item, items};
