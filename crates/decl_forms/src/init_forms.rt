//! Readers of initialisers (C99, 6.7.8), over readers of the parts inside.

mod designators;
mod lists;
mod values;

pub use lists::init_list;
pub use values::init;
