//! Laws of the elements that constraints name.

mod laws;

pub use laws::elements_are_named;
