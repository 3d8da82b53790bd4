//! What the annotation words of a unit name: a lattice and an element for each.

mod reading;

pub use reading::add_marks;
