//! Where the variables of a program stand: the positions of its skeletons one behind the other, and the law that a variable of a table
//! that was made of them has no other position (Foster et al. 2006, qualified types).

mod laws;

pub use laws::{positions_are_counted, positions_stand};
