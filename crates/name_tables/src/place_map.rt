//! A number or a value at each of some places of a program.

mod index;
mod map;
mod row;

pub use index::PlaceIndex;
pub use map::PlaceMap;
