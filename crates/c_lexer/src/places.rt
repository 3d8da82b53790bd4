//! Places of a unit as linemarkers give them.

/// What a linemarker says of the lines behind it: where the first of them begins, its number, and the byte range of
/// the unit with the file's name.
#[derive(Clone, Copy, PartialEq, Eq, Debug)]
pub struct Mark {
    pub from: u32,
    pub number: u32,
    pub name_from: u32,
    pub name_to: u32,
}
