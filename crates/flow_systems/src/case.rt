//! Systems of constraints in one or more lattices, written down with their answers.

/// A constraint by plain numbers: sites, elements and variables as in `Link`. A `Const` and a `Bound` are of the first
/// lattice; a `ConstIn` and a `BoundIn` name theirs before the element.
#[derive(Clone, Copy)]
pub enum PlainLink {
    Le(u32, u32),
    Const(u8, u32),
    ConstIn(u8, u8, u32),
    Bound(u32, u8),
    BoundIn(u32, u8, u8),
    Enter(u32, u32, u32),
    Leave(u32, u32, u32),
}

/// An order: how many elements, and which are right below which.
pub struct Shape {
    pub count: u8,
    pub pairs: &'static [(u8, u8)],
}

/// The answers for a system in one lattice.
///
/// They are, for each variable, the set of the elements that reach it (bit n for element n) and the least element at or
/// above them; for each inner end of a call the variables that matched paths lead to from there; the bounds that are
/// exceeded, in order, none where the system is accepted; and whether some assignment meets the unfolding at depths 0 to
/// 3. Where a bound is exceeded, one of these depths is not met.
pub struct Answers {
    pub reached: &'static [u64],
    pub values: &'static [u8],
    pub matched: &'static [(u32, &'static [u32])],
    pub exceeded: &'static [u32],
    pub met: [bool; 4],
}

/// A system with its answers.
///
/// There is a shape for each lattice and as many answers. Each variable has its owner, and each site its target and its
/// owner. The masks are those of the rows, in order; a row behind the last mask is in the first lattice alone.
pub struct Case {
    pub name: &'static str,
    pub shapes: &'static [Shape],
    pub owners: &'static [Option<u32>],
    pub sites: &'static [(u32, Option<u32>)],
    pub rows: &'static [PlainLink],
    pub masks: &'static [u16],
    pub answers: &'static [Answers],
}

pub const NOBODY: Option<u32> = None;

pub const F0: Option<u32> = Some(0);

pub const F1: Option<u32> = Some(1);

pub const F2: Option<u32> = Some(2);

pub const F3: Option<u32> = Some(3);

/// Two elements, the second above.
pub const TWO: Shape = Shape {
    count: 2,
    pairs: &[(0, 1)],
};

/// Three elements in a row.
pub const THREE: Shape = Shape {
    count: 3,
    pairs: &[(0, 1), (1, 2)],
};

/// The least, two elements beside each other, and the greatest.
pub const DIAMOND: Shape = Shape {
    count: 4,
    pairs: &[(0, 1), (0, 2), (1, 3), (2, 3)],
};

/// The least, three elements beside each other, and the greatest.
pub const FIVE: Shape = Shape {
    count: 5,
    pairs: &[(0, 1), (0, 2), (0, 3), (1, 4), (2, 4), (3, 4)],
};
