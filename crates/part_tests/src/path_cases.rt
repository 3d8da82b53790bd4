//! Graphs by plain numbers, texts of path proofs over them with their answers, and texts that are read or refused.

use flow_graph::Why;
use flow_graph::Why::{B1, B2, B3, B4, B5, B6, B7};
use path_checker::ReportFault;
use path_checker::ReportFault::{Grammar, NoSuchConstraint};

/// The first failing step's line and rule, or none.
pub type Answer = Option<(u32, Why)>;

/// A link by plain numbers, in the order of `Link`.
#[derive(Clone, Copy)]
pub enum Form {
    Le(u32, u32),
    Const(u8, u8, u32),
    Bound(u32, u8, u8),
    Enter(u32, u32, u32),
    Leave(u32, u32, u32),
}

use Form::{Bound, Const, Enter, Le, Leave};

pub const TWO_LATTICES_OWNERS: [Option<u32>; 5] = [Some(0), Some(0), Some(1), Some(1), None];

pub const TWO_LATTICES_SITES: [(u32, Option<u32>); 3] = [(1, Some(0)), (1, Some(0)), (1, Some(1))];

pub const TWO_LATTICES_LINKS: [(Form, u16); 19] = [
    (Const(0, 1, 0), 1),
    (Le(0, 1), 3),
    (Bound(1, 0, 0), 1),
    (Bound(1, 0, 1), 1),
    (Bound(1, 1, 0), 2),
    (Le(0, 1), 2),
    (Enter(0, 0, 2), 1),
    (Leave(0, 3, 1), 1),
    (Le(2, 3), 1),
    (Leave(1, 3, 1), 1),
    (Const(0, 0, 0), 1),
    (Le(3, 2), 1),
    (Enter(2, 2, 2), 1),
    (Leave(2, 3, 3), 1),
    (Le(3, 4), 1),
    (Le(4, 3), 1),
    (Enter(0, 0, 2), 2),
    (Le(2, 0), 1),
    (Const(1, 1, 0), 2),
];

pub const TWO_LATTICES_CASES: [(&[u8], Answer); 36] = [
    (b"rejected\nerror\npath\n  0 \n  1 \n  2 \n", None),
    (b"rejected\nerror\npath\n  0 \n  1 \n  3 \n", Some((6, B7))),
    (b"rejected\nerror\npath\n  10 \n  1 \n  2 \n", Some((6, B7))),
    (b"rejected\nerror\npath\n  0 \n  5 \n  2 \n", Some((5, B6))),
    (b"rejected\nerror\npath\n  0 \n  1 \n  4 \n", Some((6, B6))),
    (b"rejected\nerror\npath\n  18 \n  5 \n  4 \n", None),
    (b"rejected\nerror\npath\n  18 \n  1 \n  4 \n", None),
    (
        b"rejected\nerror\nsub 1\n  8 \npath\n  0 \n  16 \n  sub 1\n  7 \n  2 \n",
        Some((7, B6)),
    ),
    (
        b"rejected\nerror\nsub 1\n  8 \npath\n  0 \n  6 \n  sub 1\n  7 \n  2 \n",
        None,
    ),
    (
        b"rejected\nerror\nsub 1\n  8 \npath\n  0 \n  6 \n  sub 1\n  11 \n  2 \n",
        Some((9, B3)),
    ),
    (
        b"rejected\nerror\nsub 1\n  8 \npath\n  0 \n  6 \n  sub 1\n  9 \n  2 \n",
        Some((9, B3)),
    ),
    (
        b"rejected\nerror\nsub 1\n  8 \npath\n  0 \n  6 \n  sub 1\n",
        Some((8, B3)),
    ),
    (
        b"rejected\nerror\nsub 1\n  12 \n  sub 1\n  13 \npath\n  0 \n  6 \n  sub 1\n  7 \n  2 \n",
        Some((5, B4)),
    ),
    (
        b"rejected\nerror\nsub 1\n  12 \n  sub 2\n  13 \nsub 2\n  8 \npath\n  0 \n  6 \n  sub 1\n  7 \n  2 \n",
        Some((5, B4)),
    ),
    (
        b"rejected\nerror\nsub 1\n  8 \nsub 2\n  12 \n  sub 1\n  13 \npath\n  0 \n  6 \n  sub 2\n  7 \n  2 \n",
        None,
    ),
    (
        b"rejected\nerror\npath\n  0 \n  6 \n  sub 0\n  7 \n  2 \n",
        Some((6, B4)),
    ),
    (
        b"rejected\nerror\nsub 1\npath\n  0 \n  6 \n  sub 1\n  7 \n  2 \n",
        Some((7, B4)),
    ),
    (
        b"rejected\nerror\npath\n  0 \n  6 \n  8 \n  7 \n  2 \n",
        Some((7, B1)),
    ),
    (
        b"rejected\nerror\npath\n  0 \n  6 \n  8 \n  14 \n  15 \n  7 \n  2 \n",
        None,
    ),
    (
        b"rejected\nerror\nsub 1\n  14 \npath\n  0 \n  1 \n  2 \n",
        Some((4, B5)),
    ),
    (
        b"rejected\nerror\nsub 1\n  17 \npath\n  0 \n  1 \n  2 \n",
        Some((4, B5)),
    ),
    (
        b"rejected\nerror\nsub 1\n  15 \npath\n  0 \n  1 \n  2 \n",
        Some((4, B5)),
    ),
    (b"rejected\nerror\npath\n  0 \n  1 \n", Some((6, B1))),
    (b"rejected\nerror\npath\n", Some((4, B1))),
    (
        b"rejected\nerror\npath\n  0 \n  1 \n  2 \n  1 \n",
        Some((7, B1)),
    ),
    (
        b"rejected\nerror\nsub 1\n  2 \npath\n  0 \n  1 \n  2 \n",
        Some((4, B1)),
    ),
    (
        b"rejected\nerror\nsub 1\n  6 \n  8 \npath\n  0 \n  1 \n  2 \n",
        Some((4, B1)),
    ),
    (
        b"rejected\nerror\nsub 1\n  8 \n  7 \npath\n  0 \n  1 \n  2 \n",
        Some((5, B1)),
    ),
    (
        b"rejected\nerror\nsub 1\n  8 \npath\n  0 \n  sub 1\n  2 \n",
        Some((7, B1)),
    ),
    (
        b"rejected\nerror\npath\n  0 \n  1 \n  0 \n  2 \n",
        Some((6, B1)),
    ),
    (b"rejected\nerror\npath\n  1 \n  2 \n", Some((4, B1))),
    (
        b"rejected\nerror\nsub 1\n  8 \nsub 2\n  11 \n  8 \npath\n  0 \n  6 \n  sub 1\n  sub 2\n  7 \n  2 \n",
        Some((12, B3)),
    ),
    (b"rejected\nerror\npath\n  0 \n  2 \n", Some((5, B2))),
    (
        b"rejected\nerror\nsub 1\n  8 \npath\n  0 \n  1 \n  6 \n  sub 1\n  7 \n  2 \n",
        Some((8, B2)),
    ),
    (
        b"rejected\nerror\nsub 1\n  12 \n  13 \npath\n  0 \n  1 \n  2 \n",
        Some((5, B2)),
    ),
    (b"rejected\nerror\npath\n  0 \n  7 \n  2 \n", Some((5, B2))),
];

pub const RECURSIVE_OWNERS: [Option<u32>; 2] = [Some(0), Some(0)];

pub const RECURSIVE_SITES: [(u32, Option<u32>); 4] = [
    (0, Some(0)),
    (0, Some(0)),
    (0, Some(0)),
    (0, Some(0)),
];

pub const RECURSIVE_LINKS: [(Form, u16); 11] = [
    (Le(1, 0), 1),
    (Enter(0, 0, 1), 1),
    (Bound(1, 0, 0), 1),
    (Const(0, 1, 0), 1),
    (Le(1, 1), 1),
    (Const(0, 0, 0), 1),
    (Leave(0, 0, 1), 1),
    (Le(1, 1), 1),
    (Const(0, 1, 0), 1),
    (Enter(1, 0, 1), 1),
    (Bound(1, 0, 0), 1),
];

pub const RECURSIVE_CASES: [(&[u8], Answer); 18] = [
    (
        b"rejected\nerror\nsub 1\n  0 \npath\n  3 \n  1 \n  sub 1\n  6 \n  2 \n",
        None,
    ),
    (
        b"rejected\nerror\nsub 1\n  0 \npath\n  2 \n  1 \n  sub 1\n  10 \n  2 \n",
        Some((6, B1)),
    ),
    (
        b"rejected\nerror\nsub 1\npath\n  3 \n  1 \n  sub 1\n  6 \n  2 \n",
        Some((7, B4)),
    ),
    (
        b"rejected\nerror\nsub 1\npath\n  3 \n  1 \n  6 \n  2 \n",
        Some((7, B2)),
    ),
    (
        b"rejected\nerror\nsub 1\n  5 \n  0 \npath\n  3 \n  1 \n  sub 1\n  6 \n  2 \n",
        Some((4, B1)),
    ),
    (
        b"rejected\nerror\nsub 1\npath\n  3 \n  1 \n  sub 1\n  6 \n  2 \n",
        Some((7, B4)),
    ),
    (
        b"rejected\nerror\nsub 1\n  4 \n  0 \npath\n  3 \n  1 \n  sub 1\n  6 \n  2 \n",
        None,
    ),
    (
        b"rejected\nerror\nsub 1\n  0 \npath\n  1 \n  1 \n  sub 1\n  6 \n  2 \n",
        Some((6, B1)),
    ),
    (
        b"rejected\nerror\nsub 1\n  sub 0\n  0 \npath\n  3 \n  1 \n  sub 2\n  sub 1\n  6 \n  2 \n",
        Some((4, B1)),
    ),
    (
        b"rejected\nerror\nsub 1\n  0 \npath\n  3 \n  1 \n  sub 1\n  6 \n  10 \n",
        None,
    ),
    (
        b"rejected\nerror\nsub 1\n  0 \npath\n  3 \n  1 \n  sub 1\n  6 \n",
        Some((10, B1)),
    ),
    (
        b"rejected\nerror\nsub 1\n  0 \nsub 2\n  8 \n  9 \npath\n  3 \n  1 \n  sub 1\n  6 \n  10 \n",
        Some((6, B1)),
    ),
    (
        b"rejected\nerror\nsub 1\n  0 \npath\n  3 \n  5 \n  1 \n  sub 1\n  6 \n  10 \n",
        Some((7, B1)),
    ),
    (
        b"rejected\nerror\nsub 1\npath\n  3 \n  1 \n  sub 1\n  6 \n",
        Some((7, B4)),
    ),
    (
        b"rejected\nerror\nsub 1\npath\n  3 \n  1 \n  sub 1\n  6 \n  10 \n",
        Some((7, B4)),
    ),
    (
        b"rejected\nerror\nsub 1\n  9 \npath\n  3 \n  1 \n  sub 1\n  6 \n  10 \n",
        Some((4, B1)),
    ),
    (
        b"rejected\nerror\nsub 1\n  7 \npath\n  3 \n  1 \n  sub 1\n  6 \n  10 \n",
        Some((9, B2)),
    ),
    (
        b"rejected\nerror\nsub 1\n  0 \npath\n  3 \n  1 \n  6 \n  sub 1\n  10 \n",
        Some((8, B2)),
    ),
];

pub const SHARED_OWNERS: [Option<u32>; 7] = [
    Some(0),
    None,
    Some(0),
    None,
    Some(0),
    Some(0),
    Some(0),
];

pub const SHARED_SITES: [(u32, Option<u32>); 1] = [(0, Some(0))];

pub const SHARED_LINKS: [(Form, u16); 12] = [
    (Leave(0, 4, 4), 1),
    (Const(0, 0, 4), 1),
    (Le(6, 4), 1),
    (Const(0, 1, 2), 1),
    (Le(3, 5), 1),
    (Le(4, 6), 1),
    (Le(1, 0), 1),
    (Le(6, 4), 1),
    (Enter(0, 2, 6), 1),
    (Bound(4, 0, 0), 1),
    (Bound(6, 0, 0), 1),
    (Le(4, 2), 1),
];

pub const SHARED_CASES: [(&[u8], Answer); 12] = [
    (
        b"rejected\nerror\nsub 1\n  2 \npath\n  3 \n  8 \n  sub 1\n  0 \n  9 \n",
        None,
    ),
    (
        b"rejected\nerror\nsub 1\n  9 \npath\n  3 \n  8 \n  sub 1\n  0 \n  9 \n",
        Some((4, B1)),
    ),
    (
        b"rejected\nerror\nsub 1\n  2 \nsub 2\n  3 \npath\n  3 \n  8 \n  sub 1\n  0 \n  9 \n",
        Some((6, B1)),
    ),
    (
        b"rejected\nerror\nsub 1\n  2 \npath\n  3 \n  8 \n  sub 1\n  6 \n  9 \n",
        Some((9, B2)),
    ),
    (
        b"rejected\nerror\nsub 1\n  2 \npath\n  3 \n  sub 1\n  0 \n  9 \n",
        Some((7, B1)),
    ),
    (
        b"rejected\nerror\nsub 1\n  3 \npath\n  3 \n  8 \n  sub 1\n  0 \n  9 \n",
        Some((4, B1)),
    ),
    (
        b"rejected\nerror\nsub 1\n  2 \npath\n  3 \n  8 \n  sub 1\n  9 \n  sub 2\n  0 \n",
        Some((9, B3)),
    ),
    (
        b"rejected\nerror\nsub 1\n  2 \npath\n  3 \n  sub 2\n  8 \n  sub 1\n  0 \n  9 \n",
        Some((7, B1)),
    ),
    (
        b"rejected\nerror\nsub 1\npath\n  3 \n  8 \n  9 \n  sub 1\n  0 \n  9 \n",
        Some((7, B2)),
    ),
    (b"rejected\nerror\npath\n  3 \n  8 \n  10 \n", None),
    (b"rejected\nerror\npath\n  8 \n  3 \n  8 \n", Some((4, B1))),
    (b"rejected\nerror\npath\n  3 \n  10 \n  8 \n", Some((5, B2))),
];

pub const GLOBALS_OWNERS: [Option<u32>; 9] = [
    Some(0),
    None,
    Some(0),
    Some(0),
    Some(0),
    Some(0),
    None,
    Some(0),
    None,
];

pub const GLOBALS_SITES: [(u32, Option<u32>); 2] = [(0, Some(0)), (0, Some(0))];

pub const GLOBALS_LINKS: [(Form, u16); 10] = [
    (Bound(0, 0, 0), 1),
    (Le(6, 8), 1),
    (Enter(0, 5, 5), 1),
    (Enter(1, 5, 5), 1),
    (Const(0, 0, 4), 1),
    (Leave(0, 4, 2), 1),
    (Le(7, 7), 1),
    (Const(0, 1, 5), 1),
    (Le(5, 4), 1),
    (Enter(1, 2, 0), 1),
];

pub const GLOBALS_CASES: [(&[u8], Answer); 9] = [
    (
        b"rejected\nerror\nsub 1\n  8 \npath\n  7 \n  2 \n  sub 1\n  5 \n  9 \n  0 \n",
        None,
    ),
    (
        b"rejected\nerror\nsub 1\n  8 \nsub 2\n  0 \n  8 \npath\n  7 \n  2 \n  sub 1\n  5 \n  9 \n  0 \n",
        Some((6, B1)),
    ),
    (
        b"rejected\nerror\nsub 1\n  sub 0\n  8 \npath\n  2 \n  7 \n  sub 1\n  5 \n  9 \n  0 \n",
        Some((7, B1)),
    ),
    (
        b"rejected\nerror\nsub 1\n  8 \nsub 2\n  8 \npath\n  7 \n  2 \n  sub 1\n  5 \n  9 \n  0 \n",
        None,
    ),
    (
        b"rejected\nerror\nsub 1\n  8 \npath\n  7 \n  2 \n  sub 1\n  5 \n  0 \n",
        Some((10, B2)),
    ),
    (
        b"rejected\nerror\nsub 1\n  1 \n  8 \npath\n  7 \n  2 \n  sub 1\n  5 \n  9 \n  0 \n",
        Some((4, B5)),
    ),
    (
        b"rejected\nerror\nsub 1\n  8 \npath\n  1 \n  7 \n  2 \n  sub 1\n  5 \n  9 \n  0 \n",
        Some((6, B1)),
    ),
    (
        b"rejected\nerror\nsub 1\n  8 \npath\n  7 \n  2 \n  sub 1\n  5 \n  9 \n",
        Some((11, B1)),
    ),
    (
        b"rejected\nerror\nsub 1\n  8 \npath\n  7 \n  6 \n  2 \n  sub 1\n  5 \n  9 \n  0 \n",
        Some((7, B2)),
    ),
];

pub const TWO_FUNCTIONS_OWNERS: [Option<u32>; 8] = [
    Some(0),
    Some(0),
    Some(1),
    Some(1),
    Some(1),
    Some(1),
    None,
    Some(0),
];

pub const TWO_FUNCTIONS_SITES: [(u32, Option<u32>); 3] = [(1, Some(1)), (1, Some(1)), (0, Some(1))];

pub const TWO_FUNCTIONS_LINKS: [(Form, u16); 11] = [
    (Leave(1, 4, 4), 1),
    (Le(2, 3), 1),
    (Enter(0, 3, 3), 1),
    (Enter(0, 2, 4), 1),
    (Leave(0, 3, 3), 1),
    (Enter(0, 4, 3), 1),
    (Enter(0, 5, 4), 1),
    (Le(4, 6), 1),
    (Bound(3, 0, 0), 1),
    (Const(0, 1, 5), 1),
    (Bound(1, 0, 0), 1),
];

pub const TWO_FUNCTIONS_CASES: [(&[u8], Answer); 9] = [
    (
        b"rejected\nerror\nsub 1\n  5 \n  4 \npath\n  9 \n  6 \n  sub 1\n  4 \n  8 \n",
        None,
    ),
    (
        b"rejected\nerror\nsub 1\n  5 \n  4 \npath\n  9 \n  6 \n  sub 1\n  4 \n",
        Some((11, B1)),
    ),
    (
        b"rejected\nerror\nsub 1\n  5 \n  8 \n  4 \npath\n  9 \n  6 \n  sub 1\n  4 \n  8 \n",
        Some((4, B1)),
    ),
    (
        b"rejected\nerror\nsub 1\n  5 \n  4 \npath\n  9 \n  6 \n  sub 1\n  9 \n  4 \n  8 \n",
        Some((10, B1)),
    ),
    (
        b"rejected\nerror\nsub 1\n  4 \n  5 \npath\n  9 \n  6 \n  sub 1\n  4 \n  8 \n",
        Some((4, B1)),
    ),
    (
        b"rejected\nerror\nsub 1\n  5 \n  4 \npath\n  9 \n  6 \n  sub 1\n  8 \n",
        Some((10, B3)),
    ),
    (
        b"rejected\nerror\nsub 1\n  5 \n  4 \npath\n  6 \n  9 \n  sub 1\n  4 \n  8 \n",
        Some((7, B1)),
    ),
    (
        b"rejected\nerror\nsub 1\n  5 \npath\n  9 \n  6 \n  sub 1\n  1 \n  8 \n",
        Some((4, B1)),
    ),
    (
        b"rejected\nerror\nsub 1\n  5 \n  4 \npath\n  9 \n  6 \n  sub 2\n  sub 1\n  4 \n  8 \n",
        Some((9, B4)),
    ),
];

pub const FILE_SITE_OWNERS: [Option<u32>; 9] = [
    Some(0),
    Some(0),
    Some(0),
    None,
    Some(0),
    Some(0),
    Some(0),
    None,
    Some(0),
];

pub const FILE_SITE_SITES: [(u32, Option<u32>); 4] = [
    (0, None),
    (0, Some(0)),
    (0, Some(0)),
    (0, Some(0)),
];

pub const FILE_SITE_LINKS: [(Form, u16); 13] = [
    (Bound(3, 0, 0), 1),
    (Le(1, 7), 1),
    (Le(0, 6), 1),
    (Le(2, 1), 1),
    (Enter(0, 7, 6), 1),
    (Le(7, 1), 1),
    (Leave(0, 5, 3), 1),
    (Le(1, 5), 1),
    (Le(6, 1), 1),
    (Leave(3, 1, 2), 1),
    (Le(6, 7), 1),
    (Const(0, 1, 1), 1),
    (Enter(1, 8, 6), 1),
];

pub const FILE_SITE_CASES: [(&[u8], Answer); 9] = [
    (
        b"rejected\nerror\nsub 1\n  8 \n  7 \npath\n  11 \n  1 \n  4 \n  sub 1\n  6 \n  0 \n",
        None,
    ),
    (
        b"rejected\nerror\nsub 1\n  8 \n  7 \nsub 2\n  6 \npath\n  11 \n  4 \n  1 \n  4 \n  sub 1\n  6 \n  0 \n",
        Some((7, B1)),
    ),
    (
        b"rejected\nerror\nsub 1\n  8 \n  7 \npath\n  11 \n  1 \n  9 \n  sub 1\n  6 \n  0 \n",
        Some((9, B2)),
    ),
    (
        b"rejected\nerror\nsub 1\n  8 \n  sub 0\n  7 \npath\n  11 \n  1 \n  4 \n  sub 1\n  6 \n  0 \n",
        Some((5, B1)),
    ),
    (
        b"rejected\nerror\nsub 1\n  8 \n  7 \npath\n  11 \n  1 \n  4 \n  sub 1\n  6 \n  6 \n  0 \n",
        Some((12, B2)),
    ),
    (
        b"rejected\nerror\nsub 1\n  8 \n  8 \n  7 \npath\n  11 \n  1 \n  4 \n  sub 1\n  6 \n  0 \n",
        Some((5, B2)),
    ),
    (
        b"rejected\nerror\nsub 1\n  7 \n  7 \npath\n  11 \n  1 \n  4 \n  sub 1\n  6 \n  0 \n",
        Some((5, B2)),
    ),
    (
        b"rejected\nerror\nsub 1\n  8 \n  7 \npath\n  11 \n  1 \n  4 \n  sub 1\n  6 \n  0 \n",
        None,
    ),
    (
        b"rejected\nerror\nsub 1\n  8 \n  7 \npath\n  9 \n  1 \n  4 \n  sub 1\n  6 \n  0 \n",
        Some((7, B1)),
    ),
];

/// Texts over nine constraints: the number of path proofs, or the fault.
pub const TEXTS: [(&[u8], Result<usize, ReportFault>); 36] = [
    (b"", Err(Grammar(1))),
    (b"\n", Err(Grammar(1))),
    (b"rejected", Err(Grammar(1))),
    (b"rejected\r\n", Err(Grammar(1))),
    (b"accepted\n", Err(Grammar(1))),
    (b"rejected\n", Err(Grammar(2))),
    (b"rejected\nrejected\n", Err(Grammar(2))),
    (b"rejected\nerrors\n", Err(Grammar(2))),
    (b"rejected\nerror x exceeds y\n", Err(Grammar(3))),
    (b"rejected\nerror\n  0 x\n", Err(Grammar(3))),
    (b"rejected\nerror\npath\n", Ok(1)),
    (b"rejected\nerror \npath\n", Ok(1)),
    (b"rejected\nerror\npath \n", Err(Grammar(3))),
    (b"rejected\nerror\nsub 1\npath\n", Ok(1)),
    (b"rejected\nerror\nsub 0\npath\n", Err(Grammar(3))),
    (b"rejected\nerror\nsub 2\npath\n", Err(Grammar(3))),
    (b"rejected\nerror\nsub 01\npath\n", Err(Grammar(3))),
    (b"rejected\nerror\nsub 1 \npath\n", Err(Grammar(3))),
    (b"rejected\nerror\nsub 1\nsub 1\npath\n", Err(Grammar(4))),
    (b"rejected\nerror\nsub 1\n  8 x\nsub 2\npath\n", Ok(1)),
    (b"rejected\nerror\nsub 1\n", Err(Grammar(4))),
    (b"rejected\nerror\nsub 1\nerror\n", Err(Grammar(4))),
    (b"rejected\nerror\npath\nsub 1\n", Err(Grammar(4))),
    (b"rejected\nerror\npath\npath\n", Err(Grammar(4))),
    (b"rejected\nerror\npath\n  0 \nerror\npath\n  8 x\n", Ok(2)),
    (b"rejected\nerror\npath\n  0 x", Err(Grammar(4))),
    (b"rejected\nerror\npath\n  99 x", Err(Grammar(4))),
    (b"rejected\nerror\npath\n  0\n", Err(Grammar(4))),
    (b"rejected\nerror\npath\n  00 x\n", Err(Grammar(4))),
    (b"rejected\nerror\npath\n 0 x\n", Err(Grammar(4))),
    (b"rejected\nerror\npath\n   0 x\n", Err(Grammar(4))),
    (b"rejected\nerror\npath\n  9 x\n", Err(NoSuchConstraint(4))),
    (
        b"rejected\nerror\npath\n  99999999999999999999 x\n",
        Err(NoSuchConstraint(4)),
    ),
    (
        b"rejected\nerror\npath\n  9 x\n?\n",
        Err(NoSuchConstraint(4)),
    ),
    (b"rejected\nerror\npath\n?\n  9 x\n", Err(Grammar(4))),
    (b"rejected\nerror\npath\n  sub 0\n  sub 4294967296\n", Ok(1)),
];

/// A step of a walk: a constraint, or a sub-path by its number.
#[derive(Clone, Copy)]
pub enum Step {
    Take(u32),
    Through(u32),
}

use Step::{Take, Through};

/// A walk over the graph of two lattices: the lattice, where it begins and where it is to end, whether its one sub-path is the flow
/// from 2 to 3, and its steps, which stand in the lines from 1 on.
pub type WalkCase = (u8, u32, u32, bool, &'static [Step], Answer);

pub const WALKS: [WalkCase; 16] = [
    (0, 0, 1, false, &[Take(1)], None),
    (0, 0, 0, false, &[], None),
    (0, 0, 1, false, &[], Some((1, B2))),
    (0, 1, 1, false, &[Take(1)], Some((1, B2))),
    (0, 0, 3, false, &[Take(1)], Some((2, B2))),
    (0, 0, 1, false, &[Take(1), Take(2)], Some((2, B1))),
    (0, 0, 0, false, &[Take(0)], Some((1, B1))),
    (0, 0, 0, false, &[Take(99)], Some((1, B1))),
    (0, 0, 1, false, &[Take(5)], Some((1, B6))),
    (1, 0, 1, false, &[Take(5)], None),
    (0, 3, 1, false, &[Take(7)], None),
    (0, 0, 1, false, &[Take(6), Take(8), Take(7)], Some((3, B1))),
    (
        0,
        0,
        1,
        false,
        &[Take(6), Take(8), Take(14), Take(15), Take(7)],
        None,
    ),
    (0, 0, 1, true, &[Take(6), Through(1), Take(7)], None),
    (
        0,
        0,
        1,
        true,
        &[Take(6), Through(1), Take(9)],
        Some((3, B3)),
    ),
    (
        0,
        0,
        1,
        false,
        &[Take(6), Through(1), Take(7)],
        Some((2, B4)),
    ),
];
