//! Systems worked out by hand in two or three lattices, with masks that differ.

use crate::case::PlainLink::{Bound, BoundIn, Const, ConstIn, Enter, Le, Leave};
use crate::case::{Answers, Case, DIAMOND, F0, F1, NOBODY, THREE, TWO};

/// Systems without calls.
pub static FLOWS: [Case; 3] = [
    // The constant 1 of each lattice is at 0, and only the second one flows on to 1.
    Case {
        name: "a flow in the second lattice alone",
        shapes: &[TWO, TWO],
        owners: &[],
        sites: &[],
        rows: &[
            Const(1, 0),
            ConstIn(1, 1, 0),
            Le(0, 1),
            Bound(1, 0),
            BoundIn(1, 1, 0),
        ],
        masks: &[1, 2, 2, 1, 2],
        answers: &[
            Answers {
                reached: &[2, 0],
                values: &[1, 0],
                matched: &[],
                exceeded: &[],
                met: [true, true, true, true],
            },
            Answers {
                reached: &[2, 2],
                values: &[1, 1],
                matched: &[],
                exceeded: &[4],
                met: [false, false, false, false],
            },
        ],
    },
    // The masks of constants and bounds say the other lattice, or none, and mean nothing: 0 has 1 in the first lattice and 2 in
    // the second one, and both bounds of 1 are exceeded. The bound of 2 in the second lattice is the element that comes to it.
    Case {
        name: "constants and bounds in the lattice that they name",
        shapes: &[TWO, THREE],
        owners: &[],
        sites: &[],
        rows: &[
            Const(1, 0),
            ConstIn(1, 2, 0),
            Le(0, 1),
            Bound(1, 0),
            BoundIn(1, 1, 1),
            Le(1, 2),
            Bound(2, 0),
            BoundIn(2, 1, 2),
        ],
        masks: &[2, 1, 3, 2, 0, 2, 3, 3],
        answers: &[
            Answers {
                reached: &[2, 2, 0],
                values: &[1, 1, 0],
                matched: &[],
                exceeded: &[3],
                met: [false, false, false, false],
            },
            Answers {
                reached: &[4, 4, 4],
                values: &[2, 2, 2],
                matched: &[],
                exceeded: &[4],
                met: [false, false, false, false],
            },
        ],
    },
    // Flows 0 to 1, 1 to 2 and 2 to 3 are in two of three lattices each, and the constants of all three stand at 0: the first
    // comes to 1, the second to 2 and the third not to 1. Variable 3 has what a constant of its own says in the third.
    Case {
        name: "a chain whose flows leave out a lattice each",
        shapes: &[THREE, TWO, THREE],
        owners: &[],
        sites: &[],
        rows: &[
            Le(0, 1),
            Le(1, 2),
            Le(2, 3),
            Const(2, 0),
            ConstIn(1, 1, 0),
            ConstIn(2, 1, 0),
            ConstIn(2, 2, 2),
            Bound(1, 1),
            BoundIn(2, 1, 0),
            BoundIn(3, 1, 0),
            BoundIn(3, 2, 1),
            BoundIn(1, 2, 0),
        ],
        masks: &[3, 6, 5, 7, 7, 7, 1, 7, 7, 7, 7, 7],
        answers: &[
            Answers {
                reached: &[4, 4, 0, 0],
                values: &[2, 2, 0, 0],
                matched: &[],
                exceeded: &[7],
                met: [false, false, false, false],
            },
            Answers {
                reached: &[2, 2, 2, 0],
                values: &[1, 1, 1, 0],
                matched: &[],
                exceeded: &[8],
                met: [false, false, false, false],
            },
            Answers {
                reached: &[2, 0, 4, 4],
                values: &[1, 0, 2, 2],
                matched: &[],
                exceeded: &[10],
                met: [false, false, false, false],
            },
        ],
    },
];

/// Systems whose calls and returns are in some of the lattices.
pub static CALLS: [Case; 5] = [
    // Function 0 calls function 1 in the first lattice and comes back in the second, so no call has its return in either. What
    // 1 says of 2 comes to 3 in both, as each lattice has its own constant there.
    Case {
        name: "a call in one lattice and its return in the other",
        shapes: &[TWO, TWO],
        owners: &[F0, F0, F1, F1],
        sites: &[(1, F0)],
        rows: &[
            Enter(0, 0, 2),
            Le(2, 3),
            Leave(0, 3, 1),
            Const(1, 0),
            ConstIn(1, 1, 0),
            Bound(1, 0),
            BoundIn(1, 1, 0),
            Bound(3, 0),
            BoundIn(3, 1, 0),
        ],
        masks: &[1, 3, 2, 1, 2, 1, 2, 1, 2],
        answers: &[
            Answers {
                reached: &[2, 0, 2, 2],
                values: &[1, 0, 1, 1],
                matched: &[(2, &[3])],
                exceeded: &[7],
                met: [true, false, false, false],
            },
            Answers {
                reached: &[2, 0, 0, 0],
                values: &[1, 0, 0, 0],
                matched: &[],
                exceeded: &[],
                met: [true, true, true, true],
            },
        ],
    },
    // The flow in the function is in both lattices, and its return in the second alone, so the bound of the caller is exceeded
    // there alone. From depth 1 on the call has its copy.
    Case {
        name: "a call in both lattices and a return in the second",
        shapes: &[TWO, DIAMOND],
        owners: &[F0, F0, F1, F1],
        sites: &[(1, F0)],
        rows: &[
            Enter(0, 0, 2),
            Le(2, 3),
            Leave(0, 3, 1),
            Const(1, 0),
            ConstIn(1, 2, 0),
            Bound(1, 0),
            BoundIn(1, 1, 1),
        ],
        masks: &[3, 3, 2, 3, 3, 3, 3],
        answers: &[
            Answers {
                reached: &[2, 0, 2, 2],
                values: &[1, 0, 1, 1],
                matched: &[(2, &[3])],
                exceeded: &[],
                met: [true, true, true, true],
            },
            Answers {
                reached: &[4, 4, 4, 4],
                values: &[2, 2, 2, 2],
                matched: &[(2, &[3])],
                exceeded: &[6],
                met: [true, false, false, false],
            },
        ],
    },
    // Site 0 calls and returns in the first lattice, site 1 in the second. A constant of both lattices goes into both calls, and
    // comes out at 1 in the first lattice and at 3 in the second.
    Case {
        name: "two calls, each of one lattice",
        shapes: &[TWO, TWO],
        owners: &[F0, F0, F0, F0, F1, F1],
        sites: &[(1, F0), (1, F0)],
        rows: &[
            Enter(0, 0, 4),
            Leave(0, 5, 1),
            Enter(1, 2, 4),
            Leave(1, 5, 3),
            Le(4, 5),
            Const(1, 0),
            ConstIn(1, 1, 0),
            Const(1, 2),
            ConstIn(1, 1, 2),
            Bound(1, 0),
            BoundIn(1, 1, 0),
            Bound(3, 0),
            BoundIn(3, 1, 0),
        ],
        masks: &[1, 1, 2, 2, 3, 1, 2, 1, 2, 1, 2, 1, 2],
        answers: &[
            Answers {
                reached: &[2, 2, 2, 0, 2, 2],
                values: &[1, 1, 1, 0, 1, 1],
                matched: &[(4, &[5])],
                exceeded: &[9],
                met: [true, false, false, false],
            },
            Answers {
                reached: &[2, 0, 2, 2, 2, 2],
                values: &[1, 0, 1, 1, 1, 1],
                matched: &[(4, &[5])],
                exceeded: &[12],
                met: [true, false, false, false],
            },
        ],
    },
    // The function calls itself with 0 as its parameter 1, and what is in 2 at its end comes to 3 of the caller. The base 1 to 2
    // flows in all lattices; the call is in the second and third, and the return in the third alone.
    Case {
        name: "recursion in the third lattice alone",
        shapes: &[TWO, TWO, TWO],
        owners: &[F0, F0, F0, F0],
        sites: &[(0, F0)],
        rows: &[
            Enter(0, 0, 1),
            Le(1, 2),
            Leave(0, 2, 3),
            Const(1, 0),
            ConstIn(1, 1, 0),
            ConstIn(2, 1, 0),
            Bound(3, 0),
            BoundIn(3, 1, 0),
            BoundIn(3, 2, 0),
            Bound(2, 0),
            BoundIn(2, 1, 0),
            BoundIn(2, 2, 0),
        ],
        masks: &[6, 7, 4, 1, 2, 4, 1, 2, 4, 7, 7, 7],
        answers: &[
            Answers {
                reached: &[2, 0, 0, 0],
                values: &[1, 0, 0, 0],
                matched: &[],
                exceeded: &[],
                met: [true, true, true, true],
            },
            Answers {
                reached: &[2, 2, 2, 0],
                values: &[1, 1, 1, 0],
                matched: &[(1, &[2])],
                exceeded: &[10],
                met: [true, false, false, false],
            },
            Answers {
                reached: &[2, 2, 2, 2],
                values: &[1, 1, 1, 1],
                matched: &[(1, &[2])],
                exceeded: &[8, 11],
                met: [true, false, false, false],
            },
        ],
    },
    // A site at file scope: the call is in both lattices, the flow inside in the first alone, the return in both. In the second
    // lattice the constant stays at the parameter, where its bound is exceeded from depth 1 on.
    Case {
        name: "a site of nobody between two lattices",
        shapes: &[TWO, TWO],
        owners: &[NOBODY, NOBODY, F0, F0],
        sites: &[(0, NOBODY)],
        rows: &[
            Enter(0, 0, 2),
            Le(2, 3),
            Leave(0, 3, 1),
            Const(1, 0),
            ConstIn(1, 1, 0),
            Bound(1, 0),
            BoundIn(1, 1, 0),
            BoundIn(2, 1, 0),
        ],
        masks: &[3, 1, 3, 0, 0, 0, 0, 0],
        answers: &[
            Answers {
                reached: &[2, 2, 2, 2],
                values: &[1, 1, 1, 1],
                matched: &[(2, &[3])],
                exceeded: &[5],
                met: [true, false, false, false],
            },
            Answers {
                reached: &[2, 0, 2, 0],
                values: &[1, 0, 1, 0],
                matched: &[(2, &[])],
                exceeded: &[7],
                met: [true, false, false, false],
            },
        ],
    },
];
