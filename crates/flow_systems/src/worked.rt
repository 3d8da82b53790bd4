//! Systems worked out by hand, with two elements, 1 above 0.

use crate::case::PlainLink::{Bound, Const, Enter, Le, Leave};
use crate::case::{Answers, Case, F0, F1, F2, F3, NOBODY, TWO};

/// Systems where each call has its own copy.
pub static CALLS: [Case; 4] = [
    // b = a; with 0 a, 1 b.
    Case {
        name: "a flow",
        shapes: &[TWO],
        owners: &[],
        sites: &[],
        rows: &[Const(1, 0), Bound(1, 0), Le(0, 1)],
        masks: &[],
        answers: &[Answers {
            reached: &[2, 2],
            values: &[1, 1],
            matched: &[],
            exceeded: &[1],
            met: [false, false, false, false],
        }],
    },
    // A function with a constant calls a second one, and that a third one with the bound: two sites from depth 2 on.
    Case {
        name: "a call in a call",
        shapes: &[TWO],
        owners: &[F0, F1, F2],
        sites: &[(1, F0), (2, F1)],
        rows: &[Const(1, 0), Enter(0, 0, 1), Enter(1, 1, 2), Bound(2, 0)],
        masks: &[],
        answers: &[Answers {
            reached: &[2, 2, 2],
            values: &[1, 1, 1],
            matched: &[(1, &[]), (2, &[])],
            exceeded: &[3],
            met: [true, true, false, false],
        }],
    },
    // int id(int x) { return x; }   int c, d;
    // void f(void) { c = id(a); b = id(d); }
    // 0 to 3 id, its function, parameter and result; 4 x; 5 a, 6 b, 7 c, 8 d;
    // 9 to 12 and 13 to 16 are as 0 to 3 at the two sites. Each site has its own copy of id, so nothing comes to b.
    Case {
        name: "two calls of one function",
        shapes: &[TWO],
        owners: &[
            F0, F0, F0, F0, F0, NOBODY, NOBODY, NOBODY, NOBODY, F1, F1, F1, F1, F1, F1, F1, F1,
        ],
        sites: &[(0, F1), (0, F1)],
        rows: &[
            Le(2, 4),
            Le(4, 3),
            Const(1, 5),
            Bound(6, 0),
            Leave(0, 0, 9),
            Leave(0, 1, 10),
            Enter(0, 11, 2),
            Leave(0, 3, 12),
            Le(5, 11),
            Le(12, 7),
            Leave(1, 0, 13),
            Leave(1, 1, 14),
            Enter(1, 15, 2),
            Leave(1, 3, 16),
            Le(8, 15),
            Le(16, 6),
        ],
        masks: &[],
        answers: &[Answers {
            reached: &[0, 0, 2, 2, 2, 2, 0, 2, 0, 0, 0, 2, 2, 0, 0, 0, 0],
            values: &[0, 0, 1, 1, 1, 1, 0, 1, 0, 0, 0, 1, 1, 0, 0, 0, 0],
            matched: &[(2, &[3, 4])],
            exceeded: &[],
            met: [true, true, true, true],
        }],
    },
    // int r(int x, int y) { if (x) return r(y, x); return x; }   void f(void) { b = r(b, a); }
    // 0 to 4 r, its function, parameters and result; 5 x, 6 y; 7 to 11 r at its own site; 12 a, 13 b;
    // 14 to 18 r at its site in f. What comes in as y goes out in a call of depth 2.
    Case {
        name: "a flow through recursion",
        shapes: &[TWO],
        owners: &[
            F0, F0, F0, F0, F0, F0, F0, F0, F0, F0, F0, F0, NOBODY, NOBODY, F1, F1, F1, F1, F1,
        ],
        sites: &[(0, F0), (0, F1)],
        rows: &[
            Le(2, 5),
            Le(3, 6),
            Leave(0, 0, 7),
            Leave(0, 1, 8),
            Enter(0, 9, 2),
            Enter(0, 10, 3),
            Leave(0, 4, 11),
            Le(6, 9),
            Le(5, 10),
            Le(11, 4),
            Le(5, 4),
            Const(1, 12),
            Bound(13, 0),
            Leave(1, 0, 14),
            Leave(1, 1, 15),
            Enter(1, 16, 2),
            Enter(1, 17, 3),
            Leave(1, 4, 18),
            Le(13, 16),
            Le(12, 17),
            Le(18, 13),
        ],
        masks: &[],
        answers: &[Answers {
            reached: &[0, 0, 2, 2, 2, 2, 2, 0, 0, 2, 2, 2, 2, 2, 0, 0, 2, 2, 2],
            values: &[0, 0, 1, 1, 1, 1, 1, 0, 0, 1, 1, 1, 1, 1, 0, 0, 1, 1, 1],
            matched: &[(2, &[4, 5, 10, 11]), (3, &[4, 6, 9, 11])],
            exceeded: &[12],
            met: [true, true, false, false],
        }],
    },
];

/// Systems where variables or sites of nobody are met from several copies.
pub static SHARED: [Case; 3] = [
    // int g;   void put(int x) { g = x; }   int get(void) { return g; }
    // void f(void) { put(a); }   void h(void) { b = get(); }
    // 0 to 3 put, its function, parameter and result; 4 x; 5 to 7 get, its function and result; 8 a, 9 b, 10 g;
    // 11 to 14 put at its site; 15 to 17 get at its site. Both sites meet the one copy of g, from depth 1 on.
    Case {
        name: "two functions that share a variable of nobody",
        shapes: &[TWO],
        owners: &[
            F0, F0, F0, F0, F0, F1, F1, F1, NOBODY, NOBODY, NOBODY, F2, F2, F2, F2, F3, F3, F3,
        ],
        sites: &[(0, F2), (1, F3)],
        rows: &[
            Const(1, 8),
            Bound(9, 0),
            Le(2, 4),
            Le(4, 10),
            Le(10, 7),
            Leave(0, 0, 11),
            Leave(0, 1, 12),
            Enter(0, 13, 2),
            Leave(0, 3, 14),
            Le(8, 13),
            Leave(1, 5, 15),
            Leave(1, 6, 16),
            Leave(1, 7, 17),
            Le(17, 9),
        ],
        masks: &[],
        answers: &[Answers {
            reached: &[0, 0, 2, 0, 2, 0, 0, 2, 2, 2, 2, 0, 0, 2, 0, 0, 0, 2],
            values: &[0, 0, 1, 0, 1, 0, 0, 1, 1, 1, 1, 0, 0, 1, 0, 0, 0, 1],
            matched: &[(2, &[4])],
            exceeded: &[1],
            met: [true, false, false, false],
        }],
    },
    // int id(int x) { return x; }   int (*fp)(int) = id;   int c;
    // void f(void) { c = fp(a); }   void h(void) { b = fp(1); }
    // 0 to 3 id, its function, parameter and result; 4 x; 5 to 9 fp, its value, function, parameter and result;
    // 10 a, 11 b, 12 c; 13 to 16 id at file scope; 17 the number 1. Both calls go through one copy of id, from depth 1 on.
    Case {
        name: "a site that nobody owns",
        shapes: &[TWO],
        owners: &[
            F0, F0, F0, F0, F0, NOBODY, NOBODY, NOBODY, NOBODY, NOBODY, NOBODY, NOBODY, NOBODY,
            NOBODY, NOBODY, NOBODY, NOBODY, F2,
        ],
        sites: &[(0, NOBODY)],
        rows: &[
            Le(2, 4),
            Le(4, 3),
            Leave(0, 0, 13),
            Leave(0, 1, 14),
            Enter(0, 15, 2),
            Leave(0, 3, 16),
            Le(13, 6),
            Le(14, 7),
            Le(7, 14),
            Le(15, 8),
            Le(8, 15),
            Le(16, 9),
            Le(9, 16),
            Const(1, 10),
            Bound(11, 0),
            Le(10, 8),
            Le(9, 12),
            Le(17, 8),
            Le(9, 11),
        ],
        masks: &[],
        answers: &[Answers {
            reached: &[0, 0, 2, 2, 2, 0, 0, 0, 2, 2, 2, 2, 2, 0, 0, 2, 2, 0],
            values: &[0, 0, 1, 1, 1, 0, 0, 0, 1, 1, 1, 1, 1, 0, 0, 1, 1, 0],
            matched: &[(2, &[3, 4])],
            exceeded: &[14],
            met: [true, false, false, false],
        }],
    },
    // The same with c = id(a) in f: 18 to 21 id at its site in f, which has its own copy.
    Case {
        name: "a call beside a site that nobody owns",
        shapes: &[TWO],
        owners: &[
            F0, F0, F0, F0, F0, NOBODY, NOBODY, NOBODY, NOBODY, NOBODY, NOBODY, NOBODY, NOBODY,
            NOBODY, NOBODY, NOBODY, NOBODY, F2, F1, F1, F1, F1,
        ],
        sites: &[(0, NOBODY), (0, F1)],
        rows: &[
            Le(2, 4),
            Le(4, 3),
            Leave(0, 0, 13),
            Leave(0, 1, 14),
            Enter(0, 15, 2),
            Leave(0, 3, 16),
            Le(13, 6),
            Le(14, 7),
            Le(7, 14),
            Le(15, 8),
            Le(8, 15),
            Le(16, 9),
            Le(9, 16),
            Const(1, 10),
            Bound(11, 0),
            Leave(1, 0, 18),
            Leave(1, 1, 19),
            Enter(1, 20, 2),
            Leave(1, 3, 21),
            Le(10, 20),
            Le(21, 12),
            Le(17, 8),
            Le(9, 11),
        ],
        masks: &[],
        answers: &[Answers {
            reached: &[
                0, 0, 2, 2, 2, 0, 0, 0, 0, 0, 2, 0, 2, 0, 0, 0, 0, 0, 0, 0, 2, 2,
            ],
            values: &[
                0, 0, 1, 1, 1, 0, 0, 0, 0, 0, 1, 0, 1, 0, 0, 0, 0, 0, 0, 0, 1, 1,
            ],
            matched: &[(2, &[3, 4])],
            exceeded: &[],
            met: [true, true, true, true],
        }],
    },
];
