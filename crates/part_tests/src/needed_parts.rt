//! Systems that show that each rule is needed.

use certificate_laws::CertRule;

/// A constraint by plain numbers: sites and variables as in `Link`. A constant is the greater one of two elements.
#[derive(Clone, Copy)]
pub enum PlainLink {
    Le(u32, u32),
    Const(u32),
    Bound(u32),
    Enter(u32, u32, u32),
    Leave(u32, u32, u32),
}

/// A certificate by plain numbers.
pub struct Sets {
    pub pairs: &'static [(u32, u32)],
    pub first: &'static [u64],
    pub second: &'static [u64],
}

/// A system whose bound is exceeded where it is the lesser element.
///
/// The least sets by all rules but one, or but half of one, keep that bound; those by all rules do not.
pub struct Case {
    pub name: &'static str,
    pub rule: CertRule,
    pub owners: &'static [Option<u32>],
    pub sites: &'static [(u32, Option<u32>)],
    pub rows: &'static [PlainLink],
    pub without: Sets,
    pub whole: Sets,
}

const NOBODY: Option<u32> = None;

const F0: Option<u32> = Some(0);

const F1: Option<u32> = Some(1);

const F2: Option<u32> = Some(2);

use PlainLink::{Bound, Const, Enter, Le, Leave};

/// One for each rule, and one for each half of a rule that has two.
pub static NEEDED: [Case; 13] = [
    Case {
        name: "a constant",
        rule: CertRule::A1,
        owners: &[F0],
        sites: &[],
        rows: &[Const(0), Bound(0)],
        without: Sets {
            pairs: &[],
            first: &[0],
            second: &[0],
        },
        whole: Sets {
            pairs: &[],
            first: &[2],
            second: &[2],
        },
    },
    Case {
        name: "the first set within the second",
        rule: CertRule::A2,
        owners: &[F0],
        sites: &[],
        rows: &[Const(0), Bound(0)],
        without: Sets {
            pairs: &[],
            first: &[2],
            second: &[0],
        },
        whole: Sets {
            pairs: &[],
            first: &[2],
            second: &[2],
        },
    },
    Case {
        name: "a variable of nobody",
        rule: CertRule::A2,
        owners: &[F0, F1, NOBODY, F1, F0],
        sites: &[(1, F0)],
        rows: &[
            Const(0),
            Enter(0, 0, 1),
            Le(1, 2),
            Le(2, 3),
            Leave(0, 3, 4),
            Bound(4),
        ],
        without: Sets {
            pairs: &[(1, 1)],
            first: &[2, 0, 0, 0, 0],
            second: &[2, 2, 2, 2, 0],
        },
        whole: Sets {
            pairs: &[(1, 1)],
            first: &[2, 0, 2, 2, 2],
            second: &[2, 2, 2, 2, 2],
        },
    },
    Case {
        name: "the first set by a flow",
        rule: CertRule::A3,
        owners: &[F1, F1, F0],
        sites: &[(1, F0)],
        rows: &[Const(0), Le(0, 1), Leave(0, 1, 2), Bound(2)],
        without: Sets {
            pairs: &[],
            first: &[2, 0, 0],
            second: &[2, 2, 0],
        },
        whole: Sets {
            pairs: &[],
            first: &[2, 2, 2],
            second: &[2, 2, 2],
        },
    },
    Case {
        name: "the second set by a flow",
        rule: CertRule::A3,
        owners: &[F0, F1, NOBODY],
        sites: &[(1, F0)],
        rows: &[Const(0), Enter(0, 0, 1), Le(1, 2), Bound(2)],
        without: Sets {
            pairs: &[(1, 1)],
            first: &[2, 0, 0],
            second: &[2, 2, 0],
        },
        whole: Sets {
            pairs: &[(1, 1)],
            first: &[2, 0, 2],
            second: &[2, 2, 2],
        },
    },
    Case {
        name: "a return without its call",
        rule: CertRule::A4,
        owners: &[F1, F0],
        sites: &[(1, F0)],
        rows: &[Const(0), Leave(0, 0, 1), Bound(1)],
        without: Sets {
            pairs: &[],
            first: &[2, 0],
            second: &[2, 0],
        },
        whole: Sets {
            pairs: &[],
            first: &[2, 2],
            second: &[2, 2],
        },
    },
    Case {
        name: "the second set by a call",
        rule: CertRule::A5,
        owners: &[F0, F1],
        sites: &[(1, F0)],
        rows: &[Const(0), Enter(0, 0, 1), Bound(1)],
        without: Sets {
            pairs: &[(1, 1)],
            first: &[2, 0],
            second: &[2, 0],
        },
        whole: Sets {
            pairs: &[(1, 1)],
            first: &[2, 0],
            second: &[2, 2],
        },
    },
    Case {
        name: "the inner end as a pair",
        rule: CertRule::A5,
        owners: &[F0, F1, F0],
        sites: &[(1, F0)],
        rows: &[Const(0), Enter(0, 0, 1), Leave(0, 1, 2), Bound(2)],
        without: Sets {
            pairs: &[],
            first: &[2, 0, 0],
            second: &[2, 2, 0],
        },
        whole: Sets {
            pairs: &[(1, 1)],
            first: &[2, 0, 2],
            second: &[2, 2, 2],
        },
    },
    Case {
        name: "a pair by a flow",
        rule: CertRule::A6,
        owners: &[F0, F1, F1, F0],
        sites: &[(1, F0)],
        rows: &[Const(0), Enter(0, 0, 1), Le(1, 2), Leave(0, 2, 3), Bound(3)],
        without: Sets {
            pairs: &[(1, 1)],
            first: &[2, 0, 0, 0],
            second: &[2, 2, 2, 0],
        },
        whole: Sets {
            pairs: &[(1, 1), (1, 2)],
            first: &[2, 0, 0, 2],
            second: &[2, 2, 2, 2],
        },
    },
    Case {
        name: "the first set round a call",
        rule: CertRule::A7,
        owners: &[F0, F1, F0],
        sites: &[(1, F0)],
        rows: &[Const(0), Enter(0, 0, 1), Leave(0, 1, 2), Bound(2)],
        without: Sets {
            pairs: &[(1, 1)],
            first: &[2, 0, 0],
            second: &[2, 2, 0],
        },
        whole: Sets {
            pairs: &[(1, 1)],
            first: &[2, 0, 2],
            second: &[2, 2, 2],
        },
    },
    Case {
        name: "a pair round a call",
        rule: CertRule::A7,
        owners: &[F0, F1, F2, F1, F0],
        sites: &[(1, F0), (2, F1)],
        rows: &[
            Const(0),
            Enter(0, 0, 1),
            Enter(1, 1, 2),
            Leave(1, 2, 3),
            Leave(0, 3, 4),
            Bound(4),
        ],
        without: Sets {
            pairs: &[(1, 1), (2, 2)],
            first: &[2, 0, 0, 0, 0],
            second: &[2, 2, 2, 0, 0],
        },
        whole: Sets {
            pairs: &[(1, 1), (1, 3), (2, 2)],
            first: &[2, 0, 0, 0, 2],
            second: &[2, 2, 2, 2, 2],
        },
    },
    Case {
        name: "the second set by a pair",
        rule: CertRule::A8,
        owners: &[F0, F1, F2, F1],
        sites: &[(1, F0), (2, F1)],
        rows: &[
            Const(0),
            Enter(0, 0, 1),
            Enter(1, 1, 2),
            Leave(1, 2, 3),
            Bound(3),
        ],
        without: Sets {
            pairs: &[(1, 1), (1, 3), (2, 2)],
            first: &[2, 0, 0, 0],
            second: &[2, 2, 2, 0],
        },
        whole: Sets {
            pairs: &[(1, 1), (1, 3), (2, 2)],
            first: &[2, 0, 0, 0],
            second: &[2, 2, 2, 2],
        },
    },
    Case {
        name: "a bound",
        rule: CertRule::A9,
        owners: &[F0],
        sites: &[],
        rows: &[Const(0), Bound(0)],
        without: Sets {
            pairs: &[],
            first: &[2],
            second: &[2],
        },
        whole: Sets {
            pairs: &[],
            first: &[2],
            second: &[2],
        },
    },
];
