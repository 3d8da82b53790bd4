//! Which constraints one form of a program gives by itself, what its value is and where skeletons begin, without trees;
//! and the same as steps over a tape (Foster et al. 2006; Rehof and Fähndrich 2001).
//!
//! Entry: `specs/Rows.antt`, `specs/RowSteps/Steps.antt`. Invariant: a row is one form alone.
//! It does not know trees. Above: `constraint_rules`, and the passes that make constraints.
#![tactic(auto)]
