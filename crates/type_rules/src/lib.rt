//! What names mean, which types they are declared with, and which types expressions have, as definitions on trees (C99,
//! 6.2.1 to 6.2.3, 6.5, 6.7).
//!
//! Entry: `specs/Program.antt` (`names_of`, `faults_of`), `specs/Shapes.antt`. Invariant: a program has one list of
//! names and one list of faults.
//! It does not know how they are found. Above: `constraint_rules`, and the laws on trees.
#![tactic(auto)]
