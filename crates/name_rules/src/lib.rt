//! What names mean, which types they are declared with, and what the parts of expressions give them, without trees; and
//! the same as steps over a tape (C99, 6.2.1 to 6.2.3, 6.5, 6.7).
//!
//! Entry: `NameSteps/Steps.antt`, `ShapeSteps/Steps.antt`, the law `meaning_laws::meanings_are_first`. Invariant: names
//! grow at their ends alone, so that what was found stays.
//! It does not know trees. Above: the passes over tapes, `type_rules`.
#![tactic(auto)]

pub mod meaning_laws;
