//! Well-formed units of preprocessed C, as definitions: scopes of names on trees of the whole grammar, and where a list
//! of tokens goes wrong (C99, 6.2.1, 6.5, 6.7 to 6.9).
//!
//! Entry: `specs/Units.antt` (`IsWellFormed`), `specs/Scoping.antt`. Invariant: each scope gives a name one kind.
//! It does not know how units are read. Above: `c_reading`, `refusal_rules`.
#![tactic(auto)]
