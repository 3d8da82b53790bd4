//! Which constraints a program gives, as definitions on trees: the skeletons of its names and expressions, its call
//! sites, and the constraints of each form (Foster et al. 2006; Rehof and Fähndrich 2001; C99, 6.5, 6.7.8, 6.8.6.4).
//!
//! Entry: `specs/Systems.antt` (`system_of`), `specs/Demands.antt`. Invariant: a program has one system.
//! It does not know how it is made. Above: the laws of constraints, `cqual_tool`.
#![tactic(auto)]
