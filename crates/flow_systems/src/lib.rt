//! Systems of constraints with their answers, a plain decider of the unfolding at a depth, and the tests that the
//! closure, the solver, the decider and the maker of path proofs give these answers.
//!
//! Each system is written once, and is worked out by hand or was drawn at random and solved by other programs.
//!
//! Entry: `worked` and its kin; `flow_unfolding::is_met`. Invariant: each system is written once.
//! It does not know where systems come from. Nothing stands above.
#![tactic(auto)]

#[cfg(test)]
mod building;
#[cfg(test)]
mod case;
#[cfg(test)]
mod comparing;
#[cfg(test)]
mod drawn_lattices;
pub mod flow_unfolding;
#[cfg(test)]
mod nested;
#[cfg(test)]
mod no_recursion;
#[cfg(test)]
mod one_function;
#[cfg(test)]
mod paths;
#[cfg(test)]
mod several_lattices;
#[cfg(test)]
mod tests;
#[cfg(test)]
mod three_functions;
#[cfg(test)]
mod two_functions;
#[cfg(test)]
mod worked;
