//! Laws of constraint systems and their unfolding: functions without a body, each with a law as its contract.
//!
//! Entry: the functions of `accepting`, `holding`, `solving`, `forms`.
//! It does not know any algorithm. Above: the analysis.
#![tactic(auto)]

mod accepting;
mod forms;
mod holding;
mod laws;
mod paths;

pub use accepting::{
    copies_stand, exceeded_is_over, kept_is_accepted, over_is_exceeded, solution_is_printed,
    tests_decide, tests_solve,
};
pub use forms::{holds_exactly, holds_in_some, shown_holds, subs_are_sub_paths};
pub use holding::{
    holds_is_unmet, holds_leads, holds_refutes, holds_refutes_within, holds_rejects,
};
pub use laws::{
    accepted_keeps_paths, exceeded_is_refuted, joins_are_solution, leads_force, list_is_solution,
    lower_is_met, more_is_harder, names_in_each, no_constant_is_accepted, one_copy_serves,
    paths_refute, safe_keeps_bounds, solution_stands,
};
pub use paths::{
    calling_goes_on, leads_inside, matches_join, reached_is_tested, reaches_leads,
    returning_goes_on,
};
