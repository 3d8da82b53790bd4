//! Which refusals for the height are allowed: all that the reader of units makes.
//! Its entry is `only_the_height`.
//! The idea: with so much room that nothing is too deep, the reader goes on behind the token; so a unit of some height begins with it.
//! It knows nothing of single readers (`wide_laws`, `deep_places`, `unit_places` do); `c_parser` stands above.
#![tactic(auto)]

mod laws;

pub use laws::only_the_height;
