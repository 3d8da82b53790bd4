//! Where a unit is refused for its height: only behind many tokens.
//! Its entry is `too_deep_is_late`.
//! The idea: a reader goes one level inside at the cost of a token, but for a few; so the room that is left is many tokens away.
//! It knows neither whether the token would be taken with more room nor what stands behind it; `wide_laws` and `depth_laws` do.
#![tactic(auto)]

mod laws;

pub use laws::too_deep_is_late;
