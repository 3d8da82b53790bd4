//! What the reader of units does with more room where it refuses a token for the height: it goes on behind that token.
//! Its entry is `with_more_room_it_passes`.
//! The idea: behind each question for room stands a reader that takes the token that was asked at, or that asks there again; and
//! what is read or refused then is among the tokens that are left, so that no refusal goes back.
//! It knows nothing of how many levels tokens can have (`deep_places`); `depth_laws` brings the two together.
#![tactic(auto)]

mod laws;

pub use laws::with_more_room_it_passes;
