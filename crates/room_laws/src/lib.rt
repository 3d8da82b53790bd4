//! What the readers of units do with more room: which refusals are for the height alone.
//! Its entries are `more_room_is_more`, `any_height_is_read` and `any_unit_is_well_formed`.
//! The idea: no reader chooses by its room, so two readers of different rooms go on alike until the smaller room is too small.
//! It knows nothing of where a token is refused (`reading_steps` and above); `unit_places` brings the two together.
#![tactic(auto)]

mod laws;

pub use laws::{any_height_is_read, any_unit_is_well_formed, more_room_is_more};
