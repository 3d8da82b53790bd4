//! What each use and each declaration of a name makes of what is known of names (C99, 6.2.1 to 6.2.3, 6.7).

mod declare;
mod first;
mod listed;
mod tag;
mod uses;

pub use declare::{
    declare_enumerator, declare_member, declare_name, declare_parameter, declare_unnamed,
    enter_body, untagged_number,
};
pub use first::Named;
pub use listed::has_word;
pub use tag::{Begun, begin_tag, begin_untagged, use_tag};
pub use uses::{name_type, type_by, use_name};
