//! Where readers stand, what they are asked for and answer, and the readers of one token.
//!
//! Entry: `Answer`, `Inside`, the readers of tokens and groups. Invariant: what a reader answers is what the function
//! of `c_reading` of the same name answers, given memory.
//! It does not know how the parts inside are read. Above: all families of readers.
#![tactic(auto)]

mod asking;
mod cursor;
mod fault;
mod groups;
mod inside;
mod kinds;
mod lists;
mod openings;
mod parts;
mod qualifiers;
mod rows;
mod starts;
mod tokens;

pub use asking::{Answer, Ask, Begun, Declared};
pub use cursor::{Cursor, room_above, room_for};
pub use fault::{ReadError, number_at, refused};
pub use groups::{alignment, attr, attrs, group, label, static_assert};
pub use inside::{
    block_inside, declr_inside, expr_inside, init_list_inside, specs_inside, stmt_inside,
    type_name_inside,
};
pub use kinds::{
    is_asm, is_attribute, is_base_word, is_close_brace, is_close_bracket, is_close_paren, is_colon,
    is_comma, is_default, is_dots, is_else, is_end, is_equal, is_extension, is_label_word,
    is_open_brace, is_open_bracket, is_open_paren, is_semicolon, is_star, is_static,
    is_static_assert, is_text, is_while,
};
pub use lists::{begins_identifiers, identifiers, names};
pub use openings::{
    begins_desig, begins_expr, form_of, infix_of, is_dot, is_opening, opening_of, takes_assign,
    takes_comma,
};
pub use parts::{known_declr, named_declr, specs_here};
pub use qualifiers::{array_words, pointer_words, quals};
pub use rows::{asm_words, extensions, texts};
pub use starts::{
    begins_init, begins_role, begins_specs, is_start, may_stand, start_at, stmt_start,
};
pub use tokens::{
    asm_word, assert_word, attribute_word, behind_first, close_brace, close_bracket, close_paren,
    colon, comma, end, equal, kind_at, name, open_brace, open_bracket, open_paren, semicolon,
    spelled_name, tag, take_one, while_word,
};
