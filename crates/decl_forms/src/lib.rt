//! Readers of initialisers and declarations (C99, 6.7 and 6.7.8), over readers of the parts inside.
//!
//! Entry: `declaration`, and `init_forms::init_list`. Invariant: what is answered is what `c_reading` says of the same
//! tokens.
//! It does not know where declarations stand. Above: `stmt_forms`, `c_parser`.
#![tactic(auto)]

mod autos;
mod declarations;
mod declarators;
pub mod init_forms;
mod kinds;

pub use declarations::{declaration, declaration_behind, declaration_from, declaration_on};
pub use declarators::{declr_behind, some_init_here};
pub use kinds::{has_auto, has_typedef};
