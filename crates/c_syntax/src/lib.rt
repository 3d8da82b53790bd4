//! The syntax tree of a preprocessed C source: C99 with the GNU forms that system headers use.
//!
//! A node has its parts as fields, in the order of its line of the grammar, which stands in its doc comment. In these
//! lines `x*` is any number, `x+` at least one and `[x]` at most one. A token of a node is its number in the unit; the
//! commas between the items of a list have none. Where a line leaves a choice of words or signs, the one that stands
//! there is beside its token; where it has a name, the name's number is.
//!
//! Any value of these types is a tree. Which of them are well formed is said apart from the types. A part that is a
//! tree is in a box or in a list, never in the node itself: to let a value go is proved for all types at once, at a
//! cost that grows with what each holds.
//!
//! Entry: `Unit`, `Expr`, `Declr`, `Stmt`.
//! It does not know what holds of trees. Above: `c_tree`.
#![tactic(auto)]

mod declaration;
mod declarator;
mod expression;
mod initialiser;
mod parts;
mod specifier;
mod statement;

pub use declaration::{Decl, Declaration, InitDeclr, Item, Unit};
pub use declarator::{ArraySize, Declr, Param, TypeName};
pub use expression::{Assoc, Expr};
pub use initialiser::{Desig, Init, InitItem, InitList};
pub use parts::{
    ArrayWord, AsmLabel, Assert, Attr, Braced, BracedList, Ellipsis, Group, Identifier, Listed,
    Marked, PointerWord, Qual, Semi, Word,
};
pub use specifier::{
    Enum, Enumerator, MemDeclr, Member, SpecWord, Specs, Struct, StructItem, TypedefName,
};
pub use statement::{Block, BlockItem, ForStart, Stmt};
