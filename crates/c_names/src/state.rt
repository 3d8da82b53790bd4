//! What is known at a place of a tape.

use crate::identifiers::Identifiers;
use crate::stack::Stack;
use c_words::Keyword;
use name_state::name_types::SoFar;
use name_state::name_uses::Named;
use name_state::unit_names::Names;
use name_tables::name_scopes::Place;
use qual_base::{StructId, TypeId};
use std::alloc::Global;

/// Specifiers: their type without annotation words, these words, the storage words and `inline`, and whether a struct or union
/// without a tag is one of them, so far.
#[derive(Drop)]
pub(crate) struct Specifiers {
    pub(crate) so_far: SoFar,
    pub(crate) words: Vec<Place>,
    pub(crate) storage: Vec<Keyword>,
    pub(crate) is_untagged: bool,
}

/// A body of a tag: the specifiers that it is a word of, and the struct whose members stand in it.
#[derive(Drop)]
pub(crate) struct OpenBody {
    pub(crate) outer: Specifiers,
    pub(crate) members_of: StructId,
}

/// A declaration whose specifiers are whole, and until a name was declared whether a struct or union without a tag is one of them;
/// and of the declarator that is being read the name and the type so far.
#[derive(Drop)]
pub(crate) struct OpenDeclaration {
    pub(crate) ty: TypeId,
    pub(crate) storage: Vec<Keyword>,
    pub(crate) is_untagged: bool,
    pub(crate) name: Option<Named>,
    pub(crate) declared: TypeId,
}

/// A list of parameters: the function whose own they are, and their types so far; where it is a list of identifiers, these.
#[derive(Drop)]
pub(crate) struct OpenParameters {
    pub(crate) own: Option<Place>,
    pub(crate) types: Vec<TypeId>,
    pub(crate) identifiers: Identifiers,
}

/// A type by what stands in parentheses, or one by an initialiser, that is begun: the specifiers outside, and how many ops of the tape
/// are before it.
#[derive(Drop)]
pub(crate) struct OpenPart {
    pub(crate) outer: Specifiers,
    pub(crate) from: usize,
}

/// What is known at a place of a tape: names, and what is begun and not yet at its end.
///
/// Memory is linear in the ops that were gone through. A call that wants memory in vain leaves it as it may be, and of no more use.
#[derive(Drop)]
pub(crate) struct State {
    pub(crate) alloc: Global,
    pub(crate) names: Names,
    pub(crate) specifiers: Specifiers,
    pub(crate) bodies: Stack<OpenBody>,
    pub(crate) declarations: Stack<OpenDeclaration>,
    pub(crate) parameters: Stack<OpenParameters>,
    pub(crate) finished: Stack<Vec<TypeId>>,
    pub(crate) parts: Stack<OpenPart>,
}
