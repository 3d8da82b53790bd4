//! The law that no scope declares a name first as an enumerator or a type's name, and then as an object, function or parameter.
//!
//! A declaration of a name that its scope declares already is a further one of the same thing, by the rules of names on trees. They
//! do not ask of which role the first one was. The scopes of names in the grammar do: one that declares a name as an enumerator or a
//! type's name declares it as nothing else (C99, 6.7 paragraph 3). So where units are well formed, scopes of names included, the first
//! declaration of each object, function, parameter and member is one of those too.
#![tactic(auto)]

mod laws;

pub use laws::firsts_have_skeletons;
