//! What a reader of C answers or refuses when other tokens stand behind those that it took.
//!
//! The entries are `specs/Steps.antt`, what is to be shown of a reader (`Good`, `Ready`), and `specs/InnerLaws.antt`, what the
//! reader of each nonterminal owes. The idea: what was read before a refusal is completed by a list of tokens, and it is the
//! reader itself that reads it, so no tree is built and scopes, mixes and heights come with the reader. It knows no form of C;
//! `token_places`, `expr_places`, `decl_places` and `stmt_places` stand over it, a family each, and `unit_places` ties them.
#![tactic(auto)]

mod laws;

pub use laws::fresh_is_free;
