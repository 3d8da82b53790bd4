//! Annotations, zeros and the spellings of names.

ghost use Rattle.std.specs.Prelude.{◌≡◌};
ghost use Rattle.name_rules.specs.Spellings.{place};
ghost use Rattle.name_tables.specs.UnitSpelling.Spelled.{spelling_of};

use crate::name_scopes::Place;
use qual_base::{NameId, Numbered, TokenId, UnitNo};

/// What is read from the tokens of a unit. Memory is linear in its tokens and names.
#[derive(Drop)]
pub struct Spelling {
    pub unit: UnitNo,
    /// Whether the unit is one of wider C.
    pub wide: bool,
    /// Whether the word at a token is an annotation: a `$` word, an index word, or a keyword that a lattice names. Past the end
    /// none is.
    pub annotates: Vec<bool>,
    /// Whether the number at a token is spelled `0`. Past the end none is.
    pub is_naught: Vec<bool>,
    /// The number of each name's spelling, the same in all units. Past the end it is that of the name itself.
    pub keys: Vec<NameId>,
}

impl Spelling {
    /// A token of the unit.
    pub fn place(&self, token: TokenId) -> Place
        ensures { result ≡ place (spelling_of self.now) token }
    {
        (self.unit, token)
    }

    /// Whether the word at a token is an annotation. Constant time.
    pub fn annotates(&self, token: TokenId) -> bool
        ensures { result ≡ (spelling_of self.now).annotates token }
    {
        match self.annotates.get(token.number() as usize) {
            Some(is) => *is,
            None => false,
        }
    }

    /// Whether the number at a token is spelled `0`. Constant time.
    pub fn is_naught(&self, token: TokenId) -> bool
        ensures { result ≡ (spelling_of self.now).is_naught token }
    {
        match self.is_naught.get(token.number() as usize) {
            Some(is) => *is,
            None => false,
        }
    }

    /// The number of a name's spelling. Constant time.
    pub fn key(&self, name: NameId) -> NameId
        ensures { result ≡ (spelling_of self.now).key name }
    {
        match self.keys.get(name.number() as usize) {
            Some(key) => *key,
            None => name,
        }
    }
}
