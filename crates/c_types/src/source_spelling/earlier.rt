//! The names of earlier units, by how they are spelled.

ghost use Rattle.std.specs.Prelude.{◌≡◌, ◌+◌, ◌<◌, ◌++◌, ◌∷◌, [], ℕ, nat_eq, List, length, IfOk, OnOk};
ghost use Rattle.std.specs.Prelude.{Some, None, bytes_eq, if◌then◌else◌};
ghost use Rattle.c_lexer.specs.Tokens.{Lexed};
ghost use Rattle.c_types.specs.SourceSpelling.Tokens.{name_of_kind, name_among, spelled, or_behind, key_or, key_behind};
ghost use Rattle.c_types.specs.SourceSpelling.Keys.{key_at, past, name_at, text_at, own_or, key_by, AreNamesOf};

use c_lexer::Tokens;
use c_words::TokenKind;
use qual_base::{NameId, NoMemory, Numbered, TokenId};
use std::alloc::Global;
use std::collections::HashMap;

/// The name that a token is, where it is one.
fn name_of(kind: TokenKind) -> Option<NameId>
    ensures { result ≡ name_of_kind kind }
{
    match kind {
        TokenKind::Name(name) => Some(name),
        TokenKind::Keyword(_)
        | TokenKind::Number
        | TokenKind::Char
        | TokenKind::Text
        | TokenKind::Punct(_)
        | TokenKind::Qual(_, _)
        | TokenKind::Index
        | TokenKind::End => None,
    }
}

/// Makes keys of all names up to this one; those that are new are the names' own numbers.
fn fill(keys: &mut Vec<NameId>, name: NameId) -> Result<(), NoMemory>
    ensures long { OnOk result (name < length keys.new.items) }
    ensures same { OnOk result
        ((n : ℕ) → own_or keys.new.items n ≡ own_or keys.old.items n) }
{
    for number in keys.len()..name.number() as usize + 1 {
        keys.push(NameId::new(number as u32))?;
    }
    Ok(())
}

/// Has a name have a key.
fn set(keys: &mut Vec<NameId>, name: NameId, key: NameId) -> Result<(), NoMemory>
    ensures { OnOk result ((n : ℕ) → own_or keys.new.items n
        ≡ (if nat_eq name n then key else own_or keys.old.items n)) }
{
    fill(keys, name)?;
    keys[name.number() as usize] = key;
    Ok(())
}

/// The names of units, each with the number of its spelling. Memory is linear in their bytes.
#[derive(Drop)]
pub struct EarlierNames {
    alloc: Global,
    keys: HashMap<Vec<u8>, NameId>,
    /// How many tokens the units have.
    count: u32,
}

impl EarlierNames {
    /// Of no units. Takes no memory.
    pub fn new(alloc: Global) -> Self
        ensures { AreNamesOf [] result }
    {
        EarlierNames {
            alloc,
            keys: HashMap::new(alloc),
            count: 0,
        }
    }

    /// The number of a spelling. Linear in its bytes.
    fn find(&self, text: &[u8]) -> Option<NameId>
        ensures { result ≡ key_at self.now text.now }
    {
        self.keys.get(text).copied()
    }

    /// Adds a name that is spelled so, where there is none yet. Linear in its bytes, but for growth.
    fn add(&mut self, text: &[u8], name: NameId) -> Result<(), NoMemory>
        ensures keys { OnOk result ((t : List ℕ) → key_at self.new t
            ≡ or_behind (key_at self.old t)
            (if bytes_eq text.now t then Some (self.old.count + name) else None)) }
        ensures count { OnOk result (self.new.count ≡ self.old.count) }
    {
        if self.keys.contains_key(text) {
            return Ok(());
        }
        let Some(number) = self.count.checked_add(name.number()) else {
            return Err(NoMemory);
        };
        let key = Vec::from_slice(self.alloc, text)?;
        self.keys.insert(key, NameId::new(number))?;
        Ok(())
    }

    /// Adds the name that a token is, where it is one and there is none yet that is spelled so.
    fn add_token(&mut self, tokens: &Tokens, at: TokenId) -> Result<(), NoMemory>
        requires { at < length tokens.now.tokens }
        ensures keys { OnOk result ((t : List ℕ) → key_at self.new t
            ≡ or_behind (key_at self.old t) (past self.old.count (name_at tokens.now at t))) }
        ensures count { OnOk result (self.new.count ≡ self.old.count) }
    {
        match name_of(tokens.kind(at)) {
            Some(name) => self.add(tokens.bytes(at), name),
            None => Ok(()),
        }
    }

    /// Adds the names of a unit, where there are none yet that are spelled so.
    fn add_tokens(&mut self, tokens: &Tokens) -> Result<(), NoMemory>
        ensures keys { OnOk result ((t : List ℕ) → key_at self.new t
            ≡ or_behind (key_at self.old t)
            (past self.old.count (name_among tokens.now tokens.now.tokens t))) }
        ensures count { OnOk result (self.new.count ≡ self.old.count) }
    {
        for number in 0..tokens.len() {
            self.add_token(tokens, TokenId::new(number))?;
        }
        Ok(())
    }

    /// The names of one unit more. Units of 2^32 and more tokens together are more than there is
    /// memory for. Linear in the tokens and their bytes, but for growth.
    pub fn push(&mut self, tokens: &Tokens) -> Result<(), NoMemory>
        ensures { OnOk result ((earlier : List Lexed) → AreNamesOf earlier self.old
            → AreNamesOf (earlier ++ tokens.now ∷ []) self.new) }
    {
        self.add_tokens(tokens)?;
        let Some(count) = self.count.checked_add(tokens.len()) else {
            return Err(NoMemory);
        };
        self.count = count;
        Ok(())
    }

    /// The number of the spelling of a name of a unit behind these. Linear in its bytes.
    fn key(&self, text: &[u8], name: NameId) -> Result<NameId, NoMemory>
        ensures { IfOk result (λ key. key
            ≡ key_or (self.now.count + name) (key_at self.now text.now)) }
    {
        match self.find(text) {
            Some(key) => Ok(key),
            None => match self.count.checked_add(name.number()) {
                Some(number) => Ok(NameId::new(number)),
                None => Err(NoMemory),
            },
        }
    }

    /// Has the name that a token is have the number of its spelling, where the token is one.
    fn set_key(&self, keys: &mut Vec<NameId>, tokens: &Tokens, at: TokenId) -> Result<(), NoMemory>
        requires { at < length tokens.now.tokens }
        ensures { OnOk result ((name : ℕ) → own_or keys.new.items name
            ≡ key_by self.now (own_or keys.old.items name) name (text_at tokens.now at name)) }
    {
        match name_of(tokens.kind(at)) {
            Some(name) => {
                let key = self.key(tokens.bytes(at), name)?;
                set(keys, name, key)
            }
            None => Ok(()),
        }
    }

    /// The numbers of the spellings of the names of a unit behind these; past the end each name has
    /// its own. Linear in the tokens and their bytes.
    fn all_keys(&self, alloc: Global, tokens: &Tokens) -> Result<Vec<NameId>, NoMemory>
        ensures { IfOk result (λ keys. (name : ℕ) → own_or keys.items name
            ≡ key_by self.now name name (spelled tokens.now name)) }
    {
        let mut keys = Vec::new(alloc);
        // of several tokens of one name the first counts, so it comes last
        for number in (0..tokens.len()).rev() {
            self.set_key(&mut keys, tokens, TokenId::new(number))?;
        }
        Ok(keys)
    }

    /// The numbers of the spellings of the names of a unit behind these; past the end each name has
    /// its own, as all have behind no unit. Linear in the tokens and their bytes.
    pub(crate) fn keys(&self, alloc: Global, tokens: &Tokens) -> Result<Vec<NameId>, NoMemory>
        ensures { IfOk result (λ keys. (earlier : List Lexed) → AreNamesOf earlier self.now
            → (name : ℕ) → own_or keys.items name ≡ key_behind earlier tokens.now name) }
    {
        if self.count == 0 {
            return Ok(Vec::new(alloc));
        }
        self.all_keys(alloc, tokens)
    }
}
