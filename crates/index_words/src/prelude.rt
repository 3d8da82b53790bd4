//! The index words of a prelude.

ghost use Rattle.std.specs.Prelude.{◌≡◌, ◌<◌, ◌∷◌, ◌++◌, [], length, nat_eq, All, OnErr, OnOk};
ghost use Rattle.std.specs.Prelude.{map, option_map, unwrap_or};
ghost use Rattle.index_words.specs.Marks.{numbers_at, tokens_of, AreAscending};
ghost use Rattle.index_words.specs.Held.{mark_of, word_at};

use qual_base::{NoMemory, Numbered, TokenId};
use std::alloc::Global;
use std::marker::Model;

/// An index word, by its token.
#[derive(Drop)]
struct Word {
    token: TokenId,
    numbers: Vec<u16>,
}

/// The index words of a prelude with the numbers of each, in the order of their tokens. Memory is linear in their numbers.
///
/// Clauses see them as a list.
#[derive(Drop)]
pub struct Prelude {
    words: Vec<Word>,
}

impl Model for Prelude {
    ghost use Rattle.std.specs.Prelude.{List, map};
    ghost use Rattle.index_words.specs.Marks.{IndexMark, AreAscending, tokens_of};
    ghost use Rattle.index_words.specs.Held.{mark_of};

    ghost Value = { List IndexMark };

    ghost view = { λ a. map mark_of a.words.items };

    ghost invariant = { λ a. AreAscending (tokens_of (map mark_of a.words.items)) };
}

impl Prelude {
    /// No index words. Takes no memory.
    pub fn new(alloc: Global) -> Self
        ensures { result ≡ [] }
    {
        Prelude {
            words: Vec::new(alloc),
        }
    }

    /// Adds a word, whose token is behind those of all others. Linear in its numbers but for growth. For want of memory
    /// nothing changes.
    #[tactic(auto, using(crate::proofs::Ascending::pushed_is, crate::proofs::Ascending::pushed_ascends))]
    pub fn push(&mut self, token: TokenId, numbers: &[u16]) -> Result<(), NoMemory>
        requires later { All (λ it. it.token < token) self.old }
        ensures ok { OnOk result
            (self.new ≡ self.old ++ record { token = token; numbers = numbers.now } ∷ []) }
        ensures err { OnErr result (self.new ≡ self.old) }
    {
        let numbers = numbers.to_vec(*self.words.allocator())?;
        match self.words.push(Word { token, numbers }) {
            Ok(()) => Ok(()),
            Err(_) => Err(NoMemory),
        }
    }

    /// Whether there is no index word. Constant time.
    pub fn is_empty(&self) -> bool
        ensures { result ≡ nat_eq (length self.now) 0 }
    {
        self.words.len() == 0
    }

    /// The numbers of the word at a token, where there is one. Logarithmic in the number of words.
    #[tactic(auto, using(crate::proofs::Ascending::numbers_of))]
    pub fn set_at(&self, token: TokenId) -> Option<&[u16]>
        ensures word { option_map (λ it. it.now) result ≡ word_at self.now token }
        ensures numbers { unwrap_or (option_map (λ it. it.now) result) []
            ≡ numbers_at self.now token }
    {
        set_among(self.words.as_slice(), token)
    }
}

/// The numbers of the word at a token among words in the order of their tokens.
fn set_among(words: &[Word], token: TokenId) -> Option<&[u16]>
    requires { AreAscending (tokens_of (map mark_of words.now)) }
    ensures { option_map (λ it. it.now) result ≡ word_at (map mark_of words.now) token }
{
    let at = words.partition_point(|word| word.token.number() < token.number());
    match words.get(at) {
        Some(word) => {
            if word.token.number() == token.number() {
                Some(word.numbers.as_slice())
            } else {
                None
            }
        }
        None => None,
    }
}
