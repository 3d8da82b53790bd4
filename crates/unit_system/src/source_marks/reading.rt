//! The marks of a unit from its tokens.

ghost use Rattle.std.specs.Prelude.{◌≡◌, ◌<◌, length, OnOk};
ghost use Rattle.unit_system.specs.SourceMarks.Marks.{mark_in, mark_there, IsMarked};

use c_lexer::Tokens;
use name_tables::place_map::PlaceMap;
use qual_base::{Elem, LatticeNo, NoMemory, Numbered, TokenId};

/// Adds what a token names. Constant time but for growth.
#[tactic(auto, using(crate::proofs::SourceMarks::Marking::with_mark))]
fn add_mark(
    found: &mut PlaceMap<(LatticeNo, Elem)>,
    tokens: &Tokens,
    token: TokenId,
) -> Result<(), NoMemory>
    requires { token < length tokens.now.tokens }
    ensures { OnOk result (IsMarked (mark_there tokens.now token) found.old found.new) }
{
    match tokens.mark_of(token) {
        Some(mark) => found.set(&(tokens.unit(), token), &mark),
        None => Ok(()),
    }
}

/// Adds the lattice and the element that each annotation word of a unit names: a `$` word, or a keyword that a lattice names.
/// Linear in the tokens, but for growth; so is memory.
#[tactic(auto, using(crate::proofs::SourceMarks::Marking::none_before, crate::proofs::SourceMarks::Marking::mark_next, crate::proofs::SourceMarks::Marking::mark_all))]
pub fn add_marks(found: &mut PlaceMap<(LatticeNo, Elem)>, tokens: &Tokens) -> Result<(), NoMemory>
    ensures { OnOk result (IsMarked (mark_in tokens.now) found.old found.new) }
{
    for number in 0..tokens.len() {
        add_mark(found, tokens, TokenId::new(number))?;
    }
    Ok(())
}
