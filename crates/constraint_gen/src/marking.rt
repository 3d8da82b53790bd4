//! What the annotation words of units name.

ghost use Rattle.std.specs.Prelude.{◌≡◌, ◌∷◌, ◌++◌, [], IfOk, OnOk};
ghost use Rattle.name_rules.specs.Spellings.{Place};
ghost use Rattle.name_tables.specs.PlaceMap.Values.{value_at};
ghost use Rattle.unit_system.specs.SourceMarks.Marks.{mark_among};
ghost use Rattle.constraint_gen.specs.Marking.{AreMarks};
ghost use Rattle.constraint_gen.specs.Marking as rules;

use c_lexer::Tokens;
use name_tables::place_map::PlaceMap;
use qual_base::{Elem, LatticeNo, NoMemory, Numbered, UnitNo};
use std::alloc::Global;
use unit_system::source_marks::add_marks;

/// Whether one of some units has this number. Linear in them.
fn has_unit(units: &[Tokens], unit: UnitNo) -> bool
    ensures { result ≡ rules.has_unit units.now unit }
{
    for tokens in units {
        if tokens.unit().number() == unit.number() {
            return true;
        }
    }
    false
}

/// Adds the marks of a unit behind others, unless one of these has its number. Linear in its tokens and in the others.
#[tactic(auto, using(crate::proofs::Words::marks_known, crate::proofs::Words::marks_more))]
fn add_unit(
    found: &mut PlaceMap<(LatticeNo, Elem)>,
    earlier: &[Tokens],
    tokens: &Tokens,
) -> Result<(), NoMemory>
    requires { AreMarks earlier.now found.old }
    ensures { OnOk result (AreMarks (earlier.now ++ tokens.now ∷ []) found.new) }
{
    if has_unit(earlier, tokens.unit()) {
        return Ok(());
    }
    add_marks(found, tokens)
}

/// The lattice and the element that each annotation word of units names, by the unit's number; of several with one number it is
/// the first. Linear in the tokens, but for growth, and in the square of the number of units; memory is linear in the tokens, and in
/// the highest number of a unit.
#[tactic(auto, using(crate::proofs::Words::units_next, crate::proofs::Words::units_whole))]
pub(crate) fn marks(
    alloc: Global,
    units: &[Tokens],
) -> Result<PlaceMap<(LatticeNo, Elem)>, NoMemory>
    ensures { IfOk result (λ it. (p : Place) → value_at it p ≡ mark_among units.now p) }
{
    let mut found = PlaceMap::new(alloc);
    for i in 0..units.len() {
        add_unit(&mut found, &units[..i], &units[i])?;
    }
    Ok(found)
}
