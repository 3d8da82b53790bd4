//! The numbers of index words.

ghost use Rattle.std.specs.Prelude.{◌≡◌};
ghost use Rattle.row_rules.specs.Worlds.{World};
ghost use Rattle.row_world.specs.Shown.{Shows};

use crate::known::Known;
use name_tables::name_scopes::Place;
use qual_base::Numbered;

impl<'a> Known<'a> {
    /// The numbers of the index word at a place; none where there is no such word. Constant time outside the prelude, and
    /// logarithmic in the number of its index words there.
    pub fn numbers_at(&self, at: &Place) -> &[u16]
        ensures { (w : World) → Shows self.now w → result.now ≡ w.index at.now }
    {
        if at.0.number() != 0 {
            return &[];
        }
        match self.prelude.set_at(at.1) {
            Some(numbers) => numbers,
            None => &[],
        }
    }
}
