//! What does not change while constraints are made.

ghost use Rattle.std.specs.Prelude.{◌≡◌, MatchOption};
ghost use Rattle.name_rules.specs.Spellings.{place};
ghost use Rattle.row_rules.specs.Worlds.{World, at, skeleton, site_number, all_lattices, span};
ghost use Rattle.row_rules.specs.Vals.{own};
ghost use Rattle.row_world.specs.Shown.{Shows, skel};
ghost use Rattle.row_rules.specs.Annotations.{access_lattices, has_access};

use index_words::Prelude;
use lattice_core::Lattices;
use name_state::found_names::FoundNames;
use name_tables::name_scopes::Place;
use name_tables::place_flags::PlaceFlags;
use name_tables::place_map::{PlaceIndex, PlaceMap};
use name_tables::unit_spelling::Spelling;
use qual_base::{Elem, LatticeNo, Numbered, SiteId, SkelId, Span, TokenId};
use qual_types::VarTable;
use type_table::TypeTable;

/// What does not change while the constraints of a unit are made.
///
/// Clauses say what it knows by `Shows`, of each world that it shows.
#[derive(Clone, Copy)]
pub struct Known<'a> {
    pub types: &'a TypeTable,
    pub names: &'a FoundNames,
    pub spelling: &'a Spelling,
    pub vars: &'a VarTable,
    /// The number of the skeleton that begins at a place.
    pub starts: &'a PlaceIndex,
    /// The call site at a place.
    pub sites: &'a PlaceMap<SiteId>,
    /// Which associations of the selection at a place are candidates.
    pub candidates: &'a PlaceFlags,
    pub lattices: &'a Lattices,
    /// The lattices with an element that bounds accesses, a bit for each.
    pub access: u16,
    /// The lattice and the element that the annotation word at a place names.
    pub marks: &'a PlaceMap<(LatticeNo, Elem)>,
    /// The index words of unit 0, where that is a prelude.
    pub prelude: &'a Prelude,
}

impl<'a> Known<'a> {
    /// A token of the unit. Constant time.
    pub fn place(&self, token: TokenId) -> Place
        ensures { (w : World) → Shows self.now w → result ≡ at w token }
    {
        self.spelling.place(token)
    }

    /// The tokens from one to another. Constant time.
    pub fn span(&self, first: TokenId, last: TokenId) -> Span
        ensures { (w : World) → Shows self.now w → result ≡ span w first last }
    {
        Span {
            unit: self.spelling.unit,
            from: first,
            to: last,
        }
    }

    /// The skeleton that begins at a place; past every table where none does. Constant time.
    pub fn skeleton(&self, at: &Place) -> SkelId
        ensures { (w : World) → Shows self.now w → skel self.now result ≡ skeleton w at.now }
    {
        match self.starts.get(at) {
            Some(number) => SkelId::new(number),
            None => SkelId::new(u32::MAX),
        }
    }

    /// The fresh skeleton at a token. Constant time.
    pub fn own(&self, token: TokenId) -> SkelId
        ensures { (w : World) → Shows self.now w → skel self.now result ≡ own w token }
    {
        self.skeleton(&self.place(token))
    }

    /// The call site at a place, where there is one. Constant time.
    pub fn site(&self, at: &Place) -> Option<SiteId>
        ensures { (w : World) → Shows self.now w →
            MatchOption result (Unit {0}) (λ site. site ≡ site_number w at.now) }
    {
        self.sites.get(at)
    }

    /// Whether an association of the selection at a token is a candidate, by its number. Constant time.
    pub fn is_candidate(&self, token: TokenId, number: usize) -> bool
        ensures { (w : World) → Shows self.now w → result ≡ w.candidate (at w token) number }
    {
        self.candidates.get(&self.place(token), number)
    }

    /// The lattices with an element that bounds accesses, a bit for each. Constant time.
    pub fn access_lattices(&self) -> u16
        ensures { (w : World) → Shows self.now w → result ≡ access_lattices w.lattices }
    {
        self.access
    }

    /// Whether some lattice has an element that bounds accesses. Constant time.
    pub fn has_access(&self) -> bool
        ensures { (w : World) → Shows self.now w → result ≡ has_access w.lattices }
    {
        self.access != 0
    }

    /// All lattices, a bit for each. Constant time.
    pub fn all_lattices(&self) -> u16
        ensures { (w : World) → Shows self.now w → result ≡ all_lattices w }
    {
        all_of(self.lattices)
    }
}

/// A bit for each lattice.
fn all_of(lattices: &Lattices) -> u16
    ensures { (w : World) → w.lattices ≡ lattices.now → result ≡ all_lattices w }
{
    ((1u32 << lattices.len()) - 1) as u16
}
