//! Skeletons by numbers.

ghost use Rattle.std.specs.Prelude.{◌≡◌, ◌+◌, ◌<◌, ◌≤◌, ◌++◌, ◌∷◌, ℕ, List, [], length, map};
ghost use Rattle.std.specs.Prelude.{OnOk, IfOk, IsErrOf};
ghost use Rattle.flow_graph.specs.System.{most_variables};
ghost use Rattle.type_table.specs.Types.{size};
ghost use Rattle.type_table.specs.Rows.{type_of};
ghost use Rattle.qual_types.specs.Skel.{within};
ghost use Rattle.qual_types.specs.Rows.{skel_of};
ghost use Rattle.name_rules.specs.Spellings.{Place};
ghost use Rattle.name_tables.specs.PlaceMap.Values.{number_at};
ghost use Rattle.row_rules.specs.Starting as rules;
ghost use Rattle.row_rules.specs.Worlds.{Numbered, numbered_from, skeleton_among};
ghost use Rattle.unit_starts.specs.PositionLaws.Positions.{AreThose};
ghost use Rattle.row_rules.specs.Sites.{variables_among};
ghost use Rattle.unit_starts.specs.Views.{start_in};
ghost use Rattle.unit_starts.specs.UnitSkeletons.Found.{AreBelow, AreMarked, found_with, number_or_none};

use crate::Start;
use crate::unit_skeletons::place_numbers::PlaceNumbers;
use name_tables::place_map::PlaceIndex;
use qual_base::{NoMemory, Numbered};
use qual_types::{QualFault, VarTable};
use std::alloc::Global;
use type_table::TypeTable;

/// Skeletons with their variables, and the number of the first that begins at each place. Memory is linear in the variables and in
/// the tokens.
#[derive(Drop)]
pub struct Skeletons {
    pub(crate) vars: VarTable,
    pub(crate) starts: PlaceIndex,
}

impl Skeletons {
    /// No skeletons. Takes no memory.
    fn new(alloc: Global) -> Self
        ensures vars { result.vars ≡ [] }
        ensures below { AreBelow result.vars result.starts }
        ensures marked { AreMarked result.vars [] }
        ensures found { (rest : List rules.Start) (p : Place) →
            found_with result.vars result.starts (numbered_from 0 rest) p
            ≡ skeleton_among (numbered_from 0 rest) p }
    {
        Skeletons {
            vars: VarTable::new(alloc),
            starts: PlaceIndex::new(alloc),
        }
    }

    /// One more. Linear in its type's size. A call that wants memory in vain leaves them as they may be, and of no more use.
    fn add(
        &mut self,
        types: &TypeTable,
        functions: &PlaceNumbers,
        start: &Start,
    ) -> Result<(), QualFault>
        requires { AreBelow self.old.vars self.old.starts }
        ensures below { OnOk result (AreBelow self.new.vars self.new.starts) }
        ensures count { OnOk result (length self.new.vars
            ≡ length self.old.vars + size (start_in types.now start.now).type) }
        ensures found { OnOk result ((rest : List rules.Start) (p : Place) →
            found_with self.new.vars self.new.starts
            (numbered_from (length self.new.vars) rest) p
            ≡ found_with self.old.vars self.old.starts
            (numbered_from (length self.old.vars) (start_in types.now start.now ∷ rest)) p) }
        ensures marked { OnOk result ((before : List Numbered) →
            AreMarked self.old.vars before → AreMarked self.new.vars
            (before ++ numbered_from (length self.old.vars) (start_in types.now start.now ∷ []))) }
        ensures too_many { IsErrOf result QualFault.TooMany
            → most_variables < length self.old.vars + size (start_in types.now start.now).type }
    {
        let owner = functions.owner(&start.owner);
        let (unit, token) = start.at;
        let at = self
            .vars
            .fresh(types, start.ty, start.outer, unit, token, owner)?;
        match self.starts.add(&start.at, at.number()) {
            Ok(()) => Ok(()),
            Err(NoMemory) => Err(QualFault::NoMemory),
        }
    }

    /// The variables.
    pub fn vars(&self) -> &VarTable
        ensures { result.now ≡ self.now.vars }
    {
        &self.vars
    }

    /// The number of the first skeleton that begins at each place.
    pub fn starts(&self) -> &PlaceIndex
        ensures { result.now ≡ self.now.starts }
    {
        &self.starts
    }
}

/// Numbers skeletons in the order in which they begin. Linear in their variables, but for growth. More than 16,777,216 variables
/// are too many.
pub fn number_skeletons(
    alloc: Global,
    types: &TypeTable,
    functions: &PlaceNumbers,
    starts: &[Start],
) -> Result<Skeletons, QualFault>
    ensures count { IfOk result (λ it. length it.vars
        ≡ variables_among (map (start_in types.now) starts.now)) }
    ensures found { IfOk result (λ it. (p : Place) →
        skel_of it.vars (number_or_none (number_at it.starts p))
        ≡ skeleton_among (numbered_from 0 (map (start_in types.now) starts.now)) p) }
    ensures marked { IfOk result (λ it.
        AreThose it.vars (map (start_in types.now) starts.now)) }
    ensures few { OnOk result
        (variables_among (map (start_in types.now) starts.now) ≤ most_variables) }
    ensures too_many { IsErrOf result QualFault.TooMany
        → most_variables < variables_among (map (start_in types.now) starts.now) }
{
    let mut it = Skeletons::new(alloc);
    for start in starts {
        it.add(types, functions, start)?;
    }
    it.vars.law();
    Ok(it)
}
