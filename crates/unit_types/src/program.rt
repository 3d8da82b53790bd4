//! Units whose names and types have no fault.

ghost use Rattle.std.specs.Prelude.{◌≡◌};
ghost use Rattle.unit_shapes.specs.Views.{AreImplicit};

use name_state::found_names::FoundNames;
use name_state::name_types::Types;
use name_state::unit_names::Names;
use name_tables::unit_spelling::Spelling;
use std::marker::Model;
use tape_ops::Op;
use type_table::TypeTable;
use unit_shapes::ImplicitTypes;

/// A unit: what is read from its tokens, and its tape.
#[derive(Drop)]
pub struct UnitTape {
    pub spelling: Spelling,
    pub ops: Vec<Op>,
}

/// Units with their names and types. Memory is linear in their tapes and in their tokens.
#[derive(Drop)]
pub struct Program {
    pub(crate) types: Types,
    pub(crate) implicit: ImplicitTypes,
    pub(crate) found: FoundNames,
    pub(crate) units: Vec<UnitTape>,
}

impl Model for Program {
    ghost use Rattle.unit_shapes.specs.Views.{AreImplicit};
    ghost use Rattle.unit_types.specs.Resolved.{Resolved};

    ghost Value = { Resolved };

    ghost view = { λ s. record {
      rows = s.types;
      implicit = s.implicit;
      names = s.found;
      units = s.units.items;
    } };

    ghost invariant = { λ s. AreImplicit s.types s.implicit };
}

impl Program {
    /// The types, by their numbers. Constant time.
    pub fn types(&self) -> &TypeTable
        ensures { result.now ≡ self.now.rows }
    {
        self.types.table()
    }

    /// The numbers of the types that no declaration writes. Constant time.
    pub fn implicit(&self) -> &ImplicitTypes
        ensures is { result.now ≡ self.now.implicit }
        ensures implicit { AreImplicit self.now.rows result.now }
    {
        &self.implicit
    }

    /// The names, in the order of the text. Constant time.
    pub fn names(&self) -> &Names
        ensures { result.now ≡ self.now.names }
    {
        self.found.names()
    }

    /// The names, each found at once by its place. Constant time.
    pub fn found_names(&self) -> &FoundNames
        ensures { result.now ≡ self.now.names }
    {
        &self.found
    }

    /// The units in their order. Constant time.
    pub fn units(&self) -> &[UnitTape]
        ensures { result.now ≡ self.now.units }
    {
        self.units.as_slice()
    }
}
