//! Names at tokens of the unit.

ghost use Rattle.std.specs.Prelude.{◌≡◌, ℕ, option_map};
ghost use Rattle.type_table.specs.Types.{CType};
ghost use Rattle.name_rules.specs.Scopes.{declared_at};
ghost use Rattle.name_rules.specs.Linking.{link_of};
ghost use Rattle.name_rules.specs.Uses as uses;
ghost use Rattle.name_state.specs.UnitNames.Shown.{use_of, role_of, declared_of};
ghost use Rattle.row_rules.specs.Starting as starting;
ghost use Rattle.row_rules.specs.Worlds.{World, at};
ghost use Rattle.row_rules.specs.Vals as vals;
ghost use Rattle.row_world.specs.Shown.{Shows, type, val};

use crate::known::Known;
use crate::operand::Operand;
use crate::skels::nowhere;
use name_tables::name_records::{Declared, Role, Use};
use name_tables::name_scopes::Place;
use qual_base::{TokenId, TypeId};

/// Whether a function is declared.
fn is_some_function(declared: &Option<Declared>) -> bool
    ensures { (t : ℕ → CType) →
        result ≡ starting.is_some_function (option_map (declared_of t) declared.now) }
{
    let Some(declared) = declared else {
        return false;
    };
    match declared.role {
        Role::Function => true,
        Role::Typedef => false,
        Role::Object => false,
        Role::Parameter(_) => false,
        Role::Field(_, _) => false,
        Role::Enumerator => false,
    }
}

impl<'a> Known<'a> {
    /// What the name at a token stands for. Constant time.
    pub fn use_at(&self, token: TokenId) -> Use
        ensures { (w : World) → Shows self.now w →
            use_of result ≡ uses.use_at w.names.uses (at w token) }
    {
        self.names.use_at(&self.place(token))
    }

    /// The type whose name begins at a token. Constant time.
    pub fn type_named(&self, token: TokenId) -> Option<TypeId>
        ensures { (w : World) → Shows self.now w → option_map (type self.now) result
            ≡ uses.type_named_at w.names.type_names (at w token) }
    {
        self.names.type_at(&self.place(token))
    }

    /// The first declaration at a place. Constant time.
    #[tactic(auto, using(crate::proofs::Showing::declared_is))]
    pub fn declared(&self, place: &Place) -> Option<Declared>
        ensures { (w : World) → Shows self.now w → option_map (declared_of (type self.now)) result
            ≡ declared_at w.names.declared place.now }
    {
        self.names.declared_at(place)
    }

    /// Where what was first declared at a place in its unit was first declared in all units. Constant time.
    pub fn link(&self, place: &Place) -> Place
        ensures { (w : World) → Shows self.now w → result ≡ link_of w.names place.now }
    {
        self.names.link(place)
    }

    /// The first declaration at a token. Constant time.
    pub fn declared_here(&self, token: TokenId) -> Option<Declared>
        ensures { (w : World) → Shows self.now w → option_map (declared_of (type self.now)) result
            ≡ declared_at w.names.declared (at w token) }
    {
        self.declared(&self.place(token))
    }

    /// Whether what is declared was first declared as a function. Constant time.
    pub fn was_function(&self, declared: &Declared) -> bool
        ensures { (w : World) → Shows self.now w → result ≡ starting.is_some_function
            (declared_at w.names.declared declared.now.first) }
    {
        is_some_function(&self.declared(&declared.first))
    }

    /// The operand that the name at a token is, by what it stands for. Constant time.
    pub fn used(&self, token: TokenId, found: &Use) -> Operand
        ensures { (w : World) → Shows self.now w →
            val self.now result ≡ vals.used w token (use_of found.now) }
    {
        match found {
            Use::Means(first) => self.used_some(token, &self.declared(first)),
            Use::Called => Operand::a_place(self.own(token)),
            Use::Missing => Operand::a_place(nowhere(self.vars)),
        }
    }

    /// The operand that the name at a token is, by its declaration.
    fn used_some(&self, token: TokenId, declared: &Option<Declared>) -> Operand
        ensures { (w : World) → Shows self.now w → val self.now result
            ≡ vals.used_some w token (option_map (declared_of (type self.now)) declared.now) }
    {
        match declared {
            Some(declared) => self.used_by_role(token, &declared.at, declared.role),
            None => Operand::a_place(nowhere(self.vars)),
        }
    }

    /// The operand that the name at a token is, by where it is declared and as what.
    fn used_by_role(&self, token: TokenId, at: &Place, role: Role) -> Operand
        ensures { (w : World) → Shows self.now w → val self.now result
            ≡ vals.used_by_role w token at.now (role_of role) }
    {
        match role {
            Role::Enumerator => Operand::a_value(self.own(token)),
            Role::Function => Operand::a_place(self.own(token)),
            Role::Typedef => Operand::a_place(self.skeleton(at)),
            Role::Object => Operand::a_place(self.skeleton(at)),
            Role::Parameter(_) => Operand::a_place(self.skeleton(at)),
            Role::Field(_, _) => Operand::a_place(self.skeleton(at)),
        }
    }
}
