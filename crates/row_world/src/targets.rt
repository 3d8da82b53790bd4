//! Members, and what initialisers initialise.

ghost use Rattle.std.specs.Prelude.{◌≡◌, ℕ, IfOk, option_map};
ghost use Rattle.type_table.specs.Types.{CType};
ghost use Rattle.name_rules.specs.Scopes.{declared_at};
ghost use Rattle.name_state.specs.UnitNames.Shown as shown;
ghost use Rattle.qual_types.specs.Skel.{struct_of};
ghost use Rattle.row_rules.specs.Worlds.{World, at};
ghost use Rattle.row_rules.specs.Vals as vals;
ghost use Rattle.row_rules.specs.Rows as rows;
ghost use Rattle.row_world.specs.Shown.{Shows, skel, type};

use crate::known::Known;
use crate::skels::{contents, nowhere};
use name_tables::name_records as records;
use name_tables::name_records::{Declared, Own, Role};
use qual_base::{NameId, NoMemory, SkelId, StructId, TokenId};

impl<'a> Known<'a> {
    /// A member of a struct by its name. Linear in the members of the struct.
    pub fn member_of(&self, of: &Option<StructId>, name: NameId) -> Option<records::Known>
        ensures { (w : World) → Shows self.now w →
            option_map (shown.known_of (type self.now)) result ≡ vals.member_of w of.now name }
    {
        match of {
            Some(of) => self.names.member_at(*of, self.spelling.key(name)),
            None => None,
        }
    }

    /// The skeleton of a member. Linear in the members of the struct.
    pub fn member(&self, of: SkelId, name: NameId) -> SkelId
        ensures { (w : World) → Shows self.now w →
            skel self.now result ≡ vals.member_skel w (skel self.now of) name }
    {
        let found = self.member_of(&self.vars.struct_of(of), name);
        self.known_skeleton(&found)
    }

    /// The skeleton of a member that was found.
    fn known_skeleton(&self, found: &Option<records::Known>) -> SkelId
        ensures { (w : World) → Shows self.now w → skel self.now result
            ≡ vals.known_skeleton w (option_map (shown.known_of (type self.now)) found.now) }
    {
        match found {
            Some(it) => self.skeleton(&it.at),
            None => nowhere(self.vars),
        }
    }

    /// The number of the own member behind a designated one, or NoMemory past the end of all numbers. Linear in the members
    /// of the struct.
    pub fn behind_member(&self, of: SkelId, name: NameId, next: usize) -> Result<usize, NoMemory>
        ensures { IfOk result (λ n. (w : World) → Shows self.now w →
            n ≡ rows.behind_known (vals.member_of w (struct_of (skel self.now of)) name)
            next) }
    {
        let found = self.member_of(&self.vars.struct_of(of), name);
        behind(&found, next)
    }

    /// The skeleton of an own member that was found.
    fn own_skel(&self, found: &Option<Own>) -> Option<SkelId>
        ensures { (w : World) → Shows self.now w → option_map (skel self.now) result
            ≡ rows.own_skel w (option_map (shown.own_of (type self.now)) found.now) }
    {
        match found {
            Some(it) => Some(contents(self.vars, self.skeleton(&it.at))),
            None => None,
        }
    }

    /// What the next item of a struct initialises, by the number of its next own member. Constant time.
    pub fn next_of_struct(&self, of: StructId, next: usize) -> Option<SkelId>
        ensures { (w : World) → Shows self.now w →
            option_map (skel self.now) result ≡ rows.next_of_struct w of next }
    {
        let found = self.names.next_own(of, next);
        self.own_skel(&found)
    }

    /// What the initialiser of a declared name initialises, by what its first declaration is. Constant time.
    fn by_role(&self, declared: &Declared, role: Role) -> Option<SkelId>
        ensures { (w : World) → Shows self.now w → option_map (skel self.now) result
            ≡ rows.by_role w (shown.declared_of (type self.now) declared.now) (shown.role_of role) }
    {
        match role {
            Role::Typedef => None,
            Role::Function => None,
            Role::Object => Some(contents(self.vars, self.skeleton(&declared.at))),
            Role::Parameter(_) => Some(contents(self.vars, self.skeleton(&declared.at))),
            Role::Field(_, _) => Some(contents(self.vars, self.skeleton(&declared.at))),
            Role::Enumerator => None,
        }
    }

    /// What the initialiser of a declared name initialises, by its first declaration.
    fn by_first(&self, declared: &Declared, first: &Option<Declared>) -> Option<SkelId>
        ensures { (w : World) → Shows self.now w → option_map (skel self.now) result
            ≡ rows.by_first w (shown.declared_of (type self.now) declared.now)
            (option_map (shown.declared_of (type self.now)) first.now) }
    {
        match first {
            Some(first) => self.by_role(declared, first.role),
            None => None,
        }
    }

    /// What the initialiser of a declared name initialises.
    fn initialised_at(&self, declared: &Option<Declared>) -> Option<SkelId>
        ensures { (w : World) → Shows self.now w → option_map (skel self.now) result
            ≡ rows.initialised_at w (option_map (shown.declared_of (type self.now)) declared.now) }
    {
        match declared {
            Some(it) => self.by_first(it, &self.declared(&it.first)),
            None => None,
        }
    }

    /// What the initialiser of the name at a token initialises. Constant time.
    pub fn initialised(&self, token: TokenId) -> Option<SkelId>
        ensures { (w : World) → Shows self.now w → option_map (skel self.now) result
            ≡ rows.initialised_at w (declared_at w.names.declared (at w token)) }
    {
        let declared = self.declared_here(token);
        self.initialised_at(&declared)
    }
}

/// The number of the own member behind one that was found.
fn behind(found: &Option<records::Known>, next: usize) -> Result<usize, NoMemory>
    ensures { IfOk result (λ n. (t : ℕ → CType)
        → n ≡ rows.behind_known (option_map (shown.known_of t) found.now) next) }
{
    match found {
        Some(it) => match it.own.checked_add(1) {
            Some(n) => Ok(n),
            None => Err(NoMemory),
        },
        None => Ok(next),
    }
}
