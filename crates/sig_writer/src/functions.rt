//! The external functions of sources (C99, 6.2.2).

ghost use Rattle.std.specs.Prelude.{◌≡◌, ◌++◌, ◌∷◌, [], ℕ, List, map, reverse, IfOk, OnOk};
ghost use Rattle.std.specs.List.{filter};
ghost use Rattle.name_rules.specs.Linking.{is_external};
ghost use Rattle.name_rules.specs.Scopes as rules;
ghost use Rattle.name_rules.specs.Scopes.{declared_at};
ghost use Rattle.row_rules.specs.Starting.{is_some_function};
ghost use Rattle.unit_shapes.specs.Views.{names_in};
ghost use Rattle.sig_writer.specs.Functions.{functions_in, is_first};
ghost use Rattle.type_table.specs.Types.{CType};
ghost use Rattle.name_state.specs.NameLinks.Tables.{AreStatics};
ghost use Rattle.name_state.specs.UnitNames.Shown.{names_of};

use c_types::Program;
use name_state::found_names::FoundNames;
use name_tables::name_scopes::Place;
use qual_base::{NameId, NoMemory, Numbered, UnitNo};
use std::alloc::Global;
use std::collections::HashMap;
use unit_starts::is_function;

/// The units, and the names that a declaration there has `static` with.
#[derive(Drop)]
struct Statics {
    known: HashMap<(UnitNo, NameId), ()>,
}

impl Statics {
    /// Whether what has a name, and was first declared at a place, is an external one of a source. Constant time.
    fn is_external(&self, name: NameId, at: &Place) -> bool
        ensures { (all : List (ℕ × ℕ)) → AreStatics all self.now.known
            → result ≡ is_external all name at.now }
    {
        at.0.number() != 0 && !self.known.contains_key(&(at.0, name))
    }
}

/// Finds them. Linear in them, but for growth.
fn find_statics(alloc: Global, statics: &[(UnitNo, NameId)]) -> Result<Statics, NoMemory>
    ensures { IfOk result (λ it. AreStatics (reverse statics.now) it.known) }
{
    let mut known = HashMap::new(alloc);
    for it in statics {
        match known.insert(*it, ()) {
            Ok(_) => {}
            Err(_) => return Err(NoMemory),
        }
    }
    Ok(Statics { known })
}

/// Whether two places are one.
fn is_place(one: &Place, other: &Place) -> bool
    ensures { result ≡ rules.is_place one.now other.now }
{
    one.0.number() == other.0.number() && one.1.number() == other.1.number()
}

/// Whether a place declares a function. Constant time.
fn declares_function(names: &FoundNames, at: &Place) -> bool
    ensures { (t : ℕ → CType) → result
        ≡ is_some_function (declared_at
        (names_of t names.now).declared at.now) }
{
    match names.declared_at(at) {
        Some(declared) => is_function(declared.role),
        None => false,
    }
}

/// Whether an object or function is an external one that was first declared in all sources there, as a function. Constant time.
fn is_first(names: &FoundNames, statics: &Statics, thing: &(NameId, Place)) -> bool
    ensures { (t : ℕ → CType) →
        AreStatics (names_of t names.now).statics statics.now.known →
        result ≡ is_first (names_of t names.now) thing.now }
{
    let at = &thing.1;
    statics.is_external(thing.0, at)
        && is_place(&names.link(at), at)
        && declares_function(names, at)
}

/// Keeps where a function was first declared.
fn keep_first(
    found: &mut Vec<Place>,
    names: &FoundNames,
    statics: &Statics,
    thing: &(NameId, Place),
) -> Result<(), NoMemory>
    ensures { OnOk result ((t : ℕ → CType) →
        AreStatics (names_of t names.now).statics statics.now.known →
        found.new.items ≡ found.old.items ++ map (λ it. it.1)
        (filter (is_first (names_of t names.now)) (thing.now ∷ []))) }
{
    if is_first(names, statics, thing) {
        found.push(thing.1)?;
    }
    Ok(())
}

/// Where each of some things, the oldest first, is an external function that was first declared there, as a function. Linear in them,
/// but for growth.
fn first_functions(
    alloc: Global,
    names: &FoundNames,
    statics: &Statics,
    things: &[(NameId, Place)],
) -> Result<Vec<Place>, NoMemory>
    ensures { IfOk result (λ it. (t : ℕ → CType) →
        AreStatics (names_of t names.now).statics statics.now.known →
        it.items ≡ map (λ it. it.1) (filter (is_first (names_of t names.now)) things.now)) }
{
    let mut found = Vec::new(alloc);
    for thing in things {
        keep_first(&mut found, names, statics, thing)?;
    }
    Ok(found)
}

/// Where each external function of sources was first declared, in the order of these declarations. Linear in the objects and functions
/// of the sources, but for growth. 8 bytes for each that is found.
pub fn external_functions(alloc: Global, program: &Program) -> Result<Vec<Place>, NoMemory>
    ensures { IfOk result
        (λ it. it.items ≡ functions_in (names_in program.now.rows program.now.names)) }
{
    let names = program.found_names();
    let known = names.names();
    let statics = find_statics(alloc, known.statics())?;
    first_functions(alloc, names, &statics, known.things())
}
