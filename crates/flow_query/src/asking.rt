//! Which variables are asked of.

ghost use Rattle.std.specs.Prelude.{◌≡◌, ◌∷◌, [], ◌++◌, IfOk, OnOk};
ghost use Rattle.std.specs.List.{filter};
ghost use Rattle.std.specs.Str.{bytes_eq};
ghost use Rattle.annotate.specs.Texts.{bytes_in, unit_in};
ghost use Rattle.annotate.specs.Scenes.{Shows};
ghost use Rattle.flow_query.specs.Answers.{asked_in, is_of_name};

use annotate::{Scene, bytes_of, unit_at};
use qual_base::{NoMemory, Numbered, TokenId, UnitNo, VarId};
use std::alloc::Global;

/// Whether a token has these bytes. A token that is not there has none. Linear in the bytes, beside the unit, which
/// `annotate::unit_at` finds.
fn reads(scene: &Scene<'_>, name: &[u8], unit: UnitNo, token: TokenId) -> bool
    ensures { (s : _) → Shows scene.now s →
        result ≡ bytes_eq (bytes_in (unit_in s.units unit) token) name.now }
{
    match unit_at(scene.units, unit) {
        Some(found) => bytes_of(&found, token) == name,
        None => name.is_empty(),
    }
}

/// Whether a variable stands where a name of these bytes is declared. Linear in the bytes and in the path of the variable.
fn spells(alloc: Global, scene: &Scene<'_>, name: &[u8], var: VarId) -> Result<bool, NoMemory>
    ensures { IfOk result (λ is. (s : _) → Shows scene.now s → is ≡ is_of_name s name.now var) }
{
    if var.number() >= scene.vars.count() {
        return Ok(false);
    }
    let position = scene.vars.position(alloc, var)?;
    Ok(reads(scene, name, position.unit, position.token))
}

/// Keeps a variable, where it is one of the name.
fn keep_asked(
    vars: &mut Vec<VarId>,
    scene: &Scene<'_>,
    name: &[u8],
    var: VarId,
) -> Result<(), NoMemory>
    ensures { OnOk result ((s : _) → Shows scene.now s →
        vars.new.items ≡ vars.old.items ++ filter (is_of_name s name.now) (var ∷ [])) }
{
    if !spells(*vars.allocator(), scene, name, var)? {
        return Ok(());
    }
    vars.push(var)?;
    Ok(())
}

/// The variables of a name, in the order of the report. Linear in the variables that are listed, in the bytes of the name and
/// in the paths of the variables. 4 bytes for each that is found.
pub fn asked_of(alloc: Global, scene: &Scene<'_>, name: &[u8]) -> Result<Vec<VarId>, NoMemory>
    ensures { IfOk result
        (λ vars. (s : _) → Shows scene.now s → vars.items ≡ asked_in s name.now) }
{
    let mut vars = Vec::new(alloc);
    for var in scene.listed {
        keep_asked(&mut vars, scene, name, *var)?;
    }
    Ok(vars)
}
