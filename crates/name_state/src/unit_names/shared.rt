//! What sources see of the prelude.

ghost use Rattle.std.specs.Prelude.{◌≡◌, ◌++◌, reverse, OnOk};
ghost use Rattle.name_state.specs.UnitNames.Shared.{is_shared, shared_name, shared};

use name_lists::NameList;
use name_tables::name_records::{Declarations, Declared, Role};
use name_tables::name_scopes::{Meant, Place};
use qual_base::{NameId, NoMemory};

/// Whether sources see what a declaration of the prelude declares: an object or function.
fn is_shared(declared: &Option<Declared>) -> bool
    ensures { result ≡ is_shared declared.now }
{
    match declared {
        Some(declared) => match declared.role {
            Role::Object | Role::Function => true,
            Role::Typedef | Role::Parameter(_) | Role::Field(_, _) | Role::Enumerator => false,
        },
        None => false,
    }
}

/// One more name for sources, where it is an object or function. Constant time but for growth.
fn share(
    round: &mut NameList<Place>,
    declared: &Declarations,
    name: NameId,
    meant: &Meant,
) -> Result<(), NoMemory>
    ensures { OnOk result
        (round.new ≡ shared_name declared.now name meant.now ++ round.old) }
{
    match meant {
        Meant::Type(_) => Ok(()),
        Meant::Thing(at) => {
            if is_shared(&declared.first_at(at)) {
                round.push(name, *at)
            } else {
                Ok(())
            }
        }
    }
}

/// The names of a scope for sources, the oldest first. Linear in them.
pub(crate) fn share_all(
    round: &mut NameList<Place>,
    declared: &Declarations,
    names: &[(NameId, Meant)],
) -> Result<(), NoMemory>
    ensures { OnOk result
        (round.new ≡ shared declared.now (reverse names.now) ++ round.old) }
{
    for it in names {
        share(round, declared, it.0, &it.1)?;
    }
    Ok(())
}
