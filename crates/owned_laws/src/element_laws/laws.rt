//! Laws of the elements that constraints name.

ghost use Rattle.owned_laws.specs.ElementLaws.Naming.{ElementsAreNamed, LatticesAreNamed};

use flow_rules::{crossings_lead, flows_stay};
use row_laws::constraints_are_found;

/// Each constant and bound of the system of a program of well-formed units names a lattice that is there and an element of it.
pub fn elements_are_named()
    ensures named { ElementsAreNamed }
    ensures lattices { LatticesAreNamed }
{
    constraints_are_found();
    flows_stay();
    crossings_lead();
}
