//! Where the ends of flow lists belong.

ghost use Rattle.std.specs.Prelude.{◌≡◌, ℕ, true, false};
ghost use Rattle.qual_base.specs.declared.places.Owner.{Owner};
ghost use Rattle.qual_types.specs.Skel.{Skel, nodes};
ghost use Rattle.flow_rules.specs.declared.arrow.Arrow.TheVariants.{Flow};
ghost use Rattle.flow_rules.specs.Lists.{flow, equal, cross, smash, unsmash};
ghost use Rattle.flow_rules.specs.Owners.{AllIn, IsIn, AllStay, AllOwned, AllLead};

/// Where all variables of two skeletons belong to one owner or to nobody, so do both ends of each flow of their lists. It
/// does nothing.
pub fn flows_stay()
    ensures flow { (own : ℕ → Owner) (owner : Owner) (a b : Skel) → AllIn own owner (nodes a) →
        AllIn own owner (nodes b) → AllStay own owner (flow Flow true a b) }
    ensures equate { (own : ℕ → Owner) (owner : Owner) (a b : Skel) → AllIn own owner (nodes a) →
        AllIn own owner (nodes b) → AllStay own owner (equal Flow true a b) }
    ensures smash { (own : ℕ → Owner) (owner : Owner) (a : Skel) (e : ℕ) →
        AllIn own owner (nodes a) → IsIn own owner e → AllStay own owner (smash a e) }
    ensures unsmash { (own : ℕ → Owner) (owner : Owner) (e : ℕ) (b : Skel) → IsIn own owner e →
        AllIn own owner (nodes b) → AllStay own owner (unsmash e b) }
{}

/// Where all variables of a signature belong to one owner and all of an instance to another, each call of the site leads
/// from the instance's owner to the signature's, and each return back. It does nothing.
pub fn crossings_lead()
    ensures { (own : ℕ → Owner) (outer inner : Owner) (site : ℕ) (a b : Skel) → AllOwned own inner
        (nodes a) → AllOwned own outer (nodes b) → AllLead own outer inner site (cross site a b) }
{}

/// The list that is read with the flag turned is that of the skeletons exchanged. It does nothing.
pub fn lists_turn()
    ensures flow { (a b : Skel) → flow Flow false a b ≡ flow Flow true b a }
    ensures equate { (a b : Skel) → equal Flow false a b ≡ equal Flow true b a }
{}
