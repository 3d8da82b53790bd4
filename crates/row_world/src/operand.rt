//! The skeletons of operands.

ghost use Rattle.std.specs.Prelude.{◌≡◌, true, false};

use qual_base::SkelId;

/// The skeleton of an operand: that of a place, which is a reference to what is in it, or that of a value.
#[derive(Clone, Copy, PartialEq, Eq, Debug, Drop)]
pub struct Operand {
    pub is_place: bool,
    pub skel: SkelId,
}

impl Operand {
    /// An operand that is a place.
    pub fn a_place(skel: SkelId) -> Self
        ensures { result ≡ record { is_place = true; skel = skel } }
    {
        Operand {
            is_place: true,
            skel,
        }
    }

    /// An operand that is a value.
    pub fn a_value(skel: SkelId) -> Self
        ensures { result ≡ record { is_place = false; skel = skel } }
    {
        Operand {
            is_place: false,
            skel,
        }
    }
}
