//! A law of how long a tape is.

ghost use Rattle.length_laws.specs.Short.{TapesAreShort};

/// The tape of a unit has at most two ops for each of its tokens but the end.
pub fn tapes_are_short()
    ensures { TapesAreShort }
{}
