//! Laws of signatures. Functions without a body, each with a law as its contract.

ghost use Rattle.sig_writer.specs.Laws.{ExternalsAreHeld, OneText, OwnedApart};

use owned_laws::functions_own_theirs;

/// What is written of a library is one, and so is why a function has no signature.
pub fn one_text()
    ensures { OneText }
{}

/// The nodes of two external functions belong to two functions, in programs of units that were read.
pub fn owned_apart()
    ensures { OwnedApart }
{
    functions_own_theirs();
}

/// The external functions of a program, as the code holds them.
pub fn externals_are_held()
    ensures { ExternalsAreHeld }
{}
