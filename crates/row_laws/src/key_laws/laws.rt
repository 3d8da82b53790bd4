//! Laws of the tokens at which the ops of a tape stand.

ghost use Rattle.row_laws.specs.KeyLaws.Differing.{KeysDiffer};
ghost use Rattle.row_laws.specs.KeyLaws.Tokens.{TokensAreOnce};

/// No two ops of the tapes of units at which a skeleton may begin or a name is declared stand at one place: each token of a unit
/// is that of one op at most.
pub fn keys_differ()
    ensures { KeysDiffer }
{}

/// Each token of a unit is that of one op at most that ends an expression or declares a name.
pub fn tokens_are_once()
    ensures { TokensAreOnce }
{}
