//! Laws of readings and of outcomes.

ghost use Rattle.outcome_laws.specs.Readings.{OneReadingOfLattices, OneListOfTokens};
ghost use Rattle.outcome_laws.specs.Indices.{OneSetOfIndices};
ghost use Rattle.outcome_laws.specs.Preludes.{OnePrelude};
ghost use Rattle.outcome_laws.specs.Judgements.{OneJudgement, OneErrorCount, OneCheck};
ghost use Rattle.outcome_laws.specs.Outcomes.{OneOutcome};

use c_reading::one_unit_at_most;
use certificate_answers::{one_certificate, one_verdict};
use sig_writer::one_text;

/// Bytes read as one list of lattices at most, and have no fault beside it.
pub fn one_reading_of_lattices()
    ensures { OneReadingOfLattices }
{}

/// The bytes of a unit spell one list of tokens at most, and stop nowhere beside it.
pub fn one_list_of_tokens()
    ensures { OneListOfTokens }
{}

/// An index word says one ascending list of numbers.
pub fn one_set_of_indices()
    ensures { OneSetOfIndices }
{}

/// Bytes are one prelude at most, and have no fault beside it.
pub fn one_prelude()
    ensures { OnePrelude }
{
    one_unit_at_most();
}

/// A program is accepted or rejected and not both, and the text of what is accepted is one.
pub fn one_judgement()
    ensures { OneJudgement }
{}

/// Constraints have one count of exceeded bounds.
pub fn one_error_count()
    ensures { OneErrorCount }
{}

/// A report comes to one thing.
pub fn one_check()
    ensures { OneCheck }
{}

/// The words and the bytes of the files have one status, and one text where it is neither rejected nor malformed nor who reaches a
/// name.
pub fn one_outcome()
    ensures { OneOutcome }
{
    one_unit_at_most();
    one_certificate();
    one_verdict();
    one_text();
}
