//! Laws of what is answered and written.

ghost use Rattle.answer_laws.specs.Laws.{AnnotatedGivesTheSource, CertifiedIsVerified};
ghost use Rattle.answer_laws.specs.Laws.{ProgramsAreOwned, RejectedIsChecked};

use annotate::comments_come_out;
use certificate_answers::written_reads;
use owned_laws::element_laws::elements_are_named;
use owned_laws::systems_are_owned;
use report_laws::{rejected_reads_back, tokens_have_no_feed};

/// The system of each program that is judged is well owned: no flow joins two functions, and each call and return leads by
/// its site; and each constant and bound names a lattice that is there and an element of it.
pub fn programs_are_owned()
    ensures { ProgramsAreOwned }
{
    systems_are_owned();
    elements_are_named();
}

/// Where the annotated source is asked for and the program is accepted, what stands behind the report is the bytes of the
/// source with comments behind tokens: taking these out gives the source back.
pub fn annotated_gives_the_source()
    ensures { AnnotatedGivesTheSource }
{
    comments_come_out();
}

/// A rejected report, whatever was asked, that is checked over the same files holds, where no name of a file has a line feed in it.
pub fn rejected_is_checked()
    ensures { RejectedIsChecked }
{
    programs_are_owned();
    elements_are_named();
    rejected_reads_back();
    tokens_have_no_feed();
}

/// The certificate of an accepted program that is checked over the same files holds.
pub fn certified_is_verified()
    ensures { CertifiedIsVerified }
{
    programs_are_owned();
    written_reads();
}
