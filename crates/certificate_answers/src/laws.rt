//! Laws of certificates that are written and read.

ghost use Rattle.certificate_answers.specs.Laws.{OneCertificate, OneVerdict, WrittenReads};

use certificate_reader::laws::{one_fault, reads_once, text_has_no_fault};

/// Of a well owned system that is accepted, the text of its certificates holds: what is written is read again.
pub fn written_reads()
    ensures { WrittenReads }
{}

/// A system has one text of certificates.
pub fn one_certificate()
    ensures { OneCertificate }
{}

/// A text comes to one thing.
pub fn one_verdict()
    ensures { OneVerdict }
{
    reads_once();
    one_fault();
    text_has_no_fault();
}
