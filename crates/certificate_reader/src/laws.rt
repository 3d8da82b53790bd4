//! Laws of texts of certificates.

ghost use Rattle.certificate_reader.specs.Laws.{ReadsOnce, OneFault, TextHasNoFault};

/// A text reads as one list of certificates.
pub fn reads_once()
    ensures { ReadsOnce }
{}

/// Lines have one fault at most, but for want of memory.
pub fn one_fault()
    ensures { OneFault }
{}

/// A text that reads as certificates has no fault.
pub fn text_has_no_fault()
    ensures { TextHasNoFault }
{}
