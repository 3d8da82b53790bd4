//! What certificates show.

ghost use Rattle.certificate_laws.specs.Laws.{AcceptedIsCertified, CertifiedHasWritten};
ghost use Rattle.certificate_laws.specs.Laws.{CertifiedIsAccepted};

/// A system of which a certificate obeys the rules is accepted, whether or not it is well owned.
pub fn certified_is_accepted()
    ensures { CertifiedIsAccepted }
{}

/// Of a well owned system that is accepted, the certificate that is written obeys the rules.
pub fn accepted_is_certified()
    ensures { AcceptedIsCertified }
{}

/// Of a well owned system, each certificate that obeys the rules has all that the written one has.
pub fn certified_has_written()
    ensures { CertifiedHasWritten }
{}
