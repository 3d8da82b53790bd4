//! The rules of a certificate.

ghost use Rattle.std.specs.Prelude.{◌≡◌, ◌+◌, MatchOption};
ghost use Rattle.certificate_laws.specs.Certificates.{number_of};

/// A rule of a certificate, of one lattice.
///
/// A certificate has pairs of variables, and two sets of elements for each variable: the first of what may leave by any
/// call, the second of all that may come.
#[derive(Clone, Copy, PartialEq, Eq, Debug)]
pub enum CertRule {
    /// A constant is in the first set of its variable.
    A1,
    /// The first set is within the second, and is the same at a variable of nobody.
    A2,
    /// Both sets of a variable are within those of one that it flows to.
    A3,
    /// The first set goes on by a return.
    A4,
    /// The second set goes on by a call, and the inner end of a call is a pair with itself.
    A5,
    /// A pair goes on by a flow to a variable of a function.
    A6,
    /// A first set and the pairs go on by a call, a pair and a return of the same site.
    A7,
    /// The second set goes on by a pair.
    A8,
    /// Each element of the second set is at or below a bound of its variable.
    A9,
}

impl CertRule {
    /// The rule behind this one.
    pub fn next(self) -> Option<CertRule>
        ensures { MatchOption result (number_of self ≡ 9)
            (λ next. number_of next ≡ number_of self + 1) }
    {
        match self {
            CertRule::A1 => Some(CertRule::A2),
            CertRule::A2 => Some(CertRule::A3),
            CertRule::A3 => Some(CertRule::A4),
            CertRule::A4 => Some(CertRule::A5),
            CertRule::A5 => Some(CertRule::A6),
            CertRule::A6 => Some(CertRule::A7),
            CertRule::A7 => Some(CertRule::A8),
            CertRule::A8 => Some(CertRule::A9),
            CertRule::A9 => None,
        }
    }
}
