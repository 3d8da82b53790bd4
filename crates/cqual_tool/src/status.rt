//! How a call of the tool ends.

ghost use Rattle.std.specs.Prelude.{◌≡◌};
ghost use Rattle.cqual_tool.specs.Statuses.{exit_of};

/// What the tool answers.
#[derive(Clone, Copy, PartialEq, Eq, Debug)]
pub enum Status {
    /// The program has an assignment at every call depth; the accepted report or the certificate was written.
    Accepted,
    /// It has none at some depth; the rejected report was written.
    Rejected,
    /// The report reads, and all its path proofs hold.
    PathsHold,
    /// The report does not read, or a path proof of it fails.
    PathBad,
    /// The certificate reads and obeys the rules, so the program is accepted.
    CertificateHolds,
    /// The certificate does not read, or breaks a rule.
    CertificateBad,
    /// Some declared name has this spelling; who reaches it was written, whether or not the program is accepted.
    Answered,
    /// No declared name of the sources has this spelling.
    NoName,
    /// The program has no signatures as a library.
    NoSignature,
    /// A file is past its limit or does not read, or the program has too many variables or constraints.
    Malformed,
    /// The words have no meaning.
    BadWords,
    /// A read failed; nothing was written.
    ReadFault,
    /// A write failed; a prefix of the text was written.
    WriteFault,
    /// There was not enough memory; nothing was written.
    NoMemory,
}

impl Status {
    /// The number with which the program exits.
    pub fn exit(self) -> u8
        ensures { result ≡ exit_of self }
    {
        match self {
            Status::Accepted => 0,
            Status::Rejected => 1,
            Status::PathsHold => 0,
            Status::PathBad => 1,
            Status::CertificateHolds => 0,
            Status::CertificateBad => 1,
            Status::Answered => 0,
            Status::NoName => 1,
            Status::NoSignature => 1,
            Status::Malformed => 2,
            Status::BadWords => 3,
            Status::ReadFault => 4,
            Status::WriteFault => 5,
            Status::NoMemory => 6,
        }
    }
}
