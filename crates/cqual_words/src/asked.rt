//! What is asked, as words that are lent.

/// The files that the words name: 1 to 256 sources, in their order.
#[derive(Debug, Drop)]
pub struct FileWords<'a> {
    pub lattice: &'a str,
    pub prelude: Option<&'a str>,
    pub sources: Vec<&'a str>,
    /// Whether they are read as wider C.
    pub wide: bool,
}

/// What is asked of a program.
#[derive(Clone, Copy, PartialEq, Eq, Debug)]
pub enum Question<'a> {
    /// Its report.
    Infer,
    /// Its report, and behind it its one source with what was inferred.
    Annotate,
    /// What the report of the named file comes to.
    Check(&'a str),
    /// Its certificate, or its report where it is not accepted.
    Certify,
    /// What the certificate of the named file comes to.
    Verify(&'a str),
    /// What reaches the declared names of this spelling, and what they reach.
    Who(&'a str),
    /// Its signatures as a library, or its report where it is not accepted.
    Sign,
}

/// What the words ask.
#[derive(Debug, Drop)]
pub enum Asked<'a> {
    /// A question of the program that files are.
    Ask(Question<'a>, FileWords<'a>),
    /// The report of the source of this number, 1 to 1000, which the tool makes itself.
    Generate(u32),
}
