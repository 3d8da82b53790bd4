//! Laws of reports.

ghost use Rattle.report_laws.specs.Scenes.{TokensHaveNoFeed};
ghost use Rattle.report_laws.specs.Laws.{ErrorsReadBack, HoldsWithoutLines, RejectedReadsBack};

/// The lines of written errors, behind the line `rejected`, are read as the path proofs of these errors, in order.
pub fn errors_read_back()
    ensures { ErrorsReadBack }
{}

/// Two path proofs that are alike but for their line numbers hold alike.
pub fn holds_without_lines()
    ensures { HoldsWithoutLines }
{}

/// The text of a rejected report, where no name of a file has a line feed, reads as the path proofs of its errors in order.
/// Each of them holds, so that the report comes to `paths hold`.
pub fn rejected_reads_back()
    ensures { RejectedReadsBack }
{}

/// No token that the bytes of a unit spell has a line feed in it.
pub fn tokens_have_no_feed()
    ensures { TokensHaveNoFeed }
{}
