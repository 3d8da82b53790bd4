//! What a token can be.

use c_words::Keyword;

/// What a word is that is no name.
#[derive(Clone, Copy, PartialEq, Eq, Debug)]
pub(crate) enum Word {
    Keyword(Keyword),
    /// `__func__` and the like, which are read as a string literal.
    Text,
}

/// What the table has beside a word.
#[derive(Clone, Copy, PartialEq, Eq, Debug)]
pub(crate) enum Listed {
    /// A keyword, whether sources are read as wider C or not.
    Always(Keyword),
    /// `__func__` and the like.
    Text,
    /// `_Complex` and `__complex__`, which go with more words in wider C.
    Complex,
    /// A word of wider C that is reserved where sources are not read as that.
    Wide(Keyword),
    /// A word of wider C that is a name where sources are not read as that.
    Added(Keyword),
}
