//! The files that are named.

ghost use Rattle.std.specs.Prelude.{◌≡◌, slice_get};
ghost use Rattle.std.specs.Option.{option_map};
ghost use Rattle.cqual_words.specs.Asked as words;
ghost use Rattle.cqual_tool.specs.Words as rules;
ghost use Rattle.cqual_tool.specs.Words.{names_in};

use cqual_words::{FileWords, Question};

/// The files that the words name, and what is asked of their program.
#[derive(Clone, Copy, Debug)]
pub struct Named<'a> {
    pub lattice: &'a str,
    pub prelude: Option<&'a str>,
    pub asked: Question<'a>,
    /// In their order.
    pub sources: &'a [&'a str],
    /// Whether they are read as wider C.
    pub wide: bool,
}

impl<'a> Named<'a> {
    /// The source with this number, from 0. Constant time.
    pub fn source(&self, index: u32) -> Option<&'a str>
        ensures { option_map (λ name. name.now) result
            ≡ slice_get (names_in self.now).sources index }
    {
        self.sources.get(index as usize).copied()
    }

    /// The file of the report or the certificate that is to be checked.
    pub fn saved(&self) -> Option<&'a str>
        ensures { option_map (λ name. name.now) result ≡ rules.saved_in (names_in self.now) }
    {
        match self.asked {
            Question::Check(file) | Question::Verify(file) => Some(file),
            Question::Infer
            | Question::Annotate
            | Question::Certify
            | Question::Who(_)
            | Question::Sign => None,
        }
    }
}

/// The files of words, with what is asked.
pub fn of_files<'a>(files: &'a FileWords<'a>, asked: Question<'a>) -> Named<'a>
    ensures { names_in result ≡ rules.of_files (words.names_in files.now)
        (words.question_in asked.entry) }
{
    Named {
        lattice: files.lattice,
        prelude: files.prelude,
        asked,
        sources: files.sources.as_slice(),
        wide: files.wide,
    }
}
