//! What the words mean together.

ghost use Rattle.std.specs.Prelude.{◌≡◌, ◌≤◌, Bool, Some, None, Option, List, ℕ, codes, length, map};
ghost use Rattle.std.specs.Prelude.{IfOk, IfSome, is_some, string_bytes};
ghost use Rattle.std.specs.List.{list_all};
ghost use Rattle.std.specs.Option.{option_map};
ghost use Rattle.clap.specs.Words.{FailsBy, HasMatchesOf, fault_of, first_value, found_of, one_text};
ghost use Rattle.clap.specs.Values.{bool_text};
ghost use Rattle.cqual_words.specs.Asked.{AsksMade, NamesSources, names_in, question_in, task_of};
ghost use Rattle.cqual_words.specs.Words as rules;
ghost use Rattle.cqual_words.specs.Words.{Flag, meaning_of};
ghost use Rattle.cqual_words.specs.Tool.{HasFlags, asked_by, asked_with, is_fit, plain_texts};
ghost use Rattle.cqual_words.specs.Tool.{raw_of, sources_of, tool};

use crate::asked::{Asked, FileWords, Question};
use crate::command::command;
use crate::numeral::number;
use clap::error::ErrorKind;
use clap::{ArgMatches, Error};
use std::alloc::{AllocError, Global};

/// The most sources that words may name.
const MOST_SOURCES: usize = 256;

/// Whether a text has a meaning: it is not empty and does not begin with a hyphen.
fn has_meaning(text: &str) -> bool
    ensures { result ≡ rules.has_meaning text.now }
{
    match text.as_bytes() {
        [] => false,
        [first, ..] => *first != b'-',
    }
}

/// The text of a part, where there is one. A text with no meaning makes the whole have none.
fn text_of<'a>(matches: &ArgMatches<'a>, id: &str) -> Option<Option<&'a str>>
    ensures fit { is_some result ≡ is_fit (first_value (found_of matches.now) id.now) }
    ensures text { IfSome result (λ text. option_map (λ s. s.now) text
        ≡ first_value (found_of matches.now) id.now) }
{
    match matches.get_str(id) {
        None => Some(None),
        Some(text) if has_meaning(text) => Some(Some(text)),
        Some(_) => None,
    }
}

/// Whether each text has a meaning. Linear in them.
fn have_meaning(texts: &[&str]) -> bool
    ensures { result ≡ list_all rules.has_meaning (map (λ s. s.now) texts.now) }
{
    for text in texts {
        if !has_meaning(text) {
            return false;
        }
    }
    true
}

/// The sources; nothing where there are more than 256, or where one has no meaning.
fn sources_of<'a>(
    alloc: Global,
    matches: &ArgMatches<'a>,
) -> Result<Option<Vec<&'a str>>, AllocError>
    ensures { IfOk result (λ found. option_map (λ sources. map (λ s. s.now) sources.items) found
        ≡ sources_of (plain_texts (raw_of (found_of matches.now) (codes "source")))) }
{
    match matches.get_strs("source") {
        None => Ok(Some(Vec::new(alloc))),
        Some(texts) => {
            if texts.len() > MOST_SOURCES || !have_meaning(texts) {
                return Ok(None);
            }
            Ok(Some(texts.to_vec(alloc)?))
        }
    }
}

/// What is asked of a program, by the report, the certificate, the name and the flags: at most one of them.
fn question<'a>(
    report: Option<&'a str>,
    certificate: Option<&'a str>,
    name: Option<&'a str>,
    annotate: bool,
    certify: bool,
    sign: bool,
) -> Option<Question<'a>>
    ensures { option_map question_in result ≡ rules.question_of
        (option_map (λ s. s.now) report.entry) (option_map (λ s. s.now) certificate.entry)
        (option_map (λ s. s.now) name.entry) annotate certify sign }
{
    match (report, certificate, name, annotate, certify, sign) {
        (None, None, None, false, false, false) => Some(Question::Infer),
        (None, None, None, true, false, false) => Some(Question::Annotate),
        (None, None, None, false, true, false) => Some(Question::Certify),
        (None, None, None, false, false, true) => Some(Question::Sign),
        (Some(report), None, None, false, false, false) => Some(Question::Check(report)),
        (None, Some(certificate), None, false, false, false) => Some(Question::Verify(certificate)),
        (None, None, Some(name), false, false, false) => Some(Question::Who(name)),
        _ => None,
    }
}

/// Whether a question may have so many sources.
fn fits(question: Question<'_>, sources: &[&str]) -> bool
    ensures { result ≡ rules.fits (question_in question.entry) (map (λ s. s.now) sources.now) }
{
    match question {
        Question::Annotate => sources.len() == 1,
        Question::Infer
        | Question::Check(_)
        | Question::Certify
        | Question::Verify(_)
        | Question::Who(_)
        | Question::Sign => !sources.is_empty(),
    }
}

/// Whether a question goes beside a prelude, where there is one: signatures are of sources alone.
fn goes_with(question: Question<'_>, prelude: Option<&str>) -> bool
    ensures { result
        ≡ rules.goes_with (question_in question.entry) (option_map (λ s. s.now) prelude.entry) }
{
    match question {
        Question::Sign => prelude.is_none(),
        Question::Infer
        | Question::Annotate
        | Question::Check(_)
        | Question::Certify
        | Question::Verify(_)
        | Question::Who(_) => true,
    }
}

/// What is asked with a lattice and sources.
fn of_files<'a>(files: FileWords<'a>, question: Option<Question<'a>>) -> Option<Asked<'a>>
    ensures task { option_map task_of result
        ≡ rules.asked_of (names_in files.entry) (option_map question_in question.entry) }
    ensures made { IfSome result AsksMade }
    ensures sources { length files.entry.sources.items ≤ 256 → IfSome result NamesSources }
{
    let question = question?;
    if fits(question, &files.sources) && goes_with(question, files.prelude) {
        Some(Asked::Ask(question, files))
    } else {
        None
    }
}

/// What the number of a made source asks, which stands alone.
fn of_number<'a>(
    text: &str,
    prelude: Option<&str>,
    question: Option<Question<'_>>,
    sources: &[&str],
) -> Option<Asked<'a>>
    ensures task { option_map task_of result ≡ rules.made_of text.now
        (option_map (λ s. s.now) prelude.entry) (option_map question_in question.entry)
        (map (λ s. s.now) sources.now) }
    ensures made { IfSome result AsksMade }
    ensures sources { IfSome result NamesSources }
{
    match (prelude, question) {
        (None, Some(Question::Infer)) if sources.is_empty() => Some(Asked::Generate(number(text)?)),
        _ => None,
    }
}

/// What the texts of the parts ask, with these sources.
fn of_parts<'a>(matches: &ArgMatches<'a>, sources: Vec<&'a str>) -> Option<Asked<'a>>
    ensures task { (stands : Flag → Bool) → HasFlags (found_of matches.now) stands
        → option_map task_of result ≡ asked_with stands (λ id. first_value (found_of matches.now) id)
        (map (λ s. s.now) sources.entry.items) }
    ensures made { IfSome result AsksMade }
    ensures sources { length sources.entry.items ≤ 256 → IfSome result NamesSources }
{
    let lattice = text_of(matches, "lattice")?;
    let prelude = text_of(matches, "prelude")?;
    let report = text_of(matches, "check")?;
    let certificate = text_of(matches, "verify")?;
    let name = text_of(matches, "who")?;
    let number = text_of(matches, "generate")?;
    let question = question(
        report,
        certificate,
        name,
        matches.get_flag("annotate"),
        matches.get_flag("certify"),
        matches.get_flag("signatures"),
    );
    match (lattice, number) {
        (Some(lattice), None) => {
            let files = FileWords {
                lattice,
                prelude,
                sources,
                wide: false,
            };
            of_files(files, question)
        }
        (None, Some(text)) => of_number(text, prelude, question, &sources),
        _ => None,
    }
}

/// What the matches ask.
fn of_matches<'a>(alloc: Global, matches: &ArgMatches<'a>) -> Result<Option<Asked<'a>>, AllocError>
    ensures task { IfOk result (λ found. (stands : Flag → Bool) →
        HasFlags (found_of matches.now) stands →
        option_map task_of found ≡ asked_by stands (λ id. first_value (found_of matches.now) id)
        (raw_of (found_of matches.now) (codes "source"))) }
    ensures made { IfOk result (λ found. IfSome found AsksMade) }
    ensures sources { IfOk result (λ found. IfSome found NamesSources) }
{
    match sources_of(alloc, matches)? {
        Some(sources) => Ok(of_parts(matches, sources)),
        None => Ok(None),
    }
}

/// The matches of the words, or which kind of fault they have.
fn matches<'a>(alloc: Global, words: &'a [String]) -> Result<ArgMatches<'a>, Error>
    ensures ok { IfOk result (λ m. HasMatchesOf tool (map string_bytes words.entry.now) m) }
    ensures kinds { FailsBy (fault_of tool (map string_bytes words.entry.now)) result }
{
    let command = command(alloc)?;
    command.try_get_matches_from(words)
}

/// Whether the first word says that sources are read as wider C, and the words behind it.
fn behind_wide(words: &[String]) -> (bool, &[String])
    ensures wide { result.0 ≡ (rules.behind_wide (map string_bytes words.now)).0 }
    ensures rest { map string_bytes result.1.now
        ≡ (rules.behind_wide (map string_bytes words.now)).1 }
{
    match words {
        [first, rest @ ..] if first.as_str() == "--wide" => (true, rest),
        _ => (false, words),
    }
}

/// What is asked, of sources that are read as wider C or not.
fn widened(wide: bool, asked: Asked<'_>) -> Asked<'_>
    ensures task { task_of result ≡ rules.widened wide (task_of asked.entry) }
    ensures made { AsksMade asked.entry → AsksMade result }
    ensures sources { NamesSources asked.entry → NamesSources result }
{
    match asked {
        Asked::Ask(question, files) => {
            let FileWords {
                lattice,
                prelude,
                sources,
                wide: _wide,
            } = files;
            let files = FileWords {
                lattice,
                prelude,
                sources,
                wide,
            };
            Asked::Ask(question, files)
        }
        Asked::Generate(number) => Asked::Generate(number),
    }
}

/// What the words behind `--wide` ask.
fn meaning_behind<'a>(alloc: Global, words: &'a [String]) -> Result<Option<Asked<'a>>, AllocError>
    ensures meaning { IfOk result (λ found. option_map task_of found
        ≡ rules.asked_behind (map string_bytes words.entry.now)) }
    ensures made { IfOk result (λ found. IfSome found AsksMade) }
    ensures sources { IfOk result (λ found. IfSome found NamesSources) }
{
    match matches(alloc, words) {
        Ok(matches) => of_matches(alloc, &matches),
        Err(error) => match error.kind() {
            ErrorKind::OutOfMemory => Err(AllocError),
            _ => Ok(None),
        },
    }
}

/// What the words behind the program's name ask, or nothing where they have no meaning. `--wide` may stand before all others, once:
/// then sources are read as wider C. Each option stands at most once, as
/// `--name VALUE` or `--name=VALUE`, with 1 to 256 sources before, between and behind them; behind `--` there are no options.
///
/// Its time is in proportion to the words and their bytes. Memory is taken for the options, for the places of the words, for the
/// list of the sources and for the text of a refusal. What is asked keeps that list alone, and lends its texts from the words.
///
/// # Errors
///
/// Want of memory.
pub fn meaning<'a>(alloc: Global, words: &'a [String]) -> Result<Option<Asked<'a>>, AllocError>
    ensures meaning { IfOk result (λ found. option_map task_of found
        ≡ meaning_of (map string_bytes words.entry.now)) }
    ensures made { IfOk result (λ found. IfSome found AsksMade) }
    ensures sources { IfOk result (λ found. IfSome found NamesSources) }
{
    let (wide, rest) = behind_wide(words);
    match meaning_behind(alloc, rest)? {
        Some(asked) => Ok(Some(widened(wide, asked))),
        None => Ok(None),
    }
}
