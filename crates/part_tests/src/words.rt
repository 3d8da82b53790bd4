//! What no clause says: that calls succeed where there is memory, and what lists of words ask, worked out by hand.

use cqual_words::{Asked, FileWords, Question, meaning};
use std::alloc::{AllocError, Global};
use std::test::Fail;

fn files_text(alloc: Global, files: &FileWords<'_>) -> Result<String, AllocError> {
    let prelude = files.prelude.unwrap_or("none");
    let dialect = if files.wide { "wide " } else { "" };
    let mut text = format!(in alloc; "{dialect}{} {prelude}", files.lattice)?;
    for source in &files.sources {
        text.push_str(" ")?;
        text.push_str(*source)?;
    }
    Ok(text)
}

fn question_text(alloc: Global, question: Question<'_>) -> Result<String, AllocError> {
    match question {
        Question::Infer => String::from_str(alloc, "infer"),
        Question::Annotate => String::from_str(alloc, "annotate"),
        Question::Check(report) => format!(in alloc; "check {report}"),
        Question::Certify => String::from_str(alloc, "certify"),
        Question::Verify(certificate) => format!(in alloc; "verify {certificate}"),
        Question::Who(name) => format!(in alloc; "who {name}"),
        Question::Sign => String::from_str(alloc, "sign"),
    }
}

fn asked_text(alloc: Global, asked: Option<Asked<'_>>) -> Result<String, AllocError> {
    match asked {
        None => String::from_str(alloc, "nothing"),
        Some(Asked::Ask(question, files)) => {
            let question = question_text(alloc, question)?;
            let text = files_text(alloc, &files)?;
            format!(in alloc; "{question}: {text}")
        }
        Some(Asked::Generate(number)) => format!(in alloc; "generate {number}"),
    }
}

/// Words with a bar between two, and what they ask: the question, the lattice, the prelude or none, and the sources.
static LISTS: [(&str, &str); 108] = [
    ("--wide|--lattice|l.q|s.c", "infer: wide l.q none s.c"),
    (
        "--wide|s.c|--prelude|p.h|--certify|--lattice=l.q|t.c",
        "certify: wide l.q p.h s.c t.c",
    ),
    ("--wide|--generate|1", "generate 1"),
    ("--wide", "nothing"),
    ("--wide|--wide|--lattice|l.q|s.c", "nothing"),
    ("--lattice|l.q|s.c|--wide", "nothing"),
    ("--lattice|--wide|s.c", "nothing"),
    ("--lattice|l.q|s.c", "infer: l.q none s.c"),
    ("--lattice=l.q|s.c", "infer: l.q none s.c"),
    ("s.c|--lattice|l.q", "infer: l.q none s.c"),
    ("--lattice|l.q|--|s.c", "infer: l.q none s.c"),
    ("s.c|--lattice|l.q|--", "infer: l.q none s.c"),
    ("--prelude|p.h|s.c|--lattice=l.q", "infer: l.q p.h s.c"),
    ("--lattice==x|s.c", "infer: =x none s.c"),
    ("--lattice=a=b|s.c", "infer: a=b none s.c"),
    ("--lattice|l.q|lattice", "infer: l.q none lattice"),
    ("--annotate|--lattice|l.q|s.c", "annotate: l.q none s.c"),
    (
        "--lattice|l.q|s.c|--prelude=p.h|--annotate",
        "annotate: l.q p.h s.c",
    ),
    (
        "--check|r.txt|--lattice|l.q|s.c",
        "check r.txt: l.q none s.c",
    ),
    (
        "--lattice|l.q|--prelude|p.h|--check=r.txt|s.c",
        "check r.txt: l.q p.h s.c",
    ),
    ("--certify|--lattice|l.q|s.c", "certify: l.q none s.c"),
    (
        "s.c|--prelude|p.h|--certify|--lattice=l.q|t.c",
        "certify: l.q p.h s.c t.c",
    ),
    (
        "--verify|c.txt|--lattice|l.q|s.c",
        "verify c.txt: l.q none s.c",
    ),
    (
        "s.c|t.c|--lattice|l.q|--prelude=p.h|--verify=c.txt",
        "verify c.txt: l.q p.h s.c t.c",
    ),
    ("--who|b|--lattice|l.q|s.c", "who b: l.q none s.c"),
    ("--lattice|l.q|s.c|--who=b", "who b: l.q none s.c"),
    (
        "s.c|t.c|--lattice|l.q|--prelude=p.h|--who=b",
        "who b: l.q p.h s.c t.c",
    ),
    ("--who==|--lattice|l.q|s.c", "who =: l.q none s.c"),
    ("--who|a b|--lattice|l.q|s.c", "who a b: l.q none s.c"),
    ("--who|9.x|--lattice|l.q|s.c", "who 9.x: l.q none s.c"),
    ("--lattice|l.q|s.c|--who", "nothing"),
    ("--lattice|l.q|s.c|--who=", "nothing"),
    ("--lattice|l.q|s.c|--who|", "nothing"),
    ("--lattice|l.q|s.c|--who|-b", "nothing"),
    ("--lattice|l.q|s.c|--who|b|--who|b", "nothing"),
    ("--lattice|l.q|s.c|--who|b|--annotate", "nothing"),
    ("--lattice|l.q|s.c|--who|b|--check|r.txt", "nothing"),
    ("--lattice|l.q|s.c|--who|b|--certify", "nothing"),
    ("--lattice|l.q|s.c|--who|b|--verify|c.txt", "nothing"),
    ("--generate|1|--who|b", "nothing"),
    ("--lattice|l.q|--who|b", "nothing"),
    ("--signatures|--lattice|l.q|s.c", "sign: l.q none s.c"),
    (
        "s.c|--lattice=l.q|--signatures|t.c",
        "sign: l.q none s.c t.c",
    ),
    ("--lattice|l.q|--signatures", "nothing"),
    ("--lattice|l.q|s.c|--signatures=x", "nothing"),
    ("--lattice|l.q|s.c|--signatures|--signatures", "nothing"),
    ("--lattice|l.q|--prelude|p.h|s.c|--signatures", "nothing"),
    ("--lattice|l.q|s.c|--signatures|--annotate", "nothing"),
    ("--lattice|l.q|s.c|--signatures|--check|r.txt", "nothing"),
    ("--lattice|l.q|s.c|--signatures|--certify", "nothing"),
    ("--lattice|l.q|s.c|--signatures|--verify|c.txt", "nothing"),
    ("--lattice|l.q|s.c|--signatures|--who|b", "nothing"),
    ("--generate|1|--signatures", "nothing"),
    ("--lattice|l.q|s.c|--certify|--certify", "nothing"),
    ("--lattice|l.q|s.c|--certify=x", "nothing"),
    ("--lattice|l.q|s.c|--certify|--annotate", "nothing"),
    ("--lattice|l.q|s.c|--certify|--check|r.txt", "nothing"),
    ("--lattice|l.q|s.c|--certify|--verify|c.txt", "nothing"),
    ("--lattice|l.q|s.c|--verify|c.txt|--verify|c.txt", "nothing"),
    ("--lattice|l.q|s.c|--verify|c.txt|--check|r.txt", "nothing"),
    ("--lattice|l.q|s.c|--verify|c.txt|--annotate", "nothing"),
    ("--lattice|l.q|s.c|--verify=", "nothing"),
    ("--lattice|l.q|--certify", "nothing"),
    ("--lattice|l.q|--verify|c.txt", "nothing"),
    ("--generate|1|--certify", "nothing"),
    ("--generate|1|--verify|c.txt", "nothing"),
    ("--generate|1", "generate 1"),
    ("--generate=1000", "generate 1000"),
    ("--generate|70|--", "generate 70"),
    ("", "nothing"),
    ("--", "nothing"),
    ("s.c", "nothing"),
    ("--lattice", "nothing"),
    ("--lattice|l.q", "nothing"),
    ("--lattice=|s.c", "nothing"),
    ("--lattice||s.c", "nothing"),
    ("--lattice|l.q|", "nothing"),
    ("--lattice=-x|s.c", "nothing"),
    ("--lattice|-|s.c", "nothing"),
    ("--lattice|-x|s.c", "nothing"),
    ("--lattice|--check|r.txt|s.c", "nothing"),
    ("--lattice|--|l.q|s.c", "nothing"),
    ("--lattice|l.q|-", "nothing"),
    ("--lattice|l.q|--|-x", "nothing"),
    ("--lattice|l.q|--|--", "nothing"),
    ("--lattice|l.q|s.c|t.c", "infer: l.q none s.c t.c"),
    (
        "s.c|--lattice|l.q|t.c|--prelude=p.h|--|u.c",
        "infer: l.q p.h s.c t.c u.c",
    ),
    (
        "s.c|s.c|--check|r.txt|--lattice|l.q",
        "check r.txt: l.q none s.c s.c",
    ),
    ("--lattice|l.q|s.c|-t.c", "nothing"),
    ("--lattice|l.q|s.c||t.c", "nothing"),
    ("--lattice|l.q|s.c|t.c|--annotate", "nothing"),
    ("s.c|--generate|1|t.c", "nothing"),
    ("--lattice|l.q|--lattice|l.q|s.c", "nothing"),
    ("--lattice|l.q|s.c|--annotate|--annotate", "nothing"),
    ("--lattice|l.q|s.c|--annotate=x", "nothing"),
    ("--lattice|l.q|s.c|--annotate=", "nothing"),
    ("--lattice|l.q|s.c|--annotate|--check|r.txt", "nothing"),
    ("--latt|l.q|s.c", "nothing"),
    ("-l|l.q|s.c", "nothing"),
    ("--help", "nothing"),
    ("--lattice|l.q|s.c|--version", "nothing"),
    ("--=x|--lattice|l.q|s.c", "nothing"),
    ("--generate|0", "nothing"),
    ("--generate|01", "nothing"),
    ("--generate|+1", "nothing"),
    ("--generate| 1", "nothing"),
    ("--generate|1001", "nothing"),
    ("--generate|1|s.c", "nothing"),
];

fn words_of(alloc: Global, text: &str) -> Result<Vec<String>, AllocError> {
    let mut words = Vec::new(alloc);
    for word in text.split('|') {
        words.push(String::from_str(alloc, word)?)?;
    }
    Ok(words)
}

#[test]
fn each_list_asks_what_it_means(rt: HostRuntime) -> Result<(), Fail> {
    let alloc = rt.alloc();
    for (text, expected) in &LISTS {
        let words = words_of(alloc, *text)?;
        let asked = meaning(alloc, words.as_slice())?;
        assert_eq!(rt; asked_text(alloc, asked)?.as_str(), *expected, "{text}");
    }
    Ok(())
}

#[test]
fn no_words_ask_nothing(rt: HostRuntime) -> Result<(), Fail> {
    let words: Vec<String> = Vec::new(rt.alloc());
    assert!(rt; meaning(rt.alloc(), words.as_slice())?.is_none());
    Ok(())
}

/// A lattice file and so many sources.
fn words_with(alloc: Global, count: usize) -> Result<Vec<String>, AllocError> {
    let mut words = words_of(alloc, "--lattice|l.q")?;
    for _ in 0..count {
        words.push(String::from_str(alloc, "s.c")?)?;
    }
    Ok(words)
}

#[test]
fn at_most_256_sources_are_named(rt: HostRuntime) -> Result<(), Fail> {
    let alloc = rt.alloc();
    let most = words_with(alloc, 256)?;
    let asked = meaning(alloc, most.as_slice())?;
    let count = match &asked {
        Some(Asked::Ask(_, files)) => files.sources.len(),
        _ => 0,
    };
    assert_eq!(rt; count, 256);
    let more = words_with(alloc, 257)?;
    assert!(rt; meaning(alloc, more.as_slice())?.is_none());
    Ok(())
}
