//! The options, as the command line's reader takes them.

ghost use Rattle.std.specs.Prelude.{◌≡◌, IfOk, false};
ghost use Rattle.clap.specs.Words.{app_of, rule_of};
ghost use Rattle.cqual_words.specs.Tool.{bare, flag_rule, option_rule, source_rule, tool};

use clap::{Arg, ArgAction, Command};
use std::alloc::{AllocError, Global};

/// An option with a value, that stands at most once.
fn option<'a>(alloc: Global, name: &'a str) -> Arg<'a>
    ensures rule { rule_of result ≡ option_rule name.entry.now }
    ensures local { result.global ≡ false }
{
    Arg::new(alloc, name).long(name).action(ArgAction::Set)
}

/// A flag, that stands at most once.
fn flag<'a>(alloc: Global, name: &'a str) -> Arg<'a>
    ensures rule { rule_of result ≡ flag_rule name.entry.now }
    ensures local { result.global ≡ false }
{
    Arg::new(alloc, name).long(name).action(ArgAction::SetTrue)
}

/// The words that are no options.
fn source<'a>(alloc: Global) -> Arg<'a>
    ensures rule { rule_of result ≡ source_rule }
    ensures local { result.global ≡ false }
{
    Arg::new(alloc, "source").action(ArgAction::Append)
}

/// The program before it has options: its words begin behind its name, and it adds no option of its own.
fn bare<'a>(alloc: Global) -> Command<'a>
    ensures { app_of result ≡ bare }
{
    Command::new(alloc, "cqual")
        .no_binary_name(true)
        .disable_help_flag(true)
        .disable_version_flag(true)
}

/// The options, the flags and the words that are neither.
pub fn command<'a>(alloc: Global) -> Result<Command<'a>, AllocError>
    ensures { IfOk result (λ c. app_of c ≡ tool) }
{
    bare(alloc)
        .arg(option(alloc, "lattice"))?
        .arg(option(alloc, "prelude"))?
        .arg(option(alloc, "check"))?
        .arg(option(alloc, "verify"))?
        .arg(option(alloc, "who"))?
        .arg(option(alloc, "generate"))?
        .arg(flag(alloc, "annotate"))?
        .arg(flag(alloc, "certify"))?
        .arg(flag(alloc, "signatures"))?
        .arg(source(alloc))
}
