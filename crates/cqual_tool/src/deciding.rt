//! From the words to the text that is written.

ghost use Rattle.std.specs.Prelude.{◌≡◌, IfOk, map, string_bytes};
ghost use Rattle.outside.specs.Readings.{since, stands};
ghost use Rattle.cqual_words.specs.Asked.{AsksMade, NamesSources, task_of};
ghost use Rattle.cqual_tool.specs.Texts.{usage_line};
ghost use Rattle.cqual_tool.specs.Sending.{Sends};
ghost use Rattle.cqual_tool.specs.Outcome.{IsDecided};
ghost use Rattle.cqual_tool.specs.Answering.{TaskAnswered};
ghost use Rattle.cqual_tool.specs.Running.{Ran};

use crate::answer::Answer;
use crate::making::made_answer;
use crate::reading::answer;
use crate::sending::send;
use crate::status::Status;
use crate::taking::Failure;
use crate::words::of_files;
use cqual_words::{Asked, meaning};
use outside::{Files, Sink};
use std::alloc::Global;

/// What is written for words without a meaning.
const USAGE: &[u8] =
    b"usage: cqual --lattice FILE [--prelude FILE] [--annotate | --check REPORT] SOURCE...\n";

/// Writes a text and gives the status that it belongs to, or that a write failed.
fn finish<O: Sink>(out: &mut O, status: Status, text: &[u8]) -> Status
    ensures sent { Sends (O.written out.old) (O.written out.new) (O.failed out.old)
        (O.failed out.new) status text.now result }
{
    match send(out, text) {
        Ok(()) => status,
        Err(_) => Status::WriteFault,
    }
}

/// The answer for what is asked.
fn answer_for<F: Files>(alloc: Global, asked: &Asked<'_>, files: &mut F) -> Result<Answer, Failure>
    requires made { AsksMade asked.now }
    requires sources { NamesSources asked.now }
    ensures reads { TaskAnswered
        (stands (F.log files.old) (F.failed files.old) (F.contents files.old))
        (stands (F.log files.new) (F.failed files.new) (F.contents files.new))
        (task_of asked.now) result }
    ensures decided { IfOk result (λ answer. IsDecided answer.status) }
{
    match asked {
        Asked::Ask(question, names) => answer(alloc, &of_files(names, *question), files),
        Asked::Generate(number) => Ok(made_answer(alloc, *number)?),
    }
}

/// Reads the files that the words name, decides, and writes the whole text of the answer.
pub fn decide_and_write<F: Files, O: Sink>(
    alloc: Global,
    words: &[String],
    files: &mut F,
    out: &mut O,
) -> Status
    ensures { Ran (map string_bytes words.now)
        (stands (F.log files.old) (F.failed files.old) (F.contents files.old))
        (stands (F.log files.new) (F.failed files.new) (F.contents files.new))
        (O.written out.old) (O.written out.new) (O.failed out.old) (O.failed out.new) result
        (since (F.log files.old) (F.log files.new)) }
{
    match meaning(alloc, words) {
        Ok(Some(asked)) => match answer_for(alloc, &asked, files) {
            Ok(answer) => finish(out, answer.status, &answer.text),
            Err(Failure::ReadFault) => Status::ReadFault,
            Err(Failure::NoMemory) => Status::NoMemory,
        },
        Ok(None) => finish(out, Status::BadWords, USAGE),
        Err(_) => Status::NoMemory,
    }
}
