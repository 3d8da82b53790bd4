//! The tool as one call.

ghost use Rattle.std.specs.Prelude.{◌≡◌, ◌≢◌, ◌⊎◌, ◌↔◌, ◌+◌, ◌++◌, ◌<◌, ◌≤◌, ℕ, List, All, IfSome, None, Some, map, true, string_bytes};
ghost use Rattle.outside.specs.Readings.{Agrees, AreWhole, ReadsAs, broken_in, has_broken, since};
ghost use Rattle.cqual_words.specs.Words.{Generate, meaning_of};
ghost use Rattle.cqual_tool.specs.declared.status.Status.TheVariants as Statuses;
ghost use Rattle.cqual_tool.specs.Inputs.{Inputs, asked, inputs_in};
ghost use Rattle.cqual_tool.specs.Outcome.{Answers, IsAnswer, Outcome, StartsFor};
ghost use Rattle.cqual_tool.specs.Sending.{AppendsFront};

use crate::deciding::decide_and_write;
use crate::status::Status;
use outside::{Files, MemFiles, MemSink, Sink};
use std::alloc::Global;

/// Reads the files that the words name, decides, and writes the whole text of the answer.
///
/// The words are those after the program's name, in any order: `--lattice FILE [--prelude FILE] [--annotate | --check REPORT |
/// --certify | --verify CERT | --who NAME | --signatures] SOURCE...`, or `--generate N` alone, with N from 1 to 1000. There are 1 to 256
/// sources, and one with `--annotate`; with `--signatures` there is no prelude. Nothing is written before everything is decided.
///
/// Its clauses speak of the readings of this call: those that came to the log of the files. So they hold of real files too, of
/// which nothing is known but the bytes that they gave.
pub fn run<F: Files, O: Sink>(alloc: Global, words: &[String], files: &mut F, out: &mut O) -> Status
    // The readings stand behind those that were there. They are of the files that the words name, in their order, each before
    // the last read to its end; and each that broke is of one call that failed.
    ensures behind { F.log files.new
        ≡ F.log files.old ++ since (F.log files.old) (F.log files.new) }
    ensures there { (inputs : Inputs)
        × ReadsAs (asked (map string_bytes words.now) inputs)
        (since (F.log files.old) (F.log files.new)) }
    ensures in_turn { AreWhole (since (F.log files.old) (F.log files.new)) }
    ensures failed { F.failed files.new
        ≡ F.failed files.old + broken_in (since (F.log files.old) (F.log files.new)) }

    // Where no read and no write failed and memory was found, the status and the bytes that were written are those of the
    // words and of the whole contents of the files: of all files that give these readings.
    ensures outcome { IsAnswer result → (text : List ℕ)
        × (O.written out.new ≡ O.written out.old ++ text)
        × Answers (map string_bytes words.now)
        (since (F.log files.old) (F.log files.new)) result text }

    // After a write that failed, a front of the text of some such answer was written.
    ensures front { result ≡ Statuses.WriteFault → (status : Statuses.the_data) × (text : List ℕ)
        × AppendsFront (O.written out.old) (O.written out.new) text
        × Answers (map string_bytes words.now)
        (since (F.log files.old) (F.log files.new)) status text }
    ensures write_fault { result ≡ Statuses.WriteFault → O.failed out.new ≡ O.failed out.old + 1 }
    ensures writes { result ≢ Statuses.WriteFault → O.failed out.new ≡ O.failed out.old }

    // It answers a read fault exactly where a read failed. After it, or where memory ran out, nothing was written.
    ensures read_fault { (result ≡ Statuses.ReadFault)
        ↔ (has_broken (since (F.log files.old) (F.log files.new)) ≡ true) }
    ensures no_read { result ≡ Statuses.ReadFault → O.written out.new ≡ O.written out.old }
    ensures no_memory { result ≡ Statuses.NoMemory → O.written out.new ≡ O.written out.old }

    ensures bad_words { result ≡ Statuses.BadWords →
        meaning_of (map string_bytes words.now) ≡ None }
    ensures no_meaning { meaning_of (map string_bytes words.now) ≡ None →
        (result ≡ Statuses.BadWords) ⊎ ((result ≡ Statuses.WriteFault)
        ⊎ (result ≡ Statuses.NoMemory)) }
    ensures started { StartsFor (map string_bytes words.now) result
        (since (F.log files.old) (F.log files.new)) }

    // Where the tool makes the source itself, no file is read, and so no read fails.
    ensures generated { (number : ℕ) →
        meaning_of (map string_bytes words.now) ≡ Some (Generate number) →
        (F.log files.new ≡ F.log files.old) × (result ≢ Statuses.ReadFault) }

    // Where no read and no write failed, there is such an answer, or memory ran out.
    ensures complete { F.failed files.new ≡ F.failed files.old →
        O.failed out.new ≡ O.failed out.old →
        result ≢ Statuses.NoMemory → IsAnswer result }

    // What is told of the files stays as it was, and agrees with what was read.
    ensures contents { F.contents files.new ≡ F.contents files.old }
    ensures agrees { IfSome (F.contents files.old)
        (λ all. All (Agrees all) (since (F.log files.old) (F.log files.new))) }
{
    decide_and_write(alloc, words, files, out)
}

/// The same over files and a sink in memory, whose contents are known.
pub fn run_in_memory(
    alloc: Global,
    words: &[String],
    files: &mut MemFiles,
    out: &mut MemSink,
) -> Status
    // The readings are those of the files.
    ensures behind { files.new.log ≡ files.old.log ++ since files.old.log files.new.log }
    ensures reads { ReadsAs (asked (map string_bytes words.now)
        (inputs_in files.old.files (map string_bytes words.now)))
        (since files.old.log files.new.log) }
    ensures started { StartsFor (map string_bytes words.now) result
        (since files.old.log files.new.log) }

    // Where no read and no write failed and memory was found, the status and the bytes that were written are those of the
    // words and of the whole contents of the files.
    ensures outcome { IsAnswer result → (text : List ℕ) × Outcome (map string_bytes words.now)
        (inputs_in files.old.files (map string_bytes words.now)) result text
        × (out.new.written ≡ out.old.written ++ text) }

    // After a write that failed, a front of the text of some such answer was written.
    ensures front { result ≡ Statuses.WriteFault → (status : Statuses.the_data) × (text : List ℕ)
        × Outcome (map string_bytes words.now)
        (inputs_in files.old.files (map string_bytes words.now)) status text
        × AppendsFront out.old.written out.new.written text }
    ensures write_fault { result ≡ Statuses.WriteFault → out.old.failed < out.new.failed }

    // After a read that failed, or where memory ran out, nothing was written.
    ensures read_fault { result ≡ Statuses.ReadFault → files.old.failed < files.new.failed }
    ensures no_read { result ≡ Statuses.ReadFault → out.new.written ≡ out.old.written }
    ensures no_memory { result ≡ Statuses.NoMemory → out.new.written ≡ out.old.written }

    ensures bad_words { result ≡ Statuses.BadWords →
        meaning_of (map string_bytes words.now) ≡ None }
    ensures no_meaning { meaning_of (map string_bytes words.now) ≡ None →
        (result ≡ Statuses.BadWords) ⊎ ((result ≡ Statuses.WriteFault)
        ⊎ (result ≡ Statuses.NoMemory)) }
    ensures fails { files.old.failed ≤ files.new.failed }
    ensures writes { out.old.failed ≤ out.new.failed }

    // Where no read and no write failed, there is such an answer, or memory ran out.
    ensures complete { (files.old.failed < files.new.failed → ⊥) →
        (out.old.failed < out.new.failed → ⊥) →
        (result ≡ Statuses.NoMemory → ⊥) → IsAnswer result }
    ensures contents { files.new.files ≡ files.old.files }
{
    run(alloc, words, files, out)
}
