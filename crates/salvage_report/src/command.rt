//! The top call.
ghost use Rattle.std.specs.Prelude.{◌≡◌, ◌≢◌, ◌≤◌, ◌↔◌, ◌⊎◌, List, ℕ, Option, None, Some, Ok, Err, IfOk, true};
ghost use Rattle.outside.specs.Counts.{Rose};
ghost use Rattle.core_words.specs.Answers.{AnswersWords};
ghost use Rattle.core_words.specs.Words.{texts};
ghost use Rattle.salvage_words.specs.Salvage.{Salvage, Wanted, salvage as salvages, words_asked};
ghost use Rattle.salvage_words.specs.Seen.{asked_by};
ghost use Rattle.salvage_report.specs.declared.cause.Cause.{Cause as Why};
ghost use Rattle.salvage_report.specs.Headline.{HasSalvaged, SaysLayout, SaysNames, SaysNative, SaysRegisters};
ghost use Rattle.salvage_report.specs.Headline.{SaysExceptions, SaysSignal, SaysStacks, SaysTasks, SaysValues};
ghost use Rattle.salvage_report.specs.Headline.{SaysHeap, SaysWaits};
ghost use Rattle.salvage_report.specs.Missing.{TellsRefused};
ghost use Rattle.salvage_report.specs.Outcome.{IsFaultless, IsOutcome, cause_status};
ghost use Rattle.salvage_report.specs.Run.{HasRunAfter, IsFew, TellsContents, pysalvage};
ghost use Rattle.program_run.specs.Ends.{HasOutcome, IsAnswered};

use crate::cause::{Cause, Trouble};
use crate::help::{help, program_version};
use crate::missing::after_telling;
use crate::records::{read_records, salvage_with};
use missed_reads::Misses;
use outside::{Files, Sink};
use program_run::{CoreFiles, finish};
use salvage_words::{ArgsError, Asked, read_words};
use std::alloc::Global;

/// The text that is asked for.
fn text_of<'a, F: Files>(
    alloc: Global,
    asked: &'a Asked,
    files: &mut F,
    misses: &mut Misses,
) -> Result<Vec<u8>, Trouble<'a>>
    requires few { IsFew (asked_by asked.now) }
    ensures told { (F.seen files.new).told ≡ (F.seen files.old).told }
    ensures comes { IsAnswered pysalvage (F.seen files.old) (F.seen files.new) (asked_by asked.now) result }
{
    match asked {
        Asked::Help => Ok(help(alloc)?),
        Asked::Version => Ok(program_version(alloc)?),
        Asked::Salvage(words) => {
            let records = read_records(alloc, &words.records, files)?;
            let (core, layouts) = (words.core.as_bytes(), words.layouts.as_bytes());
            let read = CoreFiles::read(alloc, core, layouts, &words.images, files)?;
            Ok(salvage_with(alloc, words, records, read, misses)?)
        }
    }
}

/// What the words come to: the text that they ask for, if they ask for anything.
fn outcome_of<'a, F: Files>(
    alloc: Global,
    asked: &'a Result<Asked, ArgsError>,
    files: &mut F,
    misses: &mut Misses,
) -> Result<Vec<u8>, Trouble<'a>>
    requires few { IfOk asked.now (λ wanted. IsFew (asked_by wanted)) }
    ensures told { (F.seen files.new).told ≡ (F.seen files.old).told }
    ensures comes { (asks : Option Wanted) → AnswersWords asked_by asks asked.now
        → HasOutcome pysalvage asks (F.seen files.old) (F.seen files.new) result }
{
    match asked {
        Ok(asked) => text_of(alloc, asked, files, misses),
        Err(ArgsError::Refused) => Err(Trouble::Words),
        Err(ArgsError::OutOfMemory) => Err(Trouble::Cause(Cause::OutOfMemory)),
    }
}

/// Does what the words ask for, and answers the status with which a program ends.
///
/// The words are those of `salvage_words::read_words`, the program's name first. They are judged. The files that they
/// name are read in order: the file of records, where there is one, the core's, the layout file and those of the
/// images. The records are checked, then the layouts. The process of the core is opened as for a report
/// (`core_stacks::report`) up to its layout. What is left of its interpreters is read over the memory of the core and
/// its images (`py_fronts::salvage`), with the sections that are asked for, of which none has a status of its own. The
/// whole text is written to `out`.
///
/// Where `--help` or `--version` is asked for alone, the text is the help, or the program's version, and no file is
/// read. Under each status but 0 one line, `pysalvage: ` and the cause, is written to `err`, and a fault of `err`
/// changes no status. That no other file is asked for is proved of reads that fail, which leave their name; no clause
/// says by how many calls `out` is written.
///
/// - 0: the whole text was written.
/// - 1: the process can't be opened, or of the addresses that were looked at none is an interpreter's that is shown.
///   Where `--missing` is asked for, an object that tells which reads were refused is written to `out`; a fault of that
///   write changes no status.
/// - 2: the words ask for nothing.
/// - 3: a file that they name can't be read, or is too long.
/// - 4: the text can't be written; a front of it may have been.
/// - 5: there is no memory left.
/// - 6: the file of records has a fault, as `py_records::RecordTables::from_toml` orders them, or the layout file has
///   one, as `py_layout::Layouts::from_toml` does.
pub fn run<F: Files, S: Sink, E: Sink>(
    alloc: Global,
    words: &[String],
    files: &mut F,
    out: &mut S,
    err: &mut E,
) -> u8
    // each status has its cause and its line. 0 comes only after the whole text was written, and then nothing is said.
    // Under another one but 4 nothing is written to `out`, but an object of refused reads under 1 where that is asked
    // for. The words are refused exactly where they ask for nothing, and 3 comes exactly where a file that they name
    // could not be read
    ensures runs { HasRunAfter (words_asked (texts words.now)) (F.seen files.old) (F.seen files.new)
        (S.seen out.old) (S.seen out.new) (E.seen err.old) (E.seen err.new) result }

    ensures statuses { result ≤ 6 }

    // where a core is asked for, the text is that of what is left of its interpreters over the memory of the core and
    // its images: by all the files that the words name, where the files and `out` tell their bytes
    ensures headline { (s : Salvage) → words_asked (texts words.now) ≡ Some (salvages s) → result ≡ 0
        → HasSalvaged s (F.seen files.old).told (S.seen out.old) (S.seen out.new) }

    // a section that is asked for is told, by the notes of the core
    ensures signal { (s : Salvage) → words_asked (texts words.now) ≡ Some (salvages s) → s.sections.signal ≡ true
        → result ≡ 0 → SaysSignal s (F.seen files.old).told (S.seen out.old) (S.seen out.new) }
    ensures registers { (s : Salvage) → words_asked (texts words.now) ≡ Some (salvages s) → s.sections.registers ≡ true
        → result ≡ 0 → SaysRegisters s (F.seen files.old).told (S.seen out.old) (S.seen out.new) }
    ensures layout { (s : Salvage) → words_asked (texts words.now) ≡ Some (salvages s)
        → s.sections.check_layout ≡ true
        → result ≡ 0 → SaysLayout s (F.seen files.old).told (S.seen out.old) (S.seen out.new) }

    // so is one that is read in the memory of the core and its images, or of its files
    ensures names { (s : Salvage) → words_asked (texts words.now) ≡ Some (salvages s) → s.sections.names ≡ true
        → result ≡ 0 → SaysNames s (F.seen files.old).told (S.seen out.old) (S.seen out.new) }

    ensures tasks { (s : Salvage) → words_asked (texts words.now) ≡ Some (salvages s) → s.sections.tasks ≡ true
        → result ≡ 0 → SaysTasks s (F.seen files.old).told (S.seen out.old) (S.seen out.new) }
    // where they are asked for, the exceptions that the threads that are shown raise and handle are told, and all that
    // these lead to
    ensures exceptions { (s : Salvage) → words_asked (texts words.now) ≡ Some (salvages s)
        → s.sections.exceptions ≡ true
        → result ≡ 0 → SaysExceptions s (F.seen files.old).told (S.seen out.old) (S.seen out.new) }

    ensures waits { (s : Salvage) → words_asked (texts words.now) ≡ Some (salvages s) → s.sections.waits ≡ true
        → result ≡ 0 → SaysWaits s (F.seen files.old).told (S.seen out.old) (S.seen out.new) }

    ensures native { (s : Salvage) → words_asked (texts words.now) ≡ Some (salvages s) → s.sections.native ≡ true
        → result ≡ 0 → SaysNative s (F.seen files.old).told (S.seen out.old) (S.seen out.new) }

    ensures stacks { (s : Salvage) → words_asked (texts words.now) ≡ Some (salvages s) → s.sections.native ≡ true
        → result ≡ 0 → SaysStacks s (F.seen files.old).told (S.seen out.old) (S.seen out.new) }

    ensures heap { (s : Salvage) → words_asked (texts words.now) ≡ Some (salvages s) → s.sections.heap ≡ true
        → result ≡ 0 → SaysHeap s (F.seen files.old).told (S.seen out.old) (S.seen out.new) }

    // where locals are asked for, each has its value
    ensures values { (s : Salvage) → words_asked (texts words.now) ≡ Some (salvages s) → s.locals ≢ 0
        → result ≡ 0 → SaysValues s (F.seen files.old).told (S.seen out.old) (S.seen out.new) }

    // where it is asked for, which reads were refused is told under status 1 too
    ensures missing { (s : Salvage) → words_asked (texts words.now) ≡ Some (salvages s) → s.sections.missing ≡ true
        → result ≡ 1 → TellsRefused (S.seen out.old) (S.seen out.new) }

    // where the files tell, each cause has its status, out of memory aside
    ensures only { (s : Salvage) (contents : List (List ℕ)) (cause : Why)
        → TellsContents (words_asked (texts words.now)) (F.seen files.old).told s contents
        → IsOutcome s contents (Err cause) → cause_status cause ≢ 5
        → (F.seen files.new).failed ≡ (F.seen files.old).failed
        → (result ≡ cause_status cause) ⊎ (result ≡ 5) }

    // where nothing is wrong with what they tell, an interpreter is shown, and no write fails, the text is written,
    // out of memory aside
    ensures complete { (s : Salvage) (contents : List (List ℕ))
        → TellsContents (words_asked (texts words.now)) (F.seen files.old).told s contents
        → IsFaultless s contents
        → (F.seen files.new).failed ≡ (F.seen files.old).failed
        → ¬ Rose (S.seen out.old).faults (S.seen out.new).faults
        → (result ≡ 0) ⊎ (result ≡ 5) }
{
    let asked = read_words(alloc, words);
    let mut misses = Misses::new(alloc);
    let outcome = outcome_of(alloc, &asked, files, &mut misses);
    let outcome = after_telling(alloc, &asked, &misses, outcome, out);
    finish(out, err, b"pysalvage: ", &outcome)
}
