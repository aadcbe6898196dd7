//! The top call.
ghost use Rattle.std.specs.Prelude.{◌≡◌, ◌≢◌, ◌≤◌, ◌↔◌, ◌⊎◌, IfOk, List, ℕ, Option, None, Some, Ok, Err};
ghost use Rattle.outside.specs.Counts.{Rose};
ghost use Rattle.core_words.specs.Answers.{AnswersWords};
ghost use Rattle.core_words.specs.Dump.{Dump};
ghost use Rattle.core_words.specs.Words.{Command as Asked, HasFewCores, Slim, command_of, dump, slim, texts};
ghost use Rattle.core_words.specs.Seen.{asked_command};
ghost use Rattle.program_run.specs.Ends.{HasOutcome, IsAnswered, ran};
ghost use Rattle.program_run.specs.Runs.{IsRun};
ghost use Rattle.core_report.specs.declared.cause.Cause.{Cause as Why};
ghost use Rattle.core_report.specs.Headline.{HasReported};
ghost use Rattle.core_report.specs.Outcome.{IsFaultless, IsOutcome, cause_status};
ghost use Rattle.core_report.specs.Run.{EndsItself, HasFewReads, MayBeSlim, TellsContents, pystacks};

use crate::cause::{Cause, Trouble};
use crate::dump_command::dump_over;
use crate::locate_command::locate_over;
use crate::merge_command::{MergeFiles, merge_over};
use crate::reach_command::reach_over;
use crate::sample_command::sample_over;
use crate::slim_command::slim_over;
use crate::triage_command::{TriageFiles, triage_over};
use crate::walk_command::{WalkFiles, walk_over};
use core_words::{ArgsError, Command, read_words};
use outside::{Files, Sink};
use program_run::{CoreFiles, finish};
use std::alloc::Global;

/// The text of a command.
fn text_of<'a, F: Files>(
    alloc: Global,
    command: &'a Command<'_>,
    files: &mut F,
) -> Result<Vec<u8>, Trouble<'a>>
    requires few { HasFewCores (asked_command command.now) }
    ensures told { (F.seen files.new).told ≡ (F.seen files.old).told }
    ensures comes { IsAnswered pystacks (F.seen files.old) (F.seen files.new) (asked_command command.now) result }
{
    match command {
        Command::Walk(words) => {
            let read = WalkFiles::read(alloc, words, files)?;
            Ok(walk_over(alloc, words, read)?)
        }
        Command::Dump(words) => {
            let (core, layouts) = (words.core.as_bytes(), words.layouts.as_bytes());
            let read = CoreFiles::read(alloc, core, layouts, &words.images, files)?;
            Ok(dump_over(alloc, words, read)?)
        }
        Command::Triage(words) => {
            let read = TriageFiles::read(alloc, words, files)?;
            triage_over(alloc, words, read, files)
        }
        Command::Reach(words) => {
            let (core, layouts) = (words.core.as_bytes(), words.layouts.as_bytes());
            let read = CoreFiles::read(alloc, core, layouts, &words.images, files)?;
            Ok(reach_over(alloc, words, read)?)
        }
        Command::Merge(words) => {
            let read = MergeFiles::read(alloc, words, files)?;
            Ok(merge_over(alloc, words, read)?)
        }
        Command::Locate(words) => {
            let (core, layouts) = (words.core.as_bytes(), words.layouts.as_bytes());
            let read = CoreFiles::read(alloc, core, layouts, &words.images, files)?;
            Ok(locate_over(alloc, words, read)?)
        }
        Command::Slim(words) => {
            let (core, layouts) = (words.core.as_bytes(), words.layouts.as_bytes());
            let read = CoreFiles::read(alloc, core, layouts, &words.images, files)?;
            Ok(slim_over(alloc, words, read)?)
        }
        Command::Sample(words) => Ok(sample_over(alloc, words)?),
    }
}

/// What the words come to: the text of their command, if they ask for one.
fn outcome_of<'a, F: Files>(
    alloc: Global,
    asked: &'a Result<Command<'_>, ArgsError>,
    files: &mut F,
) -> Result<Vec<u8>, Trouble<'a>>
    requires few { IfOk asked.now (λ command. HasFewCores (asked_command command)) }
    ensures told { (F.seen files.new).told ≡ (F.seen files.old).told }
    ensures comes { (asks : Option Asked) → AnswersWords asked_command asks asked.now
        → HasOutcome pystacks asks (F.seen files.old) (F.seen files.new) result }
{
    match asked {
        Ok(command) => text_of(alloc, command, files),
        Err(ArgsError::Refused) => Err(Trouble::Words),
        Err(ArgsError::OutOfMemory) => Err(Trouble::Cause(Cause::OutOfMemory)),
    }
}

/// Does what the words ask for, and answers the status with which a program ends.
///
/// The words are those of `core_words::read_words`, with no program's name before them. They are judged,
/// the files that they name are read in the order in which `core_words::Command` has them, the layouts are
/// checked, the work is done, and its whole text is written to `out`. Under each status but 0
/// one line, `pystacks: ` and the cause, is written to `err`, and a fault of `err` changes no status. That
/// no other file is asked for is proved of reads that fail, which leave their name; no clause says by how
/// many calls `out` is written.
///
/// - 0: the whole text was written.
/// - 1: the core gives no stacks. Of cores in groups such a cause is a line of the text.
/// - 2: the words ask for nothing.
/// - 3: a file that they name can't be read, or is too long.
/// - 4: the text can't be written; a front of it may have been.
/// - 5: there is no memory left.
/// - 6: the layout file has a fault, as `py_layout::Layouts::from_toml` orders them.
/// - 7: the frames of a thread were to be merged with native addresses, and there is no thread of that number, a line
///   of the addresses is none, maps overlap, a place in a file passes 2^64 - 1, or the steps don't fit the frames
///   (`core_merge::merge_thread`).
/// - 8: a slim core was asked for, and what the stacks need has more than 65533 pieces: never where they take no more
///   reads than that (`core_stacks::PythonCoreDump::slimmed`, `core_stacks::SlimmedError::TooManyPieces`).
/// - 9: what a thread's locals lead to was asked for, and there is no thread of that number, or they lead to more than
///   2^20 objects or 2^24 slots (`object_reach::reach`).
pub fn run<F: Files, S: Sink, E: Sink>(
    alloc: Global,
    words: &[String],
    files: &mut F,
    out: &mut S,
    err: &mut E,
) -> u8
    // each status has its cause and its line. 0 comes only after the whole text was written, and then nothing is said.
    // Under another one but 4 nothing is written to `out`. The words are refused exactly where they ask for nothing,
    // and 3 comes exactly where a file that they name could not be read
    ensures runs { IsRun pystacks (command_of (texts words.now))
        (ran (F.seen files.old) (F.seen files.new) (S.seen out.old) (S.seen out.new))
        (E.seen err.old) (E.seen err.new) result }

    ensures statuses { result ≤ 9 }

    // a dump ends with status 0 only after writing the text of a report whose threads are the whole chain, to null,
    // of the first candidate interpreter that passes the test over the memory of the core and its images, and in which
    // each thread's frames are its whole chain of callers, to null, less the skipped members, with their file and
    // function names: by all the files that the words name, where the files and `out` tell their bytes
    ensures headline { (d : Dump) → command_of (texts words.now) ≡ Some (dump d) → result ≡ 0
        → HasReported d (F.seen files.old).told (S.seen out.old) (S.seen out.new) }

    // where the files tell, each cause has its status, out of memory aside; of too many pieces the next clause speaks
    ensures only { (command : Asked) (contents : List (List ℕ)) (cause : Why)
        → TellsContents (command_of (texts words.now)) (F.seen files.old).told command contents
        → IsOutcome command contents (Err cause) → cause_status cause ≢ 5 → cause_status cause ≢ 8
        → (F.seen files.new).failed ≡ (F.seen files.old).failed
        → (result ≡ cause_status cause) ⊎ (result ≡ 5) }

    // which ranges are a footprint of stacks isn't settled: where some have too many pieces, others may have few
    ensures pieces { (command : Asked) (contents : List (List ℕ)) (cause : Why)
        → TellsContents (command_of (texts words.now)) (F.seen files.old).told command contents
        → IsOutcome command contents (Err cause) → cause_status cause ≡ 8
        → (F.seen files.new).failed ≡ (F.seen files.old).failed → MayBeSlim result }

    // where the stacks take no more reads than a slim core may have pieces, there are never too many
    ensures few { (s : Slim) (contents : List (List ℕ))
        → TellsContents (command_of (texts words.now)) (F.seen files.old).told (slim s) contents
        → HasFewReads s contents → result ≢ 8 }

    // where nothing is wrong with what they tell, and no write fails, the text is written, out of memory aside, unless
    // the command comes to a cause of its own: of walks, reports and cores in groups there is none
    ensures complete { (command : Asked) (contents : List (List ℕ))
        → TellsContents (command_of (texts words.now)) (F.seen files.old).told command contents
        → IsFaultless command contents
        → (F.seen files.new).failed ≡ (F.seen files.old).failed
        → ¬ Rose (S.seen out.old).faults (S.seen out.new).faults
        → (result ≡ 0) ⊎ ((result ≡ 5) ⊎ EndsItself command contents result) }
{
    let asked = read_words(alloc, words);
    let outcome = outcome_of(alloc, &asked, files);
    finish(out, err, b"pystacks: ", &outcome)
}
