//! The parts of the line of each cause, as tables.
ghost use Rattle.std.specs.Prelude.{◌≡◌};
ghost use Rattle.std.specs.List.{concat};
ghost use Rattle.core_texts.specs.Parts.{said};
ghost use Rattle.salvage_report.specs.Lines.{cause_parts, record_parts};

use crate::cause::Cause;
use core_texts::{Part, Parts, parts};
use fault_lines::{core_parts, layout_parts, text_part};
use py_records::RecordsError;

/// Why records are refused. Their tables are counted from 0, in the order of the file.
fn record_parts<'a>(error: &'a RecordsError) -> Parts<'a>
    ensures { said result ≡ concat (record_parts error.now) }
{
    match error {
        RecordsError::NotToml => text_part("records: not TOML"),
        RecordsError::Shape { table, key } => parts(&[
            Part::Text("records: table "),
            Part::Decimal(*table),
            Part::Text(", key "),
            Part::Text(key.as_str()),
        ]),
        RecordsError::Unsound { table } => parts(&[
            Part::Text("records: table "),
            Part::Decimal(*table),
            Part::Text(" is unsound"),
        ]),
        RecordsError::Clash { first, second } => parts(&[
            Part::Text("records: tables "),
            Part::Decimal(*first),
            Part::Text(" and "),
            Part::Decimal(*second),
            Part::Text(" clash"),
        ]),
        RecordsError::OutOfMemory => text_part("out of memory"),
    }
}

/// Why there is no text.
pub(crate) fn cause_parts<'a>(cause: &'a Cause) -> Parts<'a>
    ensures { said result ≡ concat (cause_parts cause.now) }
{
    match cause {
        Cause::Core(error) => core_parts(error),
        Cause::Layouts(error) => layout_parts(error),
        Cause::Records(error) => record_parts(error),
        Cause::NoInterpreter { addresses, members } => parts(&[
            Part::Text("no interpreter found: "),
            Part::Decimal(*addresses),
            Part::Text(" addresses looked at, "),
            Part::Decimal(*members),
            Part::Text(" members walked"),
        ]),
        Cause::OutOfMemory => text_part("out of memory"),
    }
}
