//! One step by tables.
ghost use Rattle.std.specs.Prelude.{◌≡◌, ◌≤◌, IfOk, length};
ghost use Rattle.process_memory.specs.Seen.{Reading};
ghost use Rattle.frame_tables.specs.Records.{Fits};
ghost use Rattle.frame_tables.specs.Tables.{Covers};
ghost use Rattle.core_unwind.specs.Places.{site_of};
ghost use Rattle.core_unwind.specs.Steps.{cut_by, IsStepBy, IsStepFrom, IsStepIn, IsStepTo, IsTableStep};

use crate::code_map::CodeMap;
use crate::end::{End, Limit, Refusal, UnwindError, table_end};
use crate::frame::Turn;
use crate::place::{CodePlace, Spot, spot_at};
use crate::state::State;
use crate::turn::{instruction_bytes, read_turn, stopped};
use crate::value::Rules;
use frame_tables::{Entry, Room, Table};
use process_memory::ProcessMemory;

/// Why an entry's instructions are not read, if they aren't.
fn cut_by(state: &State, entry: &Entry) -> Option<Limit>
    ensures { result ≡ cut_by state.now entry.now }
{
    if entry.is_signal && state.signals == 0 {
        return Some(Limit::Signals);
    }
    if state.bytes < instruction_bytes(entry) {
        return Some(Limit::Bytes);
    }
    None
}

/// A step by an entry, whose instructions are read.
fn step_to<P: ProcessMemory>(
    process: &mut P,
    code_bits: u64,
    room: &mut Room,
    state: &State,
    place: CodePlace,
    table: Table<'_>,
    entry: Entry,
) -> Result<Turn, UnwindError>
    requires fits { Fits (length table) entry }
    requires covered { Covers place.address entry }
    ensures { Reading 8480 (P.seen process.old) (P.seen process.new)
        (λ m. IfOk result (IsStepTo code_bits m state.now place table.entry entry)) }
{
    match table.row(&entry, place.address, room) {
        Ok(row) => {
            let rules = Rules { table, entry, row };
            read_turn(process, code_bits, state, place, &rules)
        }
        Err(error) => {
            let end = End::Refused(Refusal::Row(error));
            Ok(stopped(state, Some(place), end))
        }
    }
}

/// A step by an entry that covers the address.
fn step_from<P: ProcessMemory>(
    process: &mut P,
    code_bits: u64,
    room: &mut Room,
    state: &State,
    place: CodePlace,
    table: Table<'_>,
    entry: Entry,
) -> Result<Turn, UnwindError>
    requires fits { Fits (length table) entry }
    requires covered { Covers place.address entry }
    ensures { Reading 8480 (P.seen process.old) (P.seen process.new)
        (λ m. IfOk result (IsStepFrom code_bits m state.now place table.entry entry)) }
{
    if let Some(limit) = cut_by(state, &entry) {
        return Ok(stopped(state, Some(place), End::Cut(limit)));
    }
    step_to(process, code_bits, room, state, place, table, entry)
}

/// A step by a file's table.
fn step_by<P: ProcessMemory>(
    process: &mut P,
    code_bits: u64,
    room: &mut Room,
    state: &State,
    place: CodePlace,
    table: Table<'_>,
) -> Result<Turn, UnwindError>
    ensures { Reading 8480 (P.seen process.old) (P.seen process.new)
        (λ m. IfOk result (IsStepBy code_bits m state.now place table.entry)) }
{
    match table.find(place.address) {
        Ok(Some(entry)) => step_from(process, code_bits, room, state, place, table, entry),
        Ok(None) => {
            let end = End::NoTable { at: state.here() };
            Ok(stopped(state, Some(place), end))
        }
        Err(error) => {
            let end = End::Refused(Refusal::Record(error));
            Ok(stopped(state, Some(place), end))
        }
    }
}

/// A step in a file.
fn step_in<P: ProcessMemory>(
    process: &mut P,
    code_bits: u64,
    room: &mut Room,
    state: &State,
    spot: Spot<'_>,
) -> Result<Turn, UnwindError>
    ensures { Reading 8480 (P.seen process.old) (P.seen process.new)
        (λ m. IfOk result (IsStepIn code_bits m state.now (site_of spot.entry))) }
{
    match Table::of(spot.bytes) {
        Ok(table) => step_by(process, code_bits, room, state, spot.place, table),
        Err(error) => {
            let end = table_end(error, state.here());
            Ok(stopped(state, Some(spot.place), end))
        }
    }
}

/// One step from a state by tables alone: the frame there, and the state of its caller, or how the stack ends. At most
/// 8480 reads.
pub(crate) fn read_table_step<P: ProcessMemory>(
    process: &mut P,
    mappings: &CodeMap<'_>,
    code_bits: u64,
    room: &mut Room,
    state: &State,
) -> Result<Turn, UnwindError>
    ensures { Reading 8480 (P.seen process.old) (P.seen process.new)
        (λ m. IfOk result (IsTableStep mappings.now code_bits m state.now)) }
{
    match spot_at(mappings, state.here()) {
        Ok(spot) => step_in(process, code_bits, room, state, spot),
        Err(end) => Ok(stopped(state, None, end)),
    }
}
