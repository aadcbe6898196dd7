//! The lines of a file's call frames.
ghost use Rattle.std.specs.Prelude.{length};
ghost use Rattle.frame_tables.specs.Records.{Fits};

use frame_rows::{Cfa, Row, Rule};
use frame_tables::{Entry, Room, Table};
use std::io::{self, Write};

/// An offset of the CFA, as a number with a sign.
fn list_offset<W: Write>(out: &mut W, word: &str, offset: u64) -> io::Result<()> {
    let offset = offset.cast_signed();
    write!(out, "{word}{offset:+}")
}

/// The CFA: `REGISTER+OFFSET`, `exp` for an expression, `-` for none.
fn list_cfa<W: Write>(out: &mut W, cfa: Option<Cfa>) -> io::Result<()> {
    match cfa {
        None => write!(out, "-"),
        Some(Cfa::Based { register, offset }) => {
            write!(out, "{register}")?;
            list_offset(out, "", offset)
        }
        Some(Cfa::Said { .. }) => write!(out, "exp"),
    }
}

/// A rule: `c` or `v` and the offset, `s`, `r` and a register, `exp` or `vexp`.
fn list_rule<W: Write>(out: &mut W, rule: Rule) -> io::Result<()> {
    match rule {
        Rule::Undefined => write!(out, "u"),
        Rule::Saved(offset) => list_offset(out, "c", offset),
        Rule::Value(offset) => list_offset(out, "v", offset),
        Rule::Same => write!(out, "s"),
        Rule::Register(register) => write!(out, "r{register}"),
        Rule::Expression { .. } => write!(out, "exp"),
        Rule::ValueExpression { .. } => write!(out, "vexp"),
    }
}

/// `row ADDRESS CFA` and `REGISTER=RULE` for each register that has one, and `signed` where the return address is.
fn list_row<W: Write>(out: &mut W, address: u64, row: &Row) -> io::Result<()> {
    write!(out, "row {address} ")?;
    list_cfa(out, row.cfa)?;
    for (register, rule) in row.rules.iter().enumerate() {
        if let Some(rule) = rule {
            write!(out, " {register}=")?;
            list_rule(out, *rule)?;
        }
    }
    if row.signed {
        write!(out, " signed")?;
    }
    writeln!(out)
}

/// The rows of an entry at its first `most` addresses: one for each at which it is another than at the address before,
/// or why there is none.
fn list_rows<W: Write>(
    out: &mut W,
    table: &Table<'_>,
    entry: &Entry,
    most: u64,
    room: &mut Room,
) -> io::Result<()>
    requires { Fits (length table.now) entry.now }
{
    let mut last = Row::new();
    for behind in 0..entry.size.min(most) {
        let Some(address) = entry.begin.checked_add(behind) else {
            return Ok(());
        };
        match table.row(entry, address, room) {
            Ok(row) => {
                if behind == 0 || row != last {
                    list_row(out, address, &row)?;
                }
                last = row;
            }
            Err(error) => {
                let (at, flaw) = (error.at, error.flaw);
                return writeln!(out, "row {address} refused {at} {flaw:?}");
            }
        }
    }
    Ok(())
}

/// `entry BEGIN SIZE RETURN_REGISTER` of an entry, ` signal` behind it where it is a handler's frame, and its rows.
fn list_entry<W: Write>(
    out: &mut W,
    table: &Table<'_>,
    entry: &Entry,
    most: u64,
    room: &mut Room,
) -> io::Result<()>
    requires { Fits (length table.now) entry.now }
{
    let (begin, size, register) = (entry.begin, entry.size, entry.return_register);
    let signal = if entry.is_signal { " signal" } else { "" };
    writeln!(out, "entry {begin} {size} {register}{signal}")?;
    list_rows(out, table, entry, most, room)
}

/// The entries of a file and their rows: each `step`-th, at the first `most` addresses of each, or one line that says
/// why there are none.
pub(crate) fn list_frames<W: Write>(
    out: &mut W,
    bytes: &[u8],
    step: usize,
    most: u64,
) -> io::Result<()> {
    let table = match Table::of(bytes) {
        Ok(table) => table,
        Err(error) => return writeln!(out, "refused {error:?}"),
    };
    let mut room = Room::new();
    for number in 0..u32::MAX as usize {
        if number.checked_rem(step) != Some(0) {
            continue;
        }
        match table.entry(number) {
            Ok(None) => return Ok(()),
            Ok(Some(entry)) => list_entry(out, &table, &entry, most, &mut room)?,
            Err(error) => {
                let (at, flaw) = (error.at, error.flaw);
                writeln!(out, "entry refused {at} {flaw:?}")?;
            }
        }
    }
    Ok(())
}
