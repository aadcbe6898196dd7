//! How many reads of a process's memory a report takes.
ghost use Rattle.py_process.specs.Reports.{NotesTell};

use crate::footprint::images_of;
use core_stacks::{Loaded, load, process_info, report_over};
use image_memory::Images;
use process_memory::{ProcessMemory, ReadFault};
use py_layout::Layouts;
use py_stacks::Config;
use std::alloc::Global;
use std::fs;
use std::io::{self, Write};
use std::rt::Files;

/// A memory that counts, as the program runs, how many reads are asked of it.
#[derive(Drop)]
struct Tally<P> {
    inner: P,
    count: u64,
}

impl<P: ProcessMemory> ProcessMemory for Tally<P> {
    ghost seen = { λ t. P.seen t.inner };

    fn read(&mut self, addr: u64, buf: &mut [u8]) -> Result<(), ReadFault> {
        self.count = self.count.saturating_add(1);
        self.inner.read(addr, buf)
    }

    fn copy(&mut self, alloc: Global, addr: u64, len: u64) -> Result<Vec<u8>, ReadFault> {
        self.count = self.count.saturating_add(1);
        self.inner.copy(alloc, addr, len)
    }
}

/// Whether the report of a core comes, and how many reads it takes, or was refused by; none where the process isn't
/// known.
fn reported(
    alloc: Global,
    loaded: Loaded,
    images: &Images,
    layouts: &Layouts,
) -> Option<(bool, u64)>
    requires notes { NotesTell loaded.dump.core loaded.notes.signal loaded.notes.process }
{
    let Loaded { dump, notes } = loaded;
    let Ok(info) = process_info(alloc, dump.core(), images) else {
        return None;
    };
    let mut tally = Tally {
        inner: dump.view(),
        count: 0,
    };
    let config = Config::default();
    let report = report_over(
        alloc,
        dump.core(),
        notes,
        &info,
        &mut tally,
        layouts,
        &config,
    );
    Some((report.is_ok(), tally.count))
}

/// `report` or `none`, and whether it took no more reads than the first word says.
pub(crate) fn list_reads<W: Write, R: Files + Alloc<A = Global>>(
    out: &mut W,
    rt: &R,
    text: &[u8],
    words: &[String],
) -> io::Result<()> {
    let [most, core, images @ ..] = words else {
        return writeln!(out, "refused");
    };
    let (Ok(most), Some(images)) = (most.parse::<u64>(), images_of(rt, images)?) else {
        return writeln!(out, "refused");
    };
    let Ok(layouts) = Layouts::from_toml(rt.alloc(), text) else {
        return writeln!(out, "refused");
    };
    let Ok(loaded) = load(rt.alloc(), fs::read(rt, core.as_str())?, &images) else {
        return writeln!(out, "refused");
    };
    let Some((is_there, count)) = reported(rt.alloc(), loaded, &images, &layouts) else {
        return writeln!(out, "refused");
    };
    let answer = if is_there { "report" } else { "none" };
    if count <= most {
        writeln!(out, "{answer}, in {most} reads or fewer")
    } else {
        writeln!(out, "{answer}, in {count} reads")
    }
}
