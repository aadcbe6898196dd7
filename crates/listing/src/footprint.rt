//! The ranges that the stacks of a core are read from.
use core_stacks::PythonCoreDump;
use elf64_core::Name;
use image_memory::{CoreDump, Images, Mmap};
use py_layout::Layouts;
use py_stacks::Config;
use std::alloc::Global;
use std::fs;
use std::io::{self, Write};
use std::rt::Files;

/// The images that the words `PATH=FILE` name; none where a word has no equals sign.
pub(crate) fn images_of<R: Files + Alloc<A = Global>>(
    rt: &R,
    words: &[String],
) -> io::Result<Option<Images>> {
    let mut images = Images::new(rt.alloc());
    for word in words {
        let Some((path, file)) = word.as_str().split_once('=') else {
            return Ok(None);
        };
        let path = Name::of(rt.alloc(), path.as_bytes())?;
        let image = Mmap::of(rt.alloc(), fs::read(rt, file)?)?;
        images.push(path, image)?;
    }
    Ok(Some(images))
}

/// `START SIZE` for each read of the core's stacks, in order.
pub(crate) fn list_footprint<W: Write, R: Files + Alloc<A = Global>>(
    out: &mut W,
    rt: &R,
    text: &[u8],
    words: &[String],
) -> io::Result<()> {
    let [core, images @ ..] = words else {
        return writeln!(out, "refused");
    };
    let Some(images) = images_of(rt, images)? else {
        return writeln!(out, "refused");
    };
    let Ok(layouts) = Layouts::from_toml(rt.alloc(), text) else {
        return writeln!(out, "refused");
    };
    let Ok(core) = CoreDump::new(rt.alloc(), fs::read(rt, core.as_str())?) else {
        return writeln!(out, "refused");
    };
    let Ok(python) = PythonCoreDump::new(rt.alloc(), core, &images, &layouts) else {
        return writeln!(out, "refused");
    };
    let Ok((_, ranges)) = python.footprint(&Config::default()) else {
        return writeln!(out, "refused");
    };
    for range in &ranges {
        let (start, size) = (range.start, range.len);
        writeln!(out, "{start:x} {size:x}")?;
    }
    Ok(())
}
