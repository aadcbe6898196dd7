//! The calls on cores that no command makes, each once with ample memory: a report that is counted, the text of the
//! stacks of an opened process, and a process whose addresses are handed in; and what no command asks for.
ghost use Rattle.std.specs.Prelude.{◌≡◌, ◌<◌};

use crate::image_tests::built;
use core_stacks::{PythonCoreDump, SlimmedError, report_counted};
use elf64_core::{Name, Steps};
use image_memory::{CoreDump, Images, Mmap};
use outside::MemorySink;
use py_layout::{Layout, Layouts, Version};
use py_process::{CoreError, Report};
use py_stacks::{Addresses, Config, StackTrace};
use std::alloc::Global;
use std::marker::Brand;
use std::sync::ledger::{Blank, Ledger};
use std::test::Fail;

fn layouts(alloc: Global) -> Result<Layouts, Fail> {
    let list = vec![in alloc; Layout::sample()]?;
    Ok(Layouts::of(alloc, list)?)
}

/// The image under the path that the core's file table has.
fn images(alloc: Global, image: &[u8]) -> Result<Images, Fail> {
    let image = Mmap::of(alloc, image.to_vec(alloc)?)?;
    let mut images = Images::new(alloc);
    images.push(Name::of(alloc, b"/usr/bin/python3")?, image)?;
    Ok(images)
}

/// What is printed of the core's traces.
const TEXT: &[u8] = b"Signal 6: core
Process 1: python3
Python v3.9.0

Thread 0x7F00 (gil)
    f (a.py:5)
    <module> (a.py:1)
";

const ADDRESSES: Addresses = Addresses {
    interpreter: 0x60_0000,
    lock: 0x50_0238,
};

/// The report of the core, whose reads are counted on a counter of a ledger.
fn counted<L: Ledger>(alloc: Global, blank: Blank) -> Result<Report, Fail>
    requires name { blank.name ≡ L.name }
    requires parts { blank.parts ≡ L.parts }
    requires some { 0 < L.parts }
{
    let mut steps = Steps::<L>::new(blank);
    let built = built(alloc)?;
    let (images, layouts) = (images(alloc, &built.image)?, layouts(alloc)?);
    let config = Config::default();
    Ok(report_counted(alloc, built.core, &images, &layouts, &config, &mut steps)?)
}

#[test]
fn a_report_that_is_counted(rt: HostRuntime) -> Result<(), Fail> {
    let counted = counted::<Brand>(rt.alloc(), Blank::new(1))?;
    assert!(rt; counted.traces.len() == 1);
    Ok(())
}

/// The core, and the image that it mapped.
fn core_and_images(alloc: Global) -> Result<(CoreDump, Images), Fail> {
    let built = built(alloc)?;
    let images = images(alloc, &built.image)?;
    let core = CoreDump::new(alloc, built.core)?;
    Ok((core, images))
}

/// The process of the core, opened.
fn opened(alloc: Global, layouts: &Layouts) -> Result<PythonCoreDump, Fail> {
    let (core, images) = core_and_images(alloc)?;
    Ok(PythonCoreDump::new(alloc, core, &images, layouts)?)
}

fn stack(python: &PythonCoreDump) -> Result<Vec<StackTrace>, Fail> {
    Ok(python.get_stack(&Config::default())?)
}

/// What is printed of its stacks.
fn printed(alloc: Global, python: &PythonCoreDump) -> Result<MemorySink, Fail> {
    let traces = stack(python)?;
    let mut out = MemorySink::new(alloc, 1000, Vec::new(alloc))?;
    python.print_traces(&mut out, b"core", &traces, &Config::default())?;
    Ok(out)
}

#[test]
fn a_process_that_is_opened(rt: HostRuntime) -> Result<(), Fail> {
    let layouts = layouts(rt.alloc())?;
    let python = opened(rt.alloc(), &layouts)?;
    assert!(rt; printed(rt.alloc(), &python)?.bytes() == TEXT);
    Ok(())
}

/// The process of the core, by addresses that are handed in.
fn opened_at(alloc: Global, addresses: Addresses) -> Result<PythonCoreDump, Fail> {
    let (core, _images) = core_and_images(alloc)?;
    let version = Version::of_numbers(alloc, 3, 9, 0)?;
    let layouts = layouts(alloc)?;
    Ok(PythonCoreDump::with_addresses(alloc, core, &layouts, version, addresses)?)
}

#[test]
fn addresses_that_are_handed_in(rt: HostRuntime) -> Result<(), Fail> {
    let python = opened_at(rt.alloc(), ADDRESSES)?;
    assert!(rt; stack(&python)?.len() == 1);
    Ok(())
}

/// Native frames are asked for, which no core gives.
fn native() -> Config {
    Config {
        native: true,
        ..Config::default()
    }
}

fn has_no_ranges(python: &PythonCoreDump) -> bool {
    python.footprint(&native()).err() == Some(CoreError::NativeUnsupported)
}

fn has_no_slim_core(python: &PythonCoreDump) -> bool {
    python.slimmed(&native()).err() == Some(SlimmedError::Core(CoreError::NativeUnsupported))
}

#[test]
fn native_frames_have_neither_ranges_nor_a_slim_core(rt: HostRuntime) -> Result<(), Fail> {
    let layouts = layouts(rt.alloc())?;
    let python = opened(rt.alloc(), &layouts)?;
    assert!(rt; has_no_ranges(&python) && has_no_slim_core(&python));
    Ok(())
}
