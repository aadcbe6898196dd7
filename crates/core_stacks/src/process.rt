//! The process of a core, before its interpreters are looked for.
ghost use Rattle.std.specs.Prelude.{IfOk};
ghost use Rattle.py_fields.specs.Sound.{IsSound};
ghost use Rattle.core_stacks.specs.Named.{OpensOrNamed};
ghost use Rattle.core_stacks.specs.Process.{OpensProcess};

use crate::finding::{process_info, read_version};
use crate::named::{Covered, told_or_named};
use crate::notes::Notes;
use crate::reporting::{Loaded, load};
use image_memory::{BackedDump, Images, MapTable};
use py_layout::{Layout, Layouts, Version};
use py_process::{CoreError, PythonProcessInfo};
use std::alloc::Global;

/// The process of a core, opened to ask what is in it.
#[derive(Drop)]
pub struct Process {
    /// The memory of the core and its images.
    pub dump: BackedDump,
    /// What the core's notes tell.
    pub notes: Notes,
    /// What is known of the process by its maps and the images.
    pub info: PythonProcessInfo<MapTable>,
    /// The version of Python that ran.
    pub version: Version,
    /// The layout that covers that.
    pub layout: Layout,
    /// Why nothing that is there tells the version, where the names of mapped files alone do: `UnreadableVersion` or
    /// `NoVersion`. Of such a version the patch is not known, and is 0.
    pub untold: Option<CoreError>,
}

/// Opens the process of a core, with the images that it had mapped, each under the path that the core has for it. No
/// interpreter is looked for.
///
/// The error is the first of these: those of `load`; those of `process_info`; `UnreadableVersion` and `NoVersion`
/// (`py_process::get_python_version`); `UnsupportedVersion`, where no layout covers the version. Else it is want of
/// memory.
pub fn open(
    alloc: Global,
    bytes: Vec<u8>,
    images: &Images,
    layouts: &Layouts,
) -> Result<Process, CoreError>
    ensures opens { OpensProcess bytes.items images.now layouts.now result }
    ensures sound { IfOk result (λ process. IsSound process.layout) }
{
    let loaded = load(alloc, bytes, images)?;
    let Loaded { dump, notes } = loaded;
    let info = process_info(alloc, dump.core(), images)?;
    let mut view = dump.view();
    let (version, layout) = read_version(alloc, &info, &mut view, layouts)?;
    Ok(Process {
        dump,
        notes,
        info,
        version,
        layout,
        untold: None,
    })
}

/// Opens the process of a core as `open` does; and where nothing that is there tells its version, by the names of its
/// mapped files, as `named_version` has them (`Process::untold`): a core that was cut may lack what tells it.
///
/// The errors are those of `open`: `UnreadableVersion` and `NoVersion` where no layout covers what names tell, or they
/// tell none.
pub fn open_named(
    alloc: Global,
    bytes: Vec<u8>,
    images: &Images,
    layouts: &Layouts,
) -> Result<Process, CoreError>
    ensures opens { OpensOrNamed bytes.items images.now layouts.now result }
    ensures sound { IfOk result (λ process. IsSound process.layout) }
{
    let loaded = load(alloc, bytes, images)?;
    let Loaded { dump, notes } = loaded;
    let info = process_info(alloc, dump.core(), images)?;
    let mut view = dump.view();
    let told = read_version(alloc, &info, &mut view, layouts);
    let covered = told_or_named(alloc, dump.core(), layouts, told)?;
    let Covered {
        version,
        layout,
        untold,
    } = covered;
    Ok(Process {
        dump,
        notes,
        info,
        version,
        layout,
        untold,
    })
}
