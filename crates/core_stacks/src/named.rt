//! The version of a process by the names of its mapped files, and its layout.
ghost use Rattle.std.specs.Prelude.{◌≡◌, IfOk, IfSome};
ghost use Rattle.py_fields.specs.Sound.{IsSound};
ghost use Rattle.core_stacks.specs.Named.{NamesVersion, OrNamed, is_untold};

use image_memory::CoreDump;
use py_layout::{Layout, Layouts, Version};
use py_process::{CoreError, version_of_names};
use std::alloc::Global;

/// A version with the layout that covers it.
#[derive(Drop)]
pub(crate) struct Covered {
    pub(crate) version: Version,
    pub(crate) layout: Layout,
    /// Why nothing that is there tells the version, where the names of files alone do.
    pub(crate) untold: Option<CoreError>,
}

/// The version that the names of a core's mapped files tell (`py_process::version_of_names`), and the layout that
/// covers it, where one does: for a process of which nothing that is there tells its version. Its patch is not known,
/// and is 0. The one error is out of memory.
pub fn named_version(
    alloc: Global,
    core: &CoreDump,
    layouts: &Layouts,
) -> Result<Option<(Version, Layout)>, CoreError>
    ensures names { NamesVersion core.now layouts.now result }
    ensures sound { IfOk result (λ found. IfSome found (λ found. IsSound found.1)) }
{
    let Some(version) = version_of_names(alloc, core.maps())? else {
        return Ok(None);
    };
    match layouts.choose(&version) {
        Some(layout) => {
            let layout = *layout;
            Ok(Some((version, layout)))
        }
        None => Ok(None),
    }
}

/// Whether a cause says that nothing that is there tells the version.
fn is_untold(error: &CoreError) -> bool
    ensures { result ≡ is_untold error.now }
{
    matches!(
        error,
        CoreError::UnreadableVersion { .. } | CoreError::NoVersion
    )
}

/// The version that is told, with its layout; or else, where nothing that is there tells one, that of the names of the
/// core's mapped files, where one layout covers it. Else the error is the one that is handed in, or out of memory.
pub(crate) fn told_or_named(
    alloc: Global,
    core: &CoreDump,
    layouts: &Layouts,
    told: Result<(Version, Layout), CoreError>,
) -> Result<Covered, CoreError>
    requires sound { IfOk told (λ covered. IsSound covered.1) }
    ensures names { OrNamed core.now layouts.now told result }
    ensures sound { IfOk result (λ covered. IsSound covered.layout) }
{
    let error = match told {
        Ok((version, layout)) => {
            return Ok(Covered {
                version,
                layout,
                untold: None,
            });
        }
        Err(error) => error,
    };
    if !is_untold(&error) {
        return Err(error);
    }
    match named_version(alloc, core, layouts)? {
        Some((version, layout)) => Ok(Covered {
            version,
            layout,
            untold: Some(error),
        }),
        None => Err(error),
    }
}
