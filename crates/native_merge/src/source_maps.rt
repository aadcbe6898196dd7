//! Frames in C files that Cython has written, in the files that these come from.
ghost use Rattle.std.specs.Prelude.{◌≡◌, ◌⊎◌, true, false, option_map, IsOk, OnOk, OnErr, None};
ghost use Rattle.std.specs.FinMap as map;
ghost use Rattle.native_merge.specs.KeptMaps.{AddsMap, KeepsMap, asked_line, is_c_file, module_of, placed, translated};
ghost use Rattle.native_merge.specs.KeptMaps.{wants_map};
ghost use Rattle.native_merge.specs.SourceMaps.{looked_up};
ghost use Rattle.native_merge.specs.Sources.{Stay};

use crate::source_map::{FileMap, read_map};
use crate::{SourceMap, Sources};
use elf64_core::Text;
use py_stacks::Frame;
use std::alloc::{AllocError, Global};
use std::collections::BTreeMap;
use std::marker::Model;

/// The maps of C files, kept by the files' names.
///
/// Contracts see a finite map: under the name of a file its map, or that it has none.
#[derive(Debug, Drop)]
pub struct SourceMaps {
    alloc: Global,
    maps: BTreeMap<Text, Option<SourceMap>>,
}

impl Model for SourceMaps {
    ghost use Rattle.std.specs.FinMap as map;
    ghost use Rattle.native_merge.specs.KeptMaps.{Kept};
    ghost use Rattle.std.specs.Coded.{coded_ℕ, coded_list, coded_option};
    ghost use Rattle.native_merge.specs.contracts.source_map.SourceMark as mark;

    ghost Value = { Kept };

    ghost coded = { map.code (coded_list coded_ℕ) (coded_option (coded_list mark.the_row.coded)) };

    ghost use Rattle.std.specs.BTreeMap.{IsOrdered};
    ghost use Rattle.native_merge.specs.KeptMaps.{file_order};

    ghost view = { λ m. map.from_sorted m.maps.entries };

    ghost invariant = { λ m. IsOrdered file_order m.maps };
}

fn is_c_file(name: &str) -> bool
    ensures { result ≡ is_c_file name.now }
{
    name.ends_with(".c") || name.ends_with(".cpp")
}

/// The line at which a frame is looked up.
fn asked_line(frame: &Frame) -> Option<u32>
    ensures { result ≡ asked_line frame.now }
{
    if !is_c_file(frame.filename.as_str()) || frame.line <= 0 {
        return None;
    }
    Some(frame.line as u32)
}

/// The name of a frame's module.
fn module_of(frame: &Frame) -> Option<&str>
    ensures { option_map (λ name. name.now) result ≡ module_of frame.now }
{
    match &frame.module {
        Some(name) => Some(name.as_str()),
        None => None,
    }
}

/// Puts a frame where a map tells that its line comes from.
fn place(alloc: Global, map: &SourceMap, line: u32, frame: &mut Frame) -> Result<(), AllocError>
    ensures placed { OnOk result (frame.new ≡ placed frame.old (looked_up line map.now)) }
    ensures err { OnErr result (frame.new ≡ frame.old) }
{
    let Some((file, number)) = map.lookup(line) else {
        return Ok(());
    };
    frame.filename = Text::of(alloc, file)?;
    frame.line = i32::try_from(number).unwrap_or(0);
    Ok(())
}

impl SourceMaps {
    /// Nothing is kept.
    pub fn new(alloc: Global) -> SourceMaps
        ensures { result ≡ map.empty }
    {
        SourceMaps {
            alloc,
            maps: BTreeMap::new(alloc),
        }
    }

    /// What is kept for a file.
    fn kept(&self, filename: &Text) -> Option<&Option<SourceMap>>
        ensures { option_map (λ kept. kept.now) result ≡ map.get self.now filename.now }
    {
        self.maps.get(filename)
    }

    /// Keeps the map of a file, or none.
    fn keep(&mut self, filename: Text, answer: Option<SourceMap>) -> Result<(), AllocError>
        ensures kept { OnOk result (self.new ≡ map.insert self.old filename answer) }
        ensures err { OnErr result (self.new ≡ self.old) }
    {
        self.maps.insert(filename, answer)?;
        Ok(())
    }

    /// Keeps the map of a frame's file, or none, where the file can be read.
    fn read<F: Sources>(&mut self, sources: &mut F, frame: &Frame) -> Result<(), AllocError>
        ensures adds { OnOk result
            (AddsMap (F.seen sources.old) (F.seen sources.new) frame.now self.old self.new) }
        ensures err { OnErr result (self.new ≡ self.old) }
        ensures stay { Stay (F.seen sources.old) (F.seen sources.new) }
    {
        let filename = frame.filename.share()?;
        match read_map(self.alloc, sources, filename.as_str(), module_of(frame))? {
            FileMap::Known(map) => self.keep(filename, map),
            FileMap::Unread => Ok(()),
        }
    }

    /// Puts a frame of a C file where the code of Cython's stands that it comes from.
    ///
    /// A frame is looked up whose line is above 0 and whose file's name ends in `.c` or `.cpp`. Where the file's map
    /// tells of the line (`SourceMap::lookup`), the frame gets that file and that line, or line 0 where it is above
    /// 2^31 - 1. All else of it stays, and so does each other frame. The rule is py-spy's.
    ///
    /// The map of a file for which nothing is kept is made as by `SourceMap::new`, with the frame's module, and kept,
    /// or that there is none. So it is made once for a file, whatever module later frames have. For a file that could
    /// not be read nothing is kept: the frame stays, and a later one asks again.
    ///
    /// The one error is out of memory, which comes only for a frame that is looked up. It leaves the frame as it
    /// was, and the file's map may have been kept.
    pub fn translate<F: Sources>(
        &mut self,
        sources: &mut F,
        frame: &mut Frame,
    ) -> Result<(), AllocError>
        ensures frame { OnOk result (frame.new ≡ translated self.new frame.old) }
        ensures other { asked_line frame.old ≡ None → IsOk result }

        // a map is made where it is wanted, and then what could be read is kept
        ensures adds { wants_map self.old frame.old ≡ true → OnOk result
            (AddsMap (F.seen sources.old) (F.seen sources.new) frame.old self.old self.new) }
        ensures same_maps { wants_map self.old frame.old ≡ false → self.new ≡ self.old }
        ensures same_sources { wants_map self.old frame.old ≡ false → sources.new ≡ sources.old }
        ensures stay { Stay (F.seen sources.old) (F.seen sources.new) }

        // an error leaves the frame, and a map may have been kept
        ensures err { OnErr result (frame.new ≡ frame.old) }
        ensures err_maps { OnErr result
            ((self.new ≡ self.old) ⊎ KeepsMap (F.seen sources.old) frame.old self.old self.new) }
    {
        let Some(line) = asked_line(frame) else {
            return Ok(());
        };
        if self.kept(&frame.filename).is_none() {
            self.read(sources, frame)?;
        }
        match self.kept(&frame.filename) {
            Some(Some(map)) => place(self.alloc, map, line, frame),
            _ => Ok(()),
        }
    }
}
