//! Which line of a Cython file a line of its C file comes from.
ghost use Rattle.std.specs.Prelude.{◌≡◌, ◌≤◌, ◌<◌, nat_le, List, length, option_map, IfOk, IsErrOf, OnOk};
ghost use Rattle.std.specs.Str.Lines.{lines};
ghost use Rattle.native_merge.specs.MapsOfFiles.{FilesMapOnce, IsNewMap, IsMapOfBytes, IsReadMap};
ghost use Rattle.native_merge.specs.Paths.{cython_file};
ghost use Rattle.native_merge.specs.SourceMaps.{AddsMark, MarksAscend, IsSourceMap, MapsOnce, last_below, line_limit};
ghost use Rattle.native_merge.specs.SourceMaps.{looked_up};
ghost use Rattle.native_merge.specs.Sources.{Stay};

use crate::cython_file::cython_file;
use crate::source_line::line_mark;
use crate::{SourceFault, SourceMapError, Sources};
use elf64_core::Text;
use std::alloc::{AllocError, Global};
use std::marker::Model;

/// Contents of so many lines are too long: lines are counted in a `u32`, and one more stands behind the last.
const LINE_LIMIT: u32 = u32::MAX - 1;

/// What a line of a C file, counted from 0, tells: a file of Cython's, and the number of a line there, or 0.
#[derive(Debug, Drop)]
pub(crate) struct SourceMark {
    pub(crate) line: u32,
    pub(crate) file: Text,
    pub(crate) number: u32,
}

/// Which lines of Cython's files the lines of a C file come from.
///
/// Contracts see the marks of the C file's lines, in order.
#[derive(Debug, Drop)]
pub struct SourceMap {
    marks: Vec<SourceMark>,
}

impl Model for SourceMap {
    ghost use Rattle.std.specs.Prelude.{List};
    ghost use Rattle.native_merge.specs.declared.source_map.SourceMark.{SourceMark};
    ghost use Rattle.native_merge.specs.SourceMaps.{MarksAscend};

    ghost Value = { List SourceMark };

    ghost view = { λ m. m.marks.items };

    ghost invariant = { λ m. MarksAscend 0 m.marks.items };
}

/// The last mark of a line below this one.
fn last_below(marks: &[SourceMark], lineno: u32) -> Option<&SourceMark>
    requires { MarksAscend 0 marks.now }
    ensures { option_map (λ mark. mark.now) result ≡ last_below lineno marks.now }
{
    let count = marks.partition_point(|mark| mark.line < lineno);
    if count == 0 {
        return None;
    }
    Some(&marks[count - 1])
}

/// Adds the mark of a line, counted from 0, where it tells something.
fn add_mark<F: Sources>(
    alloc: Global,
    sources: &mut F,
    marks: &mut Vec<SourceMark>,
    line: &str,
    at: u32,
    cpp_filename: &str,
    module: Option<&str>,
) -> Result<(), AllocError>
    ensures added { OnOk result (AddsMark (cython_file (F.seen sources.old).exists cpp_filename.now
        (option_map (λ name. name.now) «module».entry)) at line.now marks.old.items marks.new.items) }
    ensures stay { Stay (F.seen sources.old) (F.seen sources.new) }
{
    let Some(mark) = line_mark(line) else {
        return Ok(());
    };
    let file = cython_file(alloc, sources, cpp_filename, module, mark.name)?;
    marks.push(SourceMark {
        line: at,
        file,
        number: mark.number,
    })?;
    Ok(())
}

/// Whether contents of so many lines are too long.
pub(crate) fn is_too_long(lines: u32) -> bool
    ensures { result ≡ nat_le line_limit lines }
{
    lines >= LINE_LIMIT
}

/// The marks of a C file's lines, and the last one of line 0.
fn read_marks<F: Sources>(
    alloc: Global,
    sources: &mut F,
    contents: &str,
    cpp_filename: &str,
    module: Option<&str>,
) -> Result<Vec<SourceMark>, SourceMapError>
    ensures map { IfOk result (λ marks. IsSourceMap (cython_file (F.seen sources.old).exists cpp_filename.now
        (option_map (λ name. name.now) «module».entry)) contents.now marks.items) }
    ensures too_long { IsErrOf result SourceMapError.TooLong → line_limit ≤ length (lines contents.now) }
    ensures short { IfOk result (λ _. length (lines contents.now) < line_limit) }
    ensures stay { Stay (F.seen sources.old) (F.seen sources.new) }
{
    let mut marks = Vec::new(alloc);
    let mut count: u32 = 0;
    for line in contents.lines() {
        if is_too_long(count + 1) {
            return Err(SourceMapError::TooLong);
        }
        add_mark(
            alloc,
            sources,
            &mut marks,
            line,
            count,
            cpp_filename,
            module,
        )?;
        count += 1;
    }
    let file = Text::from_string(String::new(alloc))?;
    marks.push(SourceMark {
        line: count + 1,
        file,
        number: 0,
    })?;
    Ok(marks)
}

/// What comes of reading a C file.
#[derive(Drop)]
pub(crate) enum FileMap {
    /// Its map, or none where the path doesn't exist or its bytes have none.
    Known(Option<SourceMap>),
    /// The path exists, and could not be read.
    Unread,
}

/// The map of a C file's bytes; none where they aren't UTF-8, or are too long.
fn map_of_bytes<F: Sources>(
    alloc: Global,
    sources: &mut F,
    bytes: &[u8],
    filename: &str,
    module: Option<&str>,
) -> Result<Option<SourceMap>, AllocError>
    ensures map { IfOk result (IsMapOfBytes (cython_file (F.seen sources.old).exists filename.now
        (option_map (λ name. name.now) «module».entry)) bytes.now) }
    ensures stay { Stay (F.seen sources.old) (F.seen sources.new) }
{
    let Ok(contents) = str::from_utf8(bytes) else {
        return Ok(None);
    };
    match SourceMap::from_contents(alloc, sources, contents, filename, module) {
        Ok(map) => Ok(Some(map)),
        Err(SourceMapError::TooLong) => Ok(None),
        Err(SourceMapError::OutOfMemory) => Err(AllocError),
    }
}

/// The map of a C file, told apart from a file that could not be read.
pub(crate) fn read_map<F: Sources>(
    alloc: Global,
    sources: &mut F,
    filename: &str,
    module: Option<&str>,
) -> Result<FileMap, AllocError>
    ensures map { IfOk result (IsReadMap (F.seen sources.old) (F.seen sources.new) filename.now
        (option_map (λ name. name.now) «module».entry)) }
    ensures stay { Stay (F.seen sources.old) (F.seen sources.new) }
{
    match sources.contents(alloc, filename.as_bytes()) {
        Ok(bytes) => {
            let map = map_of_bytes(alloc, sources, &bytes, filename, module)?;
            Ok(FileMap::Known(map))
        }
        Err(SourceFault::Missing) => Ok(FileMap::Known(None)),
        Err(SourceFault::Failed) => Ok(FileMap::Unread),
        Err(SourceFault::OutOfMemory) => Err(AllocError),
    }
}

impl SourceMap {
    /// The map of a C file: what `from_contents` makes of its bytes.
    ///
    /// None where the path doesn't exist, where it could not be read, and where its bytes aren't UTF-8 or have
    /// 2^32 - 2 lines or more. That a path could not be read raises the sources' count of faults. The one error is
    /// out of memory.
    pub fn new<F: Sources>(
        alloc: Global,
        sources: &mut F,
        filename: &str,
        module: Option<&str>,
    ) -> Result<Option<SourceMap>, AllocError>
        ensures map { IfOk result (IsNewMap (F.seen sources.old) (F.seen sources.new) filename.now
            (option_map (λ name. name.now) «module».entry)) }
        ensures once { FilesMapOnce }
        ensures stay { Stay (F.seen sources.old) (F.seen sources.new) }
    {
        match read_map(alloc, sources, filename, module)? {
            FileMap::Known(map) => Ok(map),
            FileMap::Unread => Ok(None),
        }
    }

    /// The map of a C file's contents: a mark for each line that tells a file of Cython's and a line there.
    ///
    /// Such a line begins with Unicode's white space or none, then comes `/* "`, the file's name, `":` and a number in
    /// ASCII digits, whatever follows. The name has a dot that is neither its first nor its last character, and ends
    /// at the last place that allows the form. A number past 2^32 - 1 tells nothing. The name's file is the path
    /// `cpp_filename` with the name's extension, where that path is the name or ends with `/` and the name, and
    /// exists; else what `resolve_filename` gives with the module; else the name.
    ///
    /// `TooLong` exactly where there are 2^32 - 2 lines or more. Else the one error is out of memory.
    pub fn from_contents<F: Sources>(
        alloc: Global,
        sources: &mut F,
        contents: &str,
        cpp_filename: &str,
        module: Option<&str>,
    ) -> Result<SourceMap, SourceMapError>
        ensures map { IfOk result (IsSourceMap (cython_file (F.seen sources.old).exists cpp_filename.now
            (option_map (λ name. name.now) «module».entry)) contents.now) }
        ensures once { MapsOnce }
        ensures too_long { IsErrOf result SourceMapError.TooLong → line_limit ≤ length (lines contents.now) }
        ensures short { IfOk result (λ _. length (lines contents.now) < line_limit) }
        ensures stay { Stay (F.seen sources.old) (F.seen sources.new) }
    {
        match read_marks(alloc, sources, contents, cpp_filename, module) {
            Ok(marks) => Ok(SourceMap { marks }),
            Err(error) => Err(error),
        }
    }

    /// The file and the line that a line of the C file, counted from 1, comes from: what the last mark of a line
    /// above it tells. None where there is no such mark, or it tells line 0, as the last one of the file does.
    pub fn lookup(&self, lineno: u32) -> Option<(&str, u32)>
        ensures { option_map (λ found. (found.0.now, found.1)) result ≡ looked_up lineno self.now }
    {
        let mark = last_below(&self.marks, lineno)?;
        if mark.number == 0 {
            return None;
        }
        Some((mark.file.as_str(), mark.number))
    }
}
