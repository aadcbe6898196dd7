//! The lines of a text, one by one.
ghost use Rattle.std.specs.Prelude.{◌≡◌, ◌<◌, ◌∷◌, length};
ghost use Rattle.std.specs.List.{position};
ghost use Rattle.maps_text.specs.Texts.{is_newline, lines_of, answers_of};
ghost use Rattle.maps_text.specs.Rest.{answers_left};

use crate::line::parse_line;
use crate::{MapsEntry, MapsError};
use std::alloc::Global;

/// Where the first newline stands.
fn first_newline(text: &[u8]) -> Option<usize>
    ensures { result ≡ position is_newline text.now }
{
    text.iter().position(|byte| *byte == b'\n')
}

/// The first line of a text that isn't empty, without its newline, and the text behind that. Lines end with newlines;
/// the last one need not. It takes no memory.
pub fn first_line(text: &[u8]) -> (&[u8], &[u8])
    requires { 0 < length text.now }
    ensures { lines_of text.now ≡ result.0.now ∷ lines_of result.1.now }
{
    match first_newline(text) {
        Some(at) => (&text[..at], &text[at + 1..]),
        None => (text, b""),
    }
}

/// The entries of a text, one for each line, or why the line is refused.
///
/// Lines end with newlines, which are no part of them; the last line need not have one. After an error the
/// next line follows.
#[derive(Drop)]
pub struct MapsEntryIter<'a> {
    alloc: Global,
    /// Where the paths of files by range are put together, so that each takes one allocation.
    text: String,
    /// The text that is left.
    rest: &'a [u8],
    pid: u32,
}

/// The entries of a text as `/proc/PID/maps` has it, of the process of this id.
///
/// Each line gives its entry, or the first error that holds, in the order in which `MapsError` has them;
/// out of memory may come at any line. Nothing is read before an entry is asked for.
pub fn parse_file<'a>(alloc: Global, bytes: &'a [u8], pid: u32) -> MapsEntryIter<'a>
    ensures { answers_left result ≡ answers_of pid bytes.now }
{
    MapsEntryIter {
        alloc,
        text: String::new(alloc),
        rest: bytes,
        pid,
    }
}

impl<'a> Iterator for MapsEntryIter<'a> {
    ghost use Rattle.std.specs.Iterator.{item_count};
    ghost use Rattle.maps_text.specs.Rest.{answers_left, AnswersFirst};

    type Item = Result<MapsEntry, MapsError>;

    ghost next_gives = { AnswersFirst };

    ghost remaining = { item_count answers_left };

    fn next(&mut self) -> Option<Result<MapsEntry, MapsError>> {
        if self.rest.is_empty() {
            return None;
        }
        let (line, rest) = first_line(self.rest);
        self.rest = rest;
        Some(parse_line(self.alloc, &mut self.text, line, self.pid))
    }
}
