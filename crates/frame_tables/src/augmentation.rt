//! The augmentation of a common information entry.
ghost use Rattle.std.specs.Prelude.{◌≡◌, ◌≤◌, ◌≢◌, ◌+◌, length, IfOk, IfSome};
ghost use Rattle.frame_tables.specs.Augmentations.{pointer_size, behind_handler, letter_at, letters_from};
ghost use Rattle.frame_tables.specs.Augmentations.{augmentation_in, augmentation_at};

use crate::field::{block_at, byte_at};
use crate::flaw::RecordFlaw;

/// What the letters behind `z` say, up to one of them.
#[derive(Clone, Copy)]
pub(crate) struct Marks {
    /// The encoding of the addresses of entries.
    pub(crate) encoding: u8,
    /// Whether the entries are frames of signals.
    pub(crate) is_signal: bool,
    /// Where the data of the next letter begins.
    pub(crate) next: usize,
}

/// What an augmentation says.
#[derive(Clone, Copy)]
pub(crate) struct Augmentation {
    /// Whether entries have the size of their augmentation data.
    pub(crate) is_sized: bool,
    /// The encoding of the addresses of entries.
    pub(crate) encoding: u8,
    /// Whether the entries are frames of signals.
    pub(crate) is_signal: bool,
    /// Where its data end.
    pub(crate) end: usize,
}

/// How many bytes a pointer of an encoding has, where that is known.
fn pointer_size(encoding: u8) -> Option<usize>
    ensures value { result ≡ pointer_size encoding }
    ensures small { IfSome result (λ size. size ≤ 8) }
{
    if encoding / 16 % 8 == 5 {
        return None;
    }
    match encoding % 16 {
        0 | 4 | 12 => Some(8),
        2 | 10 => Some(2),
        3 | 11 => Some(4),
        _ => None,
    }
}

/// What the handler's encoding, which stands at `at`, and its pointer come to.
fn behind_handler(body: &[u8], at: usize) -> Result<usize, RecordFlaw>
    requires { at ≤ length body.now }
    ensures value { result ≡ behind_handler body.now at }
    ensures whole { IfOk result (λ next. next ≤ length body.now) }
{
    let encoding = byte_at(body, at)?;
    let Some(size) = pointer_size(encoding) else {
        return Err(RecordFlaw::Encoding(encoding));
    };
    if body.len() - at - 1 < size {
        return Err(RecordFlaw::Cut);
    }
    Ok(at + 1 + size)
}

/// What one more letter says; `body` ends where the augmentation's data do.
fn letter_at(body: &[u8], letter: u8, marks: Marks) -> Result<Marks, RecordFlaw>
    requires { marks.next ≤ length body.now }
    ensures value { result ≡ letter_at body.now letter marks }
    ensures whole { IfOk result (λ marks. marks.next ≤ length body.now) }
{
    match letter {
        b'R' => {
            let encoding = byte_at(body, marks.next)?;
            Ok(Marks {
                encoding,
                is_signal: marks.is_signal,
                next: marks.next + 1,
            })
        }
        b'L' => {
            let _handled = byte_at(body, marks.next)?;
            Ok(Marks {
                next: marks.next + 1,
                ..marks
            })
        }
        b'P' => {
            let next = behind_handler(body, marks.next)?;
            Ok(Marks { next, ..marks })
        }
        b'S' => Ok(Marks {
            is_signal: true,
            ..marks
        }),
        b'B' => Ok(marks),
        _ => Err(RecordFlaw::Augmentation(letter)),
    }
}

/// What the letters of a text say.
fn letters_from(body: &[u8], text: &[u8], marks: Marks) -> Result<Marks, RecordFlaw>
    requires { marks.next ≤ length body.now }
    ensures { result ≡ letters_from body.now text.now marks }
{
    let mut marks = marks;
    let mut rest = text;
    while !rest.is_empty() {
        match letter_at(body, rest[0], marks) {
            Ok(next) => marks = next,
            Err(flaw) => return Err(flaw),
        }
        rest = &rest[1..];
    }
    Ok(marks)
}

/// What an augmentation with the size of its data says, whose letters are those of a text and whose data begin at `at`.
fn augmentation_in(body: &[u8], letters: &[u8], at: usize) -> Result<Augmentation, RecordFlaw>
    requires { at ≤ length body.now }
    ensures value { result ≡ augmentation_in body.now letters.now at }
    ensures whole { IfOk result (λ said. said.end ≤ length body.now) }
{
    let block = block_at(body, at)?;
    let marks = Marks {
        encoding: 0,
        is_signal: false,
        next: block.start,
    };
    let marks = letters_from(&body[..block.end], letters, marks)?;
    Ok(Augmentation {
        is_sized: true,
        encoding: marks.encoding,
        is_signal: marks.is_signal,
        end: block.end,
    })
}

/// What the augmentation of a text says, whose data begin at `at`.
pub(crate) fn augmentation_at(
    body: &[u8],
    text: &[u8],
    at: usize,
) -> Result<Augmentation, RecordFlaw>
    requires { at ≤ length body.now }
    ensures value { result ≡ augmentation_at body.now text.now at }
    ensures whole { IfOk result (λ said. said.end ≤ length body.now) }
{
    if text.is_empty() {
        return Ok(Augmentation {
            is_sized: false,
            encoding: 0,
            is_signal: false,
            end: at,
        });
    }
    if text[0] != b'z' {
        return Err(RecordFlaw::Augmentation(text[0]));
    }
    augmentation_in(body, &text[1..], at)
}
