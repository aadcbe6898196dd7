//! The entries that matter for addresses.
ghost use Rattle.std.specs.Prelude.{◌≡◌};
ghost use Rattle.maps_text.specs.Relevance.{is_relevant, is_relevant_line};
ghost use Rattle.maps_text.specs.Rest.{answers_left};
ghost use Rattle.maps_text.specs.RestKept.{unfiltered};

use crate::{MapsEntry, MapsEntryIter, MapsError, Perm};

/// Whether a map matters for addresses of code and data: it may be read or executed.
pub fn filter_relevant(entry: &MapsEntry) -> bool
    ensures { result ≡ is_relevant entry.now }
{
    entry.perm.meets(Perm::R) || entry.perm.meets(Perm::X)
}

/// Whether an answer is kept: a relevant entry, or an error.
fn is_relevant_line(answer: &Result<MapsEntry, MapsError>) -> bool
    ensures { result ≡ is_relevant_line answer.now }
{
    match answer {
        Ok(entry) => filter_relevant(entry),
        Err(_) => true,
    }
}

/// The answers of an iterator over lines, without the entries that `filter_relevant` refuses. Errors are kept.
#[derive(Drop)]
pub struct FilteredEntries<'a> {
    entries: MapsEntryIter<'a>,
}

impl<'a> FilteredEntries<'a> {
    /// The answers that the iterator has left, filtered.
    pub fn new(entries: MapsEntryIter<'a>) -> FilteredEntries<'a>
        ensures { unfiltered result ≡ answers_left entries.entry }
    {
        FilteredEntries { entries }
    }
}

impl<'a> Iterator for FilteredEntries<'a> {
    ghost use Rattle.std.specs.Iterator.{item_count};
    ghost use Rattle.maps_text.specs.RestKept.{unfiltered, AnswersKept};

    type Item = Result<MapsEntry, MapsError>;

    ghost next_gives = { AnswersKept };

    ghost remaining = { item_count unfiltered };

    fn next(&mut self) -> Option<Result<MapsEntry, MapsError>> {
        loop {
            let answer = self.entries.next()?;
            if is_relevant_line(&answer) {
                return Some(answer);
            }
        }
    }
}
