//! Answers for native addresses in memory.
ghost use Rattle.std.specs.Prelude.{◌≡◌, ◌≢◌, IfOk, IsErrOf, MatchResult, Ok, Err, None, option_map};
ghost use Rattle.outside.specs.Counts.{Rose};
ghost use Rattle.outside.specs.Files.{is_listed};
ghost use Rattle.native_merge.specs.MemorySymbols.{HasAnswered, HeldSymbols, answers_held, held_answer, held_frames};
ghost use Rattle.native_merge.specs.MemorySymbols.{symbols_seen, unasked_symbols};
ghost use Rattle.native_merge.specs.Symbols.{IsAsTold, SymbolsStay, AnswersOnce};

use crate::copies::copy_natives;
use crate::{NativeFrame, SymbolFault, Symbolicator};
use std::alloc::Global;
use std::marker::Model;

/// Answers for native addresses in memory, with calls that are to fail.
///
/// Contracts see the addresses with their frames, the numbers of the calls that are to fail, how many calls there were
/// and how many failed. All of it is told.
#[derive(Drop)]
pub struct MemorySymbols {
    answers: Vec<(u64, Vec<NativeFrame>)>,
    failing: Vec<u64>,
    calls: u64,
    faults: u64,
}

impl Model for MemorySymbols {
    ghost Value = { HeldSymbols };

    ghost view = { λ m. record {
      answers = answers_held m.answers.items;
      failing = m.failing.items;
      calls = m.calls;
      faults = m.faults;
    } };
}

impl MemorySymbols {
    /// These answers, of which the first of an address counts, with lines and without, and the numbers of the calls
    /// that are to fail. An address without an answer is lacking, also in such a call.
    ///
    /// Calls are counted from 0. No call from number 2^64 - 1 on fails by its number.
    pub fn new(
        _alloc: Global,
        answers: Vec<(u64, Vec<NativeFrame>)>,
        failing: Vec<u64>,
    ) -> MemorySymbols
        ensures { result ≡ unasked_symbols (answers_held answers.items) failing.items }
    {
        MemorySymbols {
            answers,
            failing,
            calls: 0,
            faults: 0,
        }
    }
}

/// The frames of an address.
fn find(answers: &[(u64, Vec<NativeFrame>)], addr: u64) -> Option<&[NativeFrame]>
    ensures { option_map (λ frames. frames.now) result ≡ held_frames (answers_held answers.now) addr }
{
    let mut rest = answers;
    while let [answer, after @ ..] = rest {
        if answer.0 == addr {
            return Some(answer.1.as_slice());
        }
        rest = after;
    }
    None
}

/// Whether the call of this number is to fail.
fn is_listed(failing: &[u64], call: u64) -> bool
    ensures { result ≡ is_listed failing.now call }
{
    call < u64::MAX && failing.contains(&call)
}

/// The frames of an answer in new memory.
fn copy(alloc: Global, frames: &[NativeFrame]) -> Result<Vec<NativeFrame>, SymbolFault>
    ensures { MatchResult result (λ copied. copied.items ≡ frames.now) (λ fault. fault ≡ SymbolFault.OutOfMemory) }
{
    match copy_natives(alloc, frames) {
        Ok(copied) => Ok(copied),
        Err(_) => Err(SymbolFault::OutOfMemory),
    }
}

impl Symbolicator for MemorySymbols {
    ghost seen = { symbols_seen };

    fn symbolicate(
        &mut self,
        alloc: Global,
        addr: u64,
        line_info: bool,
    ) -> Result<Vec<NativeFrame>, SymbolFault>
        ensures no_binary { IsErrOf result SymbolFault.NoBinary → (symbols_seen self.old).lacks addr }
        ensures failed { IsErrOf result SymbolFault.Failed → Rose self.old.faults self.new.faults }
        ensures frames { IfOk result (λ frames. IsAsTold (symbols_seen self.old) addr line_info frames.items) }
        ensures once { AnswersOnce (symbols_seen self.old) }
        ensures stay { SymbolsStay (symbols_seen self.old) (symbols_seen self.new) }

        // all that changes, and the answer where there is memory
        ensures after { HasAnswered self.old result self.new }
        ensures answer { MatchResult result (λ frames. held_answer self.old addr ≡ Ok frames.items)
            (λ fault. fault ≢ SymbolFault.OutOfMemory → held_answer self.old addr ≡ Err fault) }
    {
        let call = self.calls;
        self.calls = call.saturating_add(1);
        let Some(frames) = find(&self.answers, addr) else {
            return Err(SymbolFault::NoBinary);
        };
        if is_listed(&self.failing, call) {
            self.faults = self.faults.saturating_add(1);
            return Err(SymbolFault::Failed);
        }
        copy(alloc, frames)
    }
}
