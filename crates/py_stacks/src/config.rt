//! What is asked for of stacks.
ghost use Rattle.std.specs.Prelude.{◌≡◌};
ghost use Rattle.py_stacks.specs.Asking.{asked_by, asked_of, default_config};

use crate::asked::{Asked, LineNo};

/// What is asked for of stacks: py-spy's options, by its names.
///
/// Of these `lineno` and `dump_locals` alone speak of stacks that are read from memory; the others are for
/// those that print stacks, or that choose processes.
#[derive(Clone, Debug, Drop, PartialEq, Eq)]
pub struct Config {
    /// Whether frames of native code are asked for.
    pub native: bool,
    /// Whether the processes that this one started are.
    pub subprocesses: bool,
    /// Whether the thread that holds the interpreter lock is asked for alone.
    pub gil_only: bool,
    /// Whether stacks are printed as JSON.
    pub dump_json: bool,
    /// How wide locals are shown; 0 where they are not asked for.
    pub dump_locals: u64,
    /// Whether files are printed by their whole names.
    pub full_filenames: bool,
    /// Which line of each frame is asked for.
    pub lineno: LineNo,
}

/// Nothing beside the line of the last instruction.
impl Default for Config {
    ghost is_default = { λ config. config ≡ default_config };

    fn default() -> Config {
        Config {
            native: false,
            subprocesses: false,
            gil_only: false,
            dump_json: false,
            dump_locals: 0,
            full_filenames: false,
            lineno: LineNo::LastInstruction,
        }
    }
}

/// What a `Config` asks for of each frame.
fn asked_of(config: &Config) -> Asked
    ensures { result ≡ asked_of config.now }
{
    Asked {
        lineno: config.lineno,
        locals: config.dump_locals != 0,
    }
}

/// What is asked for of each frame; nothing without a `Config`.
pub(crate) fn asked_by(config: Option<&Config>) -> Asked
    ensures { result ≡ asked_by config.entry }
{
    match config {
        None => Asked {
            lineno: LineNo::NoLine,
            locals: false,
        },
        Some(config) => asked_of(config),
    }
}
