//! The names of Linux' signals, and what the codes mean that stand with an address.
ghost use Rattle.std.specs.Prelude.{◌≡◌, find, map, option_copied};
ghost use Rattle.std.specs.Ordering.{int_eq};
ghost use Rattle.crash_signal.specs.Tables.{bus_meanings, fpe_meanings, ill_meanings, meaning_of, meanings_of};
ghost use Rattle.crash_signal.specs.Tables.{name_of, segv_meanings, signal_names, text_at, trap_meanings, word_of};

/// A number, and what it stands for.
#[derive(Clone, Copy)]
struct Word {
    number: i32,
    text: &'static str,
}

/// A table of numbers, each with its text.
macro_rules! words {
    ($($number:expr, $text:expr;)*) => {
        [$(Word { number: $number, text: $text }),*]
    };
}

/// The signals that have a name (include/uapi/asm-generic/signal.h).
static NAMES: [Word; 31] = words! {
    1, "SIGHUP";
    2, "SIGINT";
    3, "SIGQUIT";
    4, "SIGILL";
    5, "SIGTRAP";
    6, "SIGABRT";
    7, "SIGBUS";
    8, "SIGFPE";
    9, "SIGKILL";
    10, "SIGUSR1";
    11, "SIGSEGV";
    12, "SIGUSR2";
    13, "SIGPIPE";
    14, "SIGALRM";
    15, "SIGTERM";
    16, "SIGSTKFLT";
    17, "SIGCHLD";
    18, "SIGCONT";
    19, "SIGSTOP";
    20, "SIGTSTP";
    21, "SIGTTIN";
    22, "SIGTTOU";
    23, "SIGURG";
    24, "SIGXCPU";
    25, "SIGXFSZ";
    26, "SIGVTALRM";
    27, "SIGPROF";
    28, "SIGWINCH";
    29, "SIGIO";
    30, "SIGPWR";
    31, "SIGSYS";
};

/// The codes of SIGILL (include/uapi/asm-generic/siginfo.h, as those below).
static ILL: [Word; 9] = words! {
    1, "illegal opcode";
    2, "illegal operand";
    3, "illegal addressing mode";
    4, "illegal trap";
    5, "privileged opcode";
    6, "privileged register";
    7, "coprocessor error";
    8, "internal stack error";
    9, "unimplemented instruction address";
};

/// The codes of SIGTRAP.
static TRAP: [Word; 6] = words! {
    1, "breakpoint";
    2, "trace trap";
    3, "branch trap";
    4, "hardware breakpoint or watchpoint";
    5, "undiagnosed trap";
    6, "performance event";
};

/// The codes of SIGBUS.
static BUS: [Word; 5] = words! {
    1, "invalid address alignment";
    2, "no such physical address";
    3, "object error";
    4, "hardware memory error, of memory that was used";
    5, "hardware memory error, of memory that was not used yet";
};

/// The codes of SIGFPE.
static FPE: [Word; 10] = words! {
    1, "integer division by zero";
    2, "integer overflow";
    3, "floating point division by zero";
    4, "floating point overflow";
    5, "floating point underflow";
    6, "floating point inexact result";
    7, "floating point invalid operation";
    8, "subscript out of range";
    14, "undiagnosed floating point exception";
    15, "trap on a condition";
};

/// The codes of SIGSEGV.
static SEGV: [Word; 10] = words! {
    1, "address not mapped";
    2, "no permission";
    3, "bounds check failed";
    4, "protection key refused";
    5, "application data integrity is not enabled";
    6, "application data integrity, disrupting";
    7, "application data integrity, precise";
    8, "memory tag mismatch, told later";
    9, "memory tag mismatch";
    10, "control protection fault";
};

#[tactic(auto, unfolding(crate::specs::Tables::signal_names))]
fn names() -> &'static [Word]
    ensures { map word_of result.now ≡ signal_names }
{
    &NAMES
}

#[tactic(auto, unfolding(crate::specs::Tables::ill_meanings))]
fn ill() -> &'static [Word]
    ensures { map word_of result.now ≡ ill_meanings }
{
    &ILL
}

#[tactic(auto, unfolding(crate::specs::Tables::trap_meanings))]
fn trap() -> &'static [Word]
    ensures { map word_of result.now ≡ trap_meanings }
{
    &TRAP
}

#[tactic(auto, unfolding(crate::specs::Tables::bus_meanings))]
fn bus() -> &'static [Word]
    ensures { map word_of result.now ≡ bus_meanings }
{
    &BUS
}

#[tactic(auto, unfolding(crate::specs::Tables::fpe_meanings))]
fn fpe() -> &'static [Word]
    ensures { map word_of result.now ≡ fpe_meanings }
{
    &FPE
}

#[tactic(auto, unfolding(crate::specs::Tables::segv_meanings))]
fn segv() -> &'static [Word]
    ensures { map word_of result.now ≡ segv_meanings }
{
    &SEGV
}

/// The codes of a signal that mean something.
#[tactic(auto, unfolding(crate::specs::Tables::meanings_of))]
fn meanings(signal: i32) -> &'static [Word]
    ensures { map word_of result.now ≡ meanings_of signal }
{
    match signal {
        4 => ill(),
        5 => trap(),
        7 => bus(),
        8 => fpe(),
        11 => segv(),
        _ => &[],
    }
}

/// The first word of a number.
fn first_word(words: &'static [Word], number: i32) -> Option<&'static Word>
    ensures { option_copied result ≡ find (λ word. int_eq word.number number) words.now }
{
    words.iter().find(|word| word.number == number)
}

/// The text of a number.
fn text_at(words: &'static [Word], number: i32) -> Option<&'static str>
    ensures { option_copied result ≡ text_at (map word_of words.now) number }
{
    match first_word(words, number) {
        Some(word) => Some(word.text),
        None => None,
    }
}

/// The name of a signal, as `SIGSEGV`; none of a number that is not 1 to 31.
#[tactic(auto, unfolding(crate::specs::Tables::name_of))]
pub fn name_of(signal: i32) -> Option<&'static str>
    ensures { option_copied result ≡ name_of signal }
{
    text_at(names(), signal)
}

/// What a code of SIGILL, SIGTRAP, SIGBUS, SIGFPE or SIGSEGV means that stands with an address, in words; none where
/// Linux has no name for it, and none of another signal.
#[tactic(auto, unfolding(crate::specs::Tables::meaning_of))]
pub fn meaning_of(signal: i32, code: i32) -> Option<&'static str>
    ensures { option_copied result ≡ meaning_of signal code }
{
    text_at(meanings(signal), code)
}
