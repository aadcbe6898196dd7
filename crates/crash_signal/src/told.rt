//! What is told of a signal.

/// How a signal came about, by the code of its record.
#[derive(Clone, Copy, Debug, PartialEq, Eq)]
pub enum Cause {
    /// The process sent it: it has this id itself. `uid` is the user that it ran as.
    Itself { pid: i32, uid: u32 },
    /// A process of this id sent it, which ran as this user.
    Process { pid: i32, uid: u32 },
    /// What was done at this address was wrong; the signal and the code say in which way.
    Fault { address: u64 },
    /// The system sent it for an access whose address it does not tell: one that can't be an address, or one that was
    /// refused without an address.
    NoAddress,
    /// The system sent it, for another reason.
    System,
    /// A filter of calls refused the call of this number, which was made at this address.
    Call { address: u64, number: i32 },
    /// The code alone is known.
    Code,
}

/// A signal, as its record tells it.
#[derive(Clone, Copy, Debug, PartialEq, Eq)]
pub struct CrashSignal {
    /// Its number, which is that of the core's first status record.
    pub signal: i32,
    /// `si_code`, which says what the rest of the record is.
    pub code: i32,
    /// What the rest says.
    pub cause: Cause,
}

/// Why nothing is told of a signal.
#[derive(Clone, Copy, Debug, PartialEq, Eq)]
pub enum Untold {
    /// No signal ended the process: that of the first status record is 0, or there is no such record.
    NoSignal,
    /// The core has no note of its signal.
    NoNote,
    /// The note is shorter than what is read of it.
    Short,
    /// The note is of this signal, which is another one than that of the first status record.
    Other { signal: i32 },
}
