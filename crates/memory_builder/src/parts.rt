//! What the threads of a process are to show.
use elf64_core::Text;
use py_lines::LineRange;

/// The threads of a process, and who holds the interpreter lock.
#[derive(Debug, Drop)]
pub struct Program {
    /// The threads, in the order of the interpreter's chain.
    pub threads: Vec<ProgramThread>,
    /// The index, counted from 0, of the thread that holds the lock; None where none does.
    pub owner: Option<u32>,
}

/// A thread.
#[derive(Debug, Drop)]
pub struct ProgramThread {
    /// The id that the interpreter gave.
    pub id: u64,
    /// The frames, the newest first.
    pub frames: Vec<ProgramFrame>,
}

/// A call of a function.
#[derive(Debug, Drop)]
pub struct ProgramFrame {
    /// The function's name.
    pub name: Text,
    /// The file of its code.
    pub filename: Text,
    /// The first line of its code, counted from 1.
    pub first: i32,
    /// The lines of its code, by offsets in bytes.
    pub ranges: Vec<LineRange>,
    /// The offset into the code, in bytes, of the instruction that ran last.
    pub offset: u32,
    /// How many of the locals are arguments; they are the first.
    pub args: u32,
    /// The local variables, the arguments first.
    pub locals: Vec<ProgramLocal>,
}

/// A local variable.
#[derive(Debug, Drop)]
pub struct ProgramLocal {
    /// Its name.
    pub name: Text,
    /// Its value.
    pub value: ProgramValue,
}

/// What a local variable holds.
#[derive(Debug, Drop)]
pub enum ProgramValue {
    /// A whole number.
    Number(i64),
    /// A text.
    Words(Text),
    /// A list of numbers and texts.
    List(Vec<ProgramItem>),
}

/// An item of a list.
#[derive(Debug, Drop)]
pub enum ProgramItem {
    /// A whole number.
    Number(i64),
    /// A text.
    Words(Text),
}
