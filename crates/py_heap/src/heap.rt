//! What is told of a heap.

use gc_lists::ListEnd;
use py_census::CountedClass;
use py_exceptions::ClassName;

/// A list of the collector.
#[derive(Debug, Clone, Copy, PartialEq, Eq)]
pub struct Generation {
    /// How many objects are its members.
    pub objects: usize,
    /// How it ends behind these.
    pub end: ListEnd,
}

/// A class of which there are objects.
#[derive(Debug, Drop)]
pub struct HeapClass {
    /// Its address, how many objects there are of it, how many bytes their own blocks have, and how many the other
    /// blocks of lists, dicts and sets.
    pub counted: CountedClass,
    /// Its name; none where it can't be read, and of classes behind the first 2,048.
    pub name: Option<ClassName>,
}

/// The objects that the collector tracks.
#[derive(Debug, Drop)]
pub struct Heap {
    /// Whether a collection runs; none where that is not in memory. In one a list may be torn, as its links hold
    /// counts.
    pub collecting: Option<bool>,
    /// Generation 0.
    pub youngest: Generation,
    /// Generation 1.
    pub middle: Generation,
    /// Generation 2.
    pub oldest: Generation,
    /// The permanent generation, of objects that are frozen.
    pub permanent: Generation,
    /// Whether the tables of sets are counted: the classes of sets are known.
    pub sets: bool,
    /// The classes of the objects of all of them, each once: most bytes first, then by address.
    pub classes: Vec<HeapClass>,
    /// Of how many objects the class is not known, since the word that names it is not in memory.
    pub unreadable: u64,
}

/// What is told of the lists of an interpreter, or of the runtime.
#[derive(Debug, Drop)]
pub enum HeapTold {
    /// There are no lists where they are looked for: the head at this address is none.
    NoLists { head: u64 },
    /// The objects of its lists.
    Counted(Heap),
}

/// An interpreter with its heap.
#[derive(Debug, Drop)]
pub struct InterpreterHeap {
    /// The address of the interpreter's record.
    pub interpreter: u64,
    /// What is told of its lists.
    pub told: HeapTold,
}

/// The heaps of a process.
#[derive(Debug, Drop)]
pub enum Heaps {
    /// It is not described where the collector's lists, the sizes of objects or the names of classes of the version
    /// stand.
    NotDescribed,
    /// Up to 3.8: the lists of the runtime, in which the objects of all interpreters are; none where no symbol tells
    /// the address of its record.
    OfRuntime(Option<HeapTold>),
    /// From 3.9 on: those of each interpreter that is shown, in order.
    OfInterpreters(Vec<InterpreterHeap>),
}
