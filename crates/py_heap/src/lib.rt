//! What an interpreter's heap holds: the objects that the collector tracks, by class.
//!
//! The lists of the collector tell the objects (`gc_lists`), a census counts them by class (`py_census`), and the classes
//! with the most bytes get their names. A list that is torn or cut has the objects before its end, and says so.
#![tactic(auto)]

mod heap;
mod names;
mod objects;
mod places;
mod read;

pub use heap::{Generation, Heap, HeapClass, HeapTold, Heaps, InterpreterHeap};
pub use places::{HeapPlaces, heap_places};
pub use read::read_heap;
