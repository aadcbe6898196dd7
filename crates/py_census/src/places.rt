//! Where the sizes of objects stand.

/// Before which objects two words stand, behind the head of the collector.
#[derive(Debug, Clone, Copy, PartialEq, Eq)]
pub enum WordsBefore {
    /// Before none.
    Never,
    /// Before those of classes with a managed dict.
    Dict,
    /// Before those of classes with a managed dict or managed weak references.
    DictOrReferences,
}

/// How the keys of a dict say how many bytes their block has.
#[derive(Debug, Clone, Copy, PartialEq, Eq)]
pub enum KeysForm {
    /// They have how many slots there are, behind 8 bytes.
    Slots,
    /// They have, behind 8 bytes, a byte each for how many slots there are and for how many bytes the index has, as
    /// powers of 2, and for the kind of entry.
    Powers,
}

/// The classes of sets, by their addresses.
#[derive(Debug, Clone, Copy, PartialEq, Eq)]
pub struct SetClasses {
    /// `set`.
    pub set: u64,
    /// `frozenset`.
    pub frozenset: u64,
}

/// Where the sizes of objects stand, in bytes from the start of an object or of a class on, and what stands before
/// objects.
#[derive(Debug, Clone, Copy, PartialEq, Eq)]
pub struct SizePlaces {
    /// In an object: how many items it has, where its class says that it has a count.
    pub count: u64,
    /// In a list: how many items it has room for.
    pub allocated: u64,
    /// In a dict: the address of its keys.
    pub keys: u64,
    /// How these say how many bytes their block has.
    pub keys_form: KeysForm,
    /// In a type of the heap: the address of the keys that the dicts of its objects share, or 0.
    pub cached_keys: u64,
    /// In a set: how many entries its table has, less one.
    pub mask: u64,
    /// In a set: the address of its table.
    pub table: u64,
    /// In a set: where the small table stands that is in its own block.
    pub own_table: u64,
    /// The classes of sets, where they are known.
    pub sets: Option<SetClasses>,
    /// In a class: the address of the one that it derives from first.
    pub base: u64,
    /// In a class: how many bytes an object of it has without its items.
    pub basic_size: u64,
    /// In a class: how many bytes an item has.
    pub item_size: u64,
    /// How many bytes the head of the collector has.
    pub head_size: u64,
    /// Before which objects two words stand.
    pub words_before: WordsBefore,
}
