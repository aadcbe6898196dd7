//! Values as they are shown.
ghost use Rattle.std.specs.Prelude.{◌≡◌, IfOk, None, OnOk, ℕ, option_copied, option_map, string_bytes};
ghost use Rattle.serde_json.specs.View.{view};
ghost use Rattle.py_reprs.specs.Trees.{tree_of};
ghost use Rattle.repr_texts.specs.Writing.{Writes};

use crate::value::repr_value;
use elf64_core::Text;
use py_reprs::Repr;
use repr_texts::push_repr;
use serde_json::Value;
use std::alloc::{AllocError, Global};
use std::collections::BTreeMap;

/// The text of a value.
fn repr_text(alloc: Global, value: &Repr) -> Result<String, AllocError>
    ensures { IfOk result (λ text. Writes (tree_of value.now) (string_bytes text)) }
{
    let mut text = String::new(alloc);
    push_repr(alloc, &mut text, value)?;
    Ok(text)
}

/// Values as they are shown, by their addresses: the text of each, its JSON where that is wanted, and the name of its
/// type.
///
/// Each is made once, however often it is shown.
#[derive(Drop)]
pub struct ShownValues {
    texts: BTreeMap<u64, String>,
    trees: BTreeMap<u64, Value>,
    types: BTreeMap<u64, Option<Text>>,
}

impl ShownValues {
    ghost use Rattle.repr_json.specs.Shown.{KeepsJson, KeepsText, KeepsType, data_in, text_in, type_in};

    /// None at any address.
    pub fn new(alloc: Global) -> ShownValues
        ensures texts { (a : ℕ) → text_in result a ≡ None }
        ensures trees { (a : ℕ) → data_in result a ≡ None }
        ensures types { (a : ℕ) → type_in result a ≡ None }
    {
        ShownValues {
            texts: BTreeMap::new(alloc),
            trees: BTreeMap::new(alloc),
            types: BTreeMap::new(alloc),
        }
    }

    /// The text of the value at an address; none where none was kept.
    pub fn text_at(&self, addr: u64) -> Option<&String>
        ensures { option_map (λ text. string_bytes text.now) result ≡ text_in self.now addr }
    {
        self.texts.get(&addr)
    }

    /// Its JSON; none where none was kept.
    pub fn tree_at(&self, addr: u64) -> Option<&Value>
        ensures { option_map (λ tree. view tree.now) result ≡ data_in self.now addr }
    {
        self.trees.get(&addr)
    }

    /// The name of its type; none where none was kept.
    pub fn type_at(&self, addr: u64) -> Option<&Text>
        ensures { option_copied result ≡ type_in self.now addr }
    {
        match self.types.get(&addr) {
            Some(name) => name.as_ref(),
            None => None,
        }
    }

    /// Keeps the text of a value for an address. The one error is out of memory.
    pub fn keep_text(&mut self, alloc: Global, addr: u64, value: &Repr) -> Result<(), AllocError>
        ensures { OnOk result (KeepsText addr (tree_of value.now) self.old self.new) }
    {
        let text = repr_text(alloc, value)?;
        self.texts.insert(addr, text)?;
        Ok(())
    }

    /// Keeps the JSON of a value for an address. The one error is out of memory.
    pub fn keep_json(&mut self, alloc: Global, addr: u64, value: &Repr) -> Result<(), AllocError>
        ensures { OnOk result (KeepsJson addr (tree_of value.now) self.old self.new) }
    {
        let tree = repr_value(alloc, value)?;
        self.trees.insert(addr, tree)?;
        Ok(())
    }

    /// Keeps the name of the type of a value for an address, or that it has none. The one error is out of memory.
    pub fn keep_type(&mut self, addr: u64, name: Option<Text>) -> Result<(), AllocError>
        ensures { OnOk result (KeepsType addr name self.old self.new) }
    {
        self.types.insert(addr, name)?;
        Ok(())
    }
}
