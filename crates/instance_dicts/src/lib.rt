//! The attributes of an instance of a Python class: where its own dict or its values stand, and what they are.
//!
//! The rule is CPython's of its objects, by its version's form: from 3.11 on an instance may hold its values without a
//! dict, and 3.13 has them in the instance itself.
#![tactic(auto)]

mod attributes;
mod forms;
mod instances;
mod managed;
mod plain;

pub use attributes::{Attribute, Attributes, dict_attributes};
pub use forms::{DictForm, InstanceDict, InstanceFields};
pub use instances::instance_dict;
