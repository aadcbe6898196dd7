//! The dict of an instance.
ghost use Rattle.std.specs.Prelude.{◌≡◌};
ghost use Rattle.py_fields.specs.Sound.{IsSound};
ghost use Rattle.py_builtins.specs.Consulted.{Consults, ReadsFields};
ghost use Rattle.py_builtins.specs.ObjectError.{object_fault};
ghost use Rattle.py_builtins.specs.Texts.{bit_is_set};
ghost use Rattle.instance_dicts.specs.Instances.{dict_of_class, instance_dict_at, is_managed};

use crate::forms::{DictForm, InstanceDict, InstanceFields};
use crate::managed::managed_dict;
use crate::plain::plain_dict;
use process_memory::ProcessMemory;
use py_builtins::{ObjectError, ObjectType, PY_TPFLAGS_MANAGED_DICT, read_type};
use py_fields::Layout;
use std::alloc::Global;

/// Whether flags have the one of managed dicts.
fn has_flag(flags: u64) -> bool
    ensures { result ≡ bit_is_set flags 4 }
{
    flags & PY_TPFLAGS_MANAGED_DICT != 0
}

/// Whether a class with these flags manages the dicts of its instances.
fn is_managed(form: DictForm, flags: u64) -> bool
    ensures { result ≡ is_managed form flags }
{
    match form {
        DictForm::Pointer => false,
        DictForm::ValuesAndDict | DictForm::OneWord | DictForm::Embedded => has_flag(flags),
    }
}

/// The dict of an instance of a class. At most 4 reads.
fn dict_of_class<P: ProcessMemory>(
    process: &mut P,
    fields: &InstanceFields,
    form: DictForm,
    addr: u64,
    class: ObjectType,
) -> Result<InstanceDict, ObjectError>
    ensures { ReadsFields object_fault 4 (P.seen process.old) (P.seen process.new)
        (λ m. dict_of_class fields.now m form addr class) result }
{
    if is_managed(form, class.flags) {
        return managed_dict(process, fields, form, addr, class.at, class.flags);
    }
    plain_dict(process, fields, addr, class.at, class.dict_offset)
}

/// Where the dict or the values of the instance at an address stand.
///
/// From 3.11 on its class may manage its dict, by bit 4 of its flags: as `DictForm` says, its values or its dict stand
/// where words before it say, or the values in it, where the class's flags have bit 2, in 3.13: at the basic size of
/// the
/// class, behind a header of 8 bytes whose byte 3 is not 0. The keys of values are those that the class's record names.
/// Else the class says how far behind the instance the word stands that names the dict, a negative distance from the
/// instance's end, its items included: 0 says that there is none, and so does a word of 0.
///
/// What is not in memory is `Unreadable`: the instance's record and its class's, then the words in this order. Else it
/// is
/// out of memory. At most 6 reads.
pub fn instance_dict<P: ProcessMemory>(
    alloc: Global,
    process: &mut P,
    layout: &Layout,
    fields: &InstanceFields,
    form: DictForm,
    addr: u64,
) -> Result<InstanceDict, ObjectError>
    requires sound { IsSound layout.now }
    ensures { Consults layout.now object_fault 6 (P.seen process.old) (P.seen process.new)
        (λ m. instance_dict_at layout.now fields.now m form addr) result }
{
    let class = read_type(alloc, process, layout, addr)?;
    dict_of_class(process, fields, form, addr, class)
}
