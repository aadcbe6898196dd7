//! Functions, methods, modules, and what they hold on to.
ghost use Rattle.std.specs.Prelude.{◌≡◌, ◌↔◌, IsTrue, IfSome, option_map, codes, Some, None};
ghost use Rattle.toml.specs.View.{table_view};
ghost use Rattle.py_layout.specs.Values.{group_at};
ghost use Rattle.py_records.specs.Callables.{partial_places, IsSoundPartial, partial_in, module_object_places};
ghost use Rattle.py_records.specs.Callables.{IsSoundModuleObject, module_object_in, function_places, IsSoundFunction};
ghost use Rattle.py_records.specs.Callables.{function_in, method_places, IsSoundMethod, method_in, builtin_places};
ghost use Rattle.py_records.specs.Callables.{IsSoundBuiltin, builtin_in, method_def_places, IsSoundMethodDef};
ghost use Rattle.py_records.specs.Callables.{method_def_in, cell_places, IsSoundCell, cell_in, weakref_places};
ghost use Rattle.py_records.specs.Callables.{IsSoundWeakref, weakref_in, callables_from, AreSoundCallables};
ghost use Rattle.py_records.specs.Callables.{joined_callables, share_callables, no_callables};

use crate::places::{Place, any_both, is_record};
use crate::values::{group_at, number_in};
use toml::Table;

/// A `partial` (`partialobject`, Modules/_functoolsmodule.c).
#[derive(Clone, Copy)]
pub struct PartialRecord {
    /// The basic size that its type states.
    pub size: u32,
    /// The address of what is called.
    pub function: u32,
    /// The address of the tuple of arguments.
    pub args: u32,
    /// The address of the dict of keywords.
    pub keywords: u32,
}

/// A module (`PyModuleObject`, Include/internal/pycore_moduleobject.h).
#[derive(Clone, Copy)]
pub struct ModuleObjectRecord {
    /// The basic size that its type states.
    pub size: u32,
    /// The address of its dict.
    pub dict: u32,
    /// The address of its name.
    pub name: u32,
}

/// A function (`PyFunctionObject`, Include/funcobject.h).
#[derive(Clone, Copy)]
pub struct FunctionRecord {
    /// The basic size that its type states.
    pub size: u32,
    /// The address of its code.
    pub code: u32,
    /// The address of the dict of its module.
    pub globals: u32,
    /// The address of its name.
    pub name: u32,
    /// The address of its qualified name.
    pub qualname: u32,
    /// The address of the tuple of its cells.
    pub closure: u32,
    /// The address of its dict.
    pub dict: u32,
    /// The address of its module's name.
    pub home: u32,
}

/// A bound method (`PyMethodObject`, Include/classobject.h).
#[derive(Clone, Copy)]
pub struct MethodRecord {
    /// The basic size that its type states.
    pub size: u32,
    /// The address of the function.
    pub function: u32,
    /// The address of the object that it is bound to.
    pub receiver: u32,
}

/// A function or method of C (`PyCFunctionObject`, Include/methodobject.h).
#[derive(Clone, Copy)]
pub struct BuiltinRecord {
    /// The basic size that its type states.
    pub size: u32,
    /// The address of its definition.
    pub definition: u32,
    /// The address of the object that it is bound to, if any.
    pub receiver: u32,
    /// The address of its module's name.
    pub home: u32,
}

/// The definition of a function of C (`PyMethodDef`, Include/methodobject.h).
#[derive(Clone, Copy)]
pub struct MethodDefRecord {
    pub size: u32,
    /// The address of its name, ended by a nul.
    pub name: u32,
}

/// A cell of a closure (`PyCellObject`, Include/cellobject.h).
#[derive(Clone, Copy)]
pub struct CellRecord {
    /// The basic size that its type states.
    pub size: u32,
    /// The address of the value; 0 where there is none.
    pub value: u32,
}

/// A weak reference (`PyWeakReference`, Include/weakrefobject.h).
#[derive(Clone, Copy)]
pub struct WeakrefRecord {
    /// The basic size that its type states.
    pub size: u32,
    /// The address of the object; that of `None` once it is dead.
    pub object: u32,
    /// The address of what is called then.
    pub callback: u32,
}

/// Functions, methods, modules, and what they hold on to. Each group is there or not.
#[derive(Clone, Copy)]
pub struct CallableRecords {
    pub partial: Option<PartialRecord>,
    pub module_object: Option<ModuleObjectRecord>,
    pub function: Option<FunctionRecord>,
    pub method: Option<MethodRecord>,
    pub builtin: Option<BuiltinRecord>,
    pub method_def: Option<MethodDefRecord>,
    pub cell: Option<CellRecord>,
    pub weakref: Option<WeakrefRecord>,
}

fn partial_from(table: &Table) -> Option<PartialRecord>
    ensures { result ≡ option_map partial_in (group_at (table_view table.now) (codes "partial")) }
{
    match group_at(table, "partial") {
        Some(group) => Some(PartialRecord {
            size: number_in(group, "size"),
            function: number_in(group, "function"),
            args: number_in(group, "args"),
            keywords: number_in(group, "keywords"),
        }),
        None => None,
    }
}

#[tactic(auto, unfolding(crate::specs::Callables::partial_places))]
fn is_sound_partial(at: Option<PartialRecord>) -> bool
    ensures { IsTrue result ↔ IfSome at IsSoundPartial }
{
    match at {
        Some(at) => is_record(at.size, &[(at.function, 8), (at.args, 8), (at.keywords, 8)]),
        None => true,
    }
}

fn module_object_from(table: &Table) -> Option<ModuleObjectRecord>
    ensures { result ≡ option_map module_object_in (group_at (table_view table.now) (codes "module")) }
{
    match group_at(table, "module") {
        Some(group) => Some(ModuleObjectRecord {
            size: number_in(group, "size"),
            dict: number_in(group, "dict"),
            name: number_in(group, "name"),
        }),
        None => None,
    }
}

#[tactic(auto, unfolding(crate::specs::Callables::module_object_places))]
fn is_sound_module_object(at: Option<ModuleObjectRecord>) -> bool
    ensures { IsTrue result ↔ IfSome at IsSoundModuleObject }
{
    match at {
        Some(at) => is_record(at.size, &[(at.dict, 8), (at.name, 8)]),
        None => true,
    }
}

fn function_from(table: &Table) -> Option<FunctionRecord>
    ensures { result ≡ option_map function_in (group_at (table_view table.now) (codes "function")) }
{
    match group_at(table, "function") {
        Some(group) => Some(FunctionRecord {
            size: number_in(group, "size"),
            code: number_in(group, "code"),
            globals: number_in(group, "globals"),
            name: number_in(group, "name"),
            qualname: number_in(group, "qualname"),
            closure: number_in(group, "closure"),
            dict: number_in(group, "dict"),
            home: number_in(group, "module"),
        }),
        None => None,
    }
}

#[tactic(auto, unfolding(crate::specs::Callables::function_places))]
fn function_places(at: &FunctionRecord) -> [Place; 7]
    ensures { result ≡ function_places at.now }
{
    [
        (at.code, 8),
        (at.globals, 8),
        (at.name, 8),
        (at.qualname, 8),
        (at.closure, 8),
        (at.dict, 8),
        (at.home, 8),
    ]
}

fn is_sound_function(at: Option<FunctionRecord>) -> bool
    ensures { IsTrue result ↔ IfSome at IsSoundFunction }
{
    match at {
        Some(at) => is_record(at.size, &function_places(&at)),
        None => true,
    }
}

fn method_from(table: &Table) -> Option<MethodRecord>
    ensures { result ≡ option_map method_in (group_at (table_view table.now) (codes "method")) }
{
    match group_at(table, "method") {
        Some(group) => Some(MethodRecord {
            size: number_in(group, "size"),
            function: number_in(group, "function"),
            receiver: number_in(group, "self"),
        }),
        None => None,
    }
}

#[tactic(auto, unfolding(crate::specs::Callables::method_places))]
fn is_sound_method(at: Option<MethodRecord>) -> bool
    ensures { IsTrue result ↔ IfSome at IsSoundMethod }
{
    match at {
        Some(at) => is_record(at.size, &[(at.function, 8), (at.receiver, 8)]),
        None => true,
    }
}

fn builtin_from(table: &Table) -> Option<BuiltinRecord>
    ensures { result ≡ option_map builtin_in (group_at (table_view table.now) (codes "builtin")) }
{
    match group_at(table, "builtin") {
        Some(group) => Some(BuiltinRecord {
            size: number_in(group, "size"),
            definition: number_in(group, "def"),
            receiver: number_in(group, "self"),
            home: number_in(group, "module"),
        }),
        None => None,
    }
}

#[tactic(auto, unfolding(crate::specs::Callables::builtin_places))]
fn is_sound_builtin(at: Option<BuiltinRecord>) -> bool
    ensures { IsTrue result ↔ IfSome at IsSoundBuiltin }
{
    match at {
        Some(at) => is_record(
            at.size,
            &[(at.definition, 8), (at.receiver, 8), (at.home, 8)],
        ),
        None => true,
    }
}

fn method_def_from(table: &Table) -> Option<MethodDefRecord>
    ensures { result ≡ option_map method_def_in (group_at (table_view table.now) (codes "method_def")) }
{
    match group_at(table, "method_def") {
        Some(group) => Some(MethodDefRecord {
            size: number_in(group, "size"),
            name: number_in(group, "name"),
        }),
        None => None,
    }
}

#[tactic(auto, unfolding(crate::specs::Callables::method_def_places))]
fn is_sound_method_def(at: Option<MethodDefRecord>) -> bool
    ensures { IsTrue result ↔ IfSome at IsSoundMethodDef }
{
    match at {
        Some(at) => is_record(at.size, &[(at.name, 8)]),
        None => true,
    }
}

fn cell_from(table: &Table) -> Option<CellRecord>
    ensures { result ≡ option_map cell_in (group_at (table_view table.now) (codes "cell")) }
{
    match group_at(table, "cell") {
        Some(group) => Some(CellRecord {
            size: number_in(group, "size"),
            value: number_in(group, "value"),
        }),
        None => None,
    }
}

#[tactic(auto, unfolding(crate::specs::Callables::cell_places))]
fn is_sound_cell(at: Option<CellRecord>) -> bool
    ensures { IsTrue result ↔ IfSome at IsSoundCell }
{
    match at {
        Some(at) => is_record(at.size, &[(at.value, 8)]),
        None => true,
    }
}

fn weakref_from(table: &Table) -> Option<WeakrefRecord>
    ensures { result ≡ option_map weakref_in (group_at (table_view table.now) (codes "weakref")) }
{
    match group_at(table, "weakref") {
        Some(group) => Some(WeakrefRecord {
            size: number_in(group, "size"),
            object: number_in(group, "object"),
            callback: number_in(group, "callback"),
        }),
        None => None,
    }
}

#[tactic(auto, unfolding(crate::specs::Callables::weakref_places))]
fn is_sound_weakref(at: Option<WeakrefRecord>) -> bool
    ensures { IsTrue result ↔ IfSome at IsSoundWeakref }
{
    match at {
        Some(at) => is_record(at.size, &[(at.object, 8), (at.callback, 8)]),
        None => true,
    }
}

/// The groups that a table says.
#[tactic(auto, unfolding(crate::specs::Callables::callables_from))]
pub fn callables_from(table: &Table) -> CallableRecords
    ensures { result ≡ callables_from (table_view table.now) }
{
    CallableRecords {
        partial: partial_from(table),
        module_object: module_object_from(table),
        function: function_from(table),
        method: method_from(table),
        builtin: builtin_from(table),
        method_def: method_def_from(table),
        cell: cell_from(table),
        weakref: weakref_from(table),
    }
}

/// Whether each group that is there is sound.
pub fn are_sound_callables(records: &CallableRecords) -> bool
    ensures { IsTrue result ↔ AreSoundCallables records.now }
{
    is_sound_partial(records.partial)
        && is_sound_module_object(records.module_object)
        && is_sound_function(records.function)
        && is_sound_method(records.method)
        && is_sound_builtin(records.builtin)
        && is_sound_method_def(records.method_def)
        && is_sound_cell(records.cell)
        && is_sound_weakref(records.weakref)
}

/// No group is there.
pub fn no_callables() -> CallableRecords
    ensures { result ≡ no_callables }
{
    CallableRecords {
        partial: None,
        module_object: None,
        function: None,
        method: None,
        builtin: None,
        method_def: None,
        cell: None,
        weakref: None,
    }
}

/// Each group of the first that is there, and else of the second.
#[tactic(auto, unfolding(crate::specs::Callables::joined_callables))]
pub fn joined_callables(one: &CallableRecords, other: &CallableRecords) -> CallableRecords
    ensures { result ≡ joined_callables one.now other.now }
{
    CallableRecords {
        partial: one.partial.or(other.partial),
        module_object: one.module_object.or(other.module_object),
        function: one.function.or(other.function),
        method: one.method.or(other.method),
        builtin: one.builtin.or(other.builtin),
        method_def: one.method_def.or(other.method_def),
        cell: one.cell.or(other.cell),
        weakref: one.weakref.or(other.weakref),
    }
}

/// Whether a group is there in both.
#[tactic(auto, unfolding(crate::specs::Callables::share_callables))]
pub fn share_callables(one: &CallableRecords, other: &CallableRecords) -> bool
    ensures { result ≡ share_callables one.now other.now }
{
    any_both(
        &[
            one.partial.is_some(),
            one.module_object.is_some(),
            one.function.is_some(),
            one.method.is_some(),
            one.builtin.is_some(),
            one.method_def.is_some(),
            one.cell.is_some(),
            one.weakref.is_some(),
        ],
        &[
            other.partial.is_some(),
            other.module_object.is_some(),
            other.function.is_some(),
            other.method.is_some(),
            other.builtin.is_some(),
            other.method_def.is_some(),
            other.cell.is_some(),
            other.weakref.is_some(),
        ],
    )
}
