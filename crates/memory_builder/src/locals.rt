//! Local variables, as they are laid: their names, and their values.
ghost use Rattle.std.specs.Prelude.{◌≡◌, ◌<◌, ◌++◌, ◌^◌, ◌+◌, map, IfOk};
ghost use Rattle.std.specs.List.{AllByRecursion, flat_map, sum_by};
ghost use Rattle.py_fields.specs.Sound.{IsSound};
ghost use Rattle.memory_builder.specs.Chains.{addresses_from};
ghost use Rattle.memory_builder.specs.Mirror.{local_in};
ghost use Rattle.memory_builder.specs.Sizes.{local_size, name_size};
ghost use Rattle.memory_builder.specs.Validity.{IsValidLocal};
ghost use Rattle.memory_builder.specs.Values.{address_array, laid_all, laid_local, laid_name};

use crate::parts::ProgramLocal;
use crate::sizes::value_size;
use crate::values::{TypesAt, add_value};
use object_builder::{add_text, rounded, text_len};
use py_fields::Layout;
use std::alloc::{AllocError, Global};

/// Adds the names of locals. The one error is out of memory.
pub(crate) fn add_names(
    alloc: Global,
    out: &mut Vec<u8>,
    layout: &Layout,
    locals: &[ProgramLocal],
) -> Result<(), AllocError>
    requires sound { IsSound layout.now }
    requires valid { AllByRecursion IsValidLocal (map local_in locals.now) }
    ensures { IfOk result (λ _. out.new.items ≡ out.old.items
        ++ flat_map (laid_name layout.now) (map local_in locals.now)) }
{
    for local in locals {
        add_text(alloc, out, layout, None, &local.name)?;
    }
    Ok(())
}

/// The addresses of the names of locals, of which the first is given. The one error is out of memory.
pub(crate) fn name_addresses(
    alloc: Global,
    layout: &Layout,
    at: u64,
    locals: &[ProgramLocal],
) -> Result<Vec<u8>, AllocError>
    requires sound { IsSound layout.now }
    requires valid { AllByRecursion IsValidLocal (map local_in locals.now) }
    requires fits { at + sum_by (name_size layout.now) (map local_in locals.now) < 2 ^ 63 }
    ensures { IfOk result (λ found. found.items
        ≡ address_array (addresses_from (name_size layout.now) at (map local_in locals.now))) }
{
    let mut found = Vec::new(alloc);
    let mut here = at;
    for local in locals {
        found.extend_from_slice(&here.to_le_bytes())?;
        here += rounded(text_len(layout, &local.name));
    }
    Ok(found)
}

/// Adds the values of locals, of which the first is to stand at an address. The one error is out of memory.
pub(crate) fn add_values(
    alloc: Global,
    out: &mut Vec<u8>,
    layout: &Layout,
    types: TypesAt,
    at: u64,
    locals: &[ProgramLocal],
) -> Result<(), AllocError>
    requires sound { IsSound layout.now }
    requires valid { AllByRecursion IsValidLocal (map local_in locals.now) }
    requires fits { at + sum_by (local_size layout.now) (map local_in locals.now) < 2 ^ 63 }
    ensures { IfOk result (λ _. out.new.items ≡ out.old.items
        ++ laid_all (local_size layout.now) (laid_local layout.now types) at (map local_in locals.now)) }
{
    let mut here = at;
    for local in locals {
        add_value(alloc, out, layout, types, here, &local.value)?;
        here += value_size(layout, &local.value);
    }
    Ok(())
}

/// The addresses of the values of locals, of which the first is given. The one error is out of memory.
pub(crate) fn value_addresses(
    alloc: Global,
    layout: &Layout,
    at: u64,
    locals: &[ProgramLocal],
) -> Result<Vec<u8>, AllocError>
    requires sound { IsSound layout.now }
    requires valid { AllByRecursion IsValidLocal (map local_in locals.now) }
    requires fits { at + sum_by (local_size layout.now) (map local_in locals.now) < 2 ^ 63 }
    ensures { IfOk result (λ found. found.items
        ≡ address_array (addresses_from (local_size layout.now) at (map local_in locals.now))) }
{
    let mut found = Vec::new(alloc);
    let mut here = at;
    for local in locals {
        found.extend_from_slice(&here.to_le_bytes())?;
        here += value_size(layout, &local.value);
    }
    Ok(found)
}
