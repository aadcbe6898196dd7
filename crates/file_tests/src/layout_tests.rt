//! A list of layouts that is made by hand. Files of layouts, and each flaw of one, are rows of the program.
use py_layout::{Layout, Layouts, Version};
use std::test::Fail;

#[test]
fn a_list_is_checked_and_taken(rt: HostRuntime) -> Result<(), Fail> {
    let list = vec![in rt.alloc(); Layout::sample()]?;
    assert!(rt; Layouts::check(&list));
    let layouts = Layouts::of(rt.alloc(), list)?;
    let version = Version::of_numbers(rt.alloc(), 3, 9, 7)?;
    assert!(rt; layouts.choose(&version).is_some());
    Ok(())
}
