//! Values with values in them.
use elf64_core::Text;
use py_reprs::{
    BytesForm, CoroutineForm, CoroutineState, IntegerForm, ItemsForm, Kind, Repr, TextForm,
};
use repr_texts::push_repr;
use std::alloc::{AllocError, Global};
use std::test::Fail;

fn text_of(alloc: Global, value: &Repr) -> Result<String, AllocError> {
    let mut text = String::new(alloc);
    push_repr(alloc, &mut text, value)?;
    Ok(text)
}

fn integer(alloc: Global, digit: u32) -> Result<Repr, AllocError> {
    Ok(Repr::Integer {
        form: IntegerForm::Int,
        is_negative: false,
        digits: vec![in alloc; digit]?,
    })
}

fn one_item(alloc: Global, form: ItemsForm, item: Repr, left_out: u64) -> Result<Repr, AllocError> {
    let mut items = Vec::new(alloc);
    items.push(item)?;
    Ok(Repr::Items {
        form,
        items,
        left_out,
    })
}

fn pairs(alloc: Global, key: Repr, value: Repr, left_out: u64) -> Result<Repr, AllocError> {
    let mut keys = Vec::new(alloc);
    keys.push(key)?;
    let mut values = Vec::new(alloc);
    values.push(value)?;
    Ok(Repr::Pairs {
        keys,
        values,
        left_out,
    })
}

fn word(front: Vec<u32>) -> Repr {
    let length = front.len() as u64;
    Repr::Text {
        form: TextForm::Str,
        front,
        length,
    }
}

fn instance(
    alloc: Global,
    names: Vec<Repr>,
    values: Vec<Repr>,
    left_out: u64,
) -> Result<Repr, AllocError> {
    Ok(Repr::Instance {
        class: Some(Text::of(alloc, "m.C")?),
        addr: 16,
        names,
        values,
        left_out,
    })
}

#[test]
fn an_instance_has_names_and_values(rt: HostRuntime) -> Result<(), Fail> {
    let mut names = Vec::new(rt.alloc());
    names.push(word(vec![in rt.alloc(); 105, 100]?))?;
    names.push(word(vec![in rt.alloc(); 97, 61, 98]?))?;
    names.push(word(vec![in rt.alloc(); 49]?))?;
    let mut values = Vec::new(rt.alloc());
    values.push(integer(rt.alloc(), 7)?)?;
    values.push(integer(rt.alloc(), 8)?)?;
    values.push(integer(rt.alloc(), 9)?)?;
    let shown = instance(rt.alloc(), names, values, 3)?;
    let text = text_of(rt.alloc(), &shown)?;
    assert!(rt;
        text.as_str() == "<m.C at 0x10: id=7, 'a=b'=8, '1'=9, .. 3 more>",
        "{text}"
    );
    Ok(())
}

#[test]
fn one_item_has_a_comma_in_a_tuple(rt: HostRuntime) -> Result<(), Fail> {
    let item = integer(rt.alloc(), 7)?;
    let tuple = one_item(rt.alloc(), ItemsForm::Tuple, item, 0)?;
    let list = one_item(rt.alloc(), ItemsForm::List, tuple, 2)?;
    let text = text_of(rt.alloc(), &list)?;
    assert!(rt; text.as_str() == "[(7,), .. 2 more]", "{text}");
    Ok(())
}

#[test]
fn an_empty_set_has_a_word(rt: HostRuntime) -> Result<(), Fail> {
    let empty = Repr::Items {
        form: ItemsForm::Set,
        items: Vec::new(rt.alloc()),
        left_out: 0,
    };
    let held = one_item(rt.alloc(), ItemsForm::FrozenSet, empty, 0)?;
    let text = text_of(rt.alloc(), &held)?;
    assert!(rt; text.as_str() == "frozenset({set()})", "{text}");
    Ok(())
}

#[test]
fn a_dict_has_keys_and_values(rt: HostRuntime) -> Result<(), Fail> {
    let key = Repr::Text {
        form: TextForm::Str,
        front: vec![in rt.alloc(); 97]?,
        length: 4096,
    };
    let value = Repr::Bytes {
        form: BytesForm::Bytes,
        front: vec![in rt.alloc(); 0]?,
        length: 1,
    };
    let dict = pairs(rt.alloc(), key, value, 5)?;
    let text = text_of(rt.alloc(), &dict)?;
    assert!(rt;
        text.as_str() == "{'a'.. 4096 characters: b'\\x00', .. 5 more}",
        "{text}"
    );
    Ok(())
}

#[test]
fn names_that_could_be_more_stand_in_quotes(rt: HostRuntime) -> Result<(), Fail> {
    let class = Text::of(rt.alloc(), "x at 0x5> <y")?;
    let forged = Repr::Opaque {
        class: Some(class),
        addr: 16,
    };
    let text = text_of(rt.alloc(), &forged)?;
    assert!(rt; text.as_str() == "<'x at 0x5> <y' at 0x10>", "{text}");
    Ok(())
}

#[test]
fn a_coroutine_has_its_name_and_its_state(rt: HostRuntime) -> Result<(), Fail> {
    let fetch = Repr::Coroutine {
        form: CoroutineForm::Coroutine,
        name: Some(Text::of(rt.alloc(), "fetch")?),
        state: Some(CoroutineState::Suspended),
        addr: 16,
    };
    let text = text_of(rt.alloc(), &fetch)?;
    assert!(rt;
        text.as_str() == "<coroutine fetch at 0x10: suspended>",
        "{text}"
    );
    let rows = Repr::Coroutine {
        form: CoroutineForm::AsyncGenerator,
        name: None,
        state: None,
        addr: 16,
    };
    let text = text_of(rt.alloc(), &rows)?;
    assert!(rt; text.as_str() == "<async_generator at 0x10>", "{text}");
    Ok(())
}

#[test]
fn a_bytearray_escapes_the_apostrophe(rt: HostRuntime) -> Result<(), Fail> {
    let mut front = Vec::new(rt.alloc());
    front.push(105)?;
    front.push(39)?;
    let array = Repr::Bytes {
        form: BytesForm::ByteArray,
        front,
        length: 2,
    };
    let text = text_of(rt.alloc(), &array)?;
    assert!(rt; text.as_str() == "bytearray(b\"i\\'\")", "{text}");
    Ok(())
}

#[test]
fn a_cell_and_a_method_show_what_they_hold(rt: HostRuntime) -> Result<(), Fail> {
    let held = one_item(rt.alloc(), ItemsForm::Cell, Repr::Absent, 0)?;
    let method = one_item(rt.alloc(), ItemsForm::Method, held, 0)?;
    let text = text_of(rt.alloc(), &method)?;
    assert!(rt; text.as_str() == "<bound method <cell: empty>>", "{text}");
    Ok(())
}

#[test]
fn numbers_of_all_kinds_have_texts(rt: HostRuntime) -> Result<(), Fail> {
    let huge = Repr::HugeInteger {
        form: IntegerForm::Int,
        is_negative: true,
        digits: 111,
        highest: 1,
    };
    let text = text_of(rt.alloc(), &huge)?;
    assert!(rt;
        text.as_str() == "<negative int of 111 digits of 30 bits>",
        "{text}"
    );
    let float = text_of(
        rt.alloc(),
        &Repr::Float {
            bits: 0x3ff0_0000_0000_0000,
        },
    )?;
    assert!(rt; float.as_str() == "1.0", "{float}");
    let truth = text_of(rt.alloc(), &Repr::Truth(true))?;
    assert!(rt; truth.as_str() == "True", "{truth}");
    Ok(())
}

#[test]
fn a_function_has_its_place(rt: HostRuntime) -> Result<(), Fail> {
    let function = Repr::Function {
        name: Some(Text::of(rt.alloc(), "f")?),
        file: None,
        line: 7,
        addr: 16,
    };
    let text = text_of(rt.alloc(), &function)?;
    assert!(rt; text.as_str() == "<function f at 0x10 (?:7)>", "{text}");
    let class = Repr::Class {
        name: Some(Text::of(rt.alloc(), "C")?),
        addr: 16,
    };
    let named = text_of(rt.alloc(), &class)?;
    assert!(rt; named.as_str() == "<class 'C'>", "{named}");
    Ok(())
}

#[test]
fn what_is_lost_says_so(rt: HostRuntime) -> Result<(), Fail> {
    let lost = Repr::Lost {
        kind: Kind::Text,
        addr: 4096,
        len: 48,
    };
    let text = text_of(rt.alloc(), &lost)?;
    assert!(rt;
        text.as_str() == "<str: 48 bytes unreadable at 0x1000>",
        "{text}"
    );
    Ok(())
}
