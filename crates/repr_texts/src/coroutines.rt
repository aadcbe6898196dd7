//! Coroutines, generators and async generators.
ghost use Rattle.std.specs.Prelude.{◌≡◌, ◌++◌, OnOk, string_bytes};
ghost use Rattle.repr_texts.specs.Coroutines.{coroutine_text, form_text, own_name_text, state_text, state_word};

use crate::names::{push_address, push_known};
use elf64_core::Text;
use py_reprs::{CoroutineForm, CoroutineState};
use std::alloc::{AllocError, Global};

/// The word for what one is.
pub(crate) fn form_word(form: CoroutineForm) -> &'static str
    ensures { result.now ≡ form_text form }
{
    match form {
        CoroutineForm::Coroutine => "coroutine",
        CoroutineForm::Generator => "generator",
        CoroutineForm::AsyncGenerator => "async_generator",
    }
}

/// The word for how far one has come.
fn state_word(state: CoroutineState) -> &'static str
    ensures { result.now ≡ state_word state }
{
    match state {
        CoroutineState::Created => "created",
        CoroutineState::Suspended => "suspended",
        CoroutineState::Running => "running",
        CoroutineState::Finished => "finished",
    }
}

/// Appends a name behind a blank, where it is known.
fn push_own_name(alloc: Global, text: &mut String, name: &Option<Text>) -> Result<(), AllocError>
    ensures { OnOk result (string_bytes text.new ≡ string_bytes text.old ++ own_name_text name.now) }
{
    match name {
        Some(name) => {
            text.push_str(" ")?;
            push_known(alloc, text, name)
        }
        None => Ok(()),
    }
}

/// Appends how far one has come, where that is known.
fn push_state(text: &mut String, state: Option<CoroutineState>) -> Result<(), AllocError>
    ensures { OnOk result (string_bytes text.new ≡ string_bytes text.old ++ state_text state) }
{
    match state {
        Some(state) => {
            text.push_str(": ")?;
            text.push_str(state_word(state))
        }
        None => Ok(()),
    }
}

/// Appends a coroutine, a generator or an async generator.
pub(crate) fn push_coroutine(
    alloc: Global,
    text: &mut String,
    form: CoroutineForm,
    name: &Option<Text>,
    state: Option<CoroutineState>,
    addr: u64,
) -> Result<(), AllocError>
    ensures { OnOk result (string_bytes text.new
        ≡ string_bytes text.old ++ coroutine_text form name.now state addr) }
{
    text.push_str("<")?;
    text.push_str(form_word(form))?;
    push_own_name(alloc, text, name)?;
    push_address(text, addr)?;
    push_state(text, state)?;
    text.push_str(">")
}
