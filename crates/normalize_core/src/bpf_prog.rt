//! The name of a BPF program, as a kernel shows it among its symbols.
ghost use Rattle.std.specs.Prelude.{◌≡◌, IfOk, option_map};
ghost use Rattle.std.specs.List.{before_first, position};
ghost use Rattle.normalize_core.specs.Programs.{is_underscore, named_tag, prog_of};

use crate::BpfTag;
use crate::bpf_tag::tag_in;
use std::alloc::{AllocError, Global};
use std::marker::Model;

/// What the names of BPF programs begin with.
const PREFIX: &[u8] = b"bpf_prog_";

/// A BPF program: its address, its name and its tag.
#[derive(Debug, Drop)]
pub struct BpfProg {
    address: u64,
    text: String,
    tag: BpfTag,
}

impl Model for BpfProg {
    ghost use Rattle.std.specs.Prelude.{string_bytes};
    ghost use Rattle.normalize_core.specs.Programs.{Prog};

    ghost Value = { Prog };

    ghost view = { λ p. record { addr = p.address; name = string_bytes p.text; tag = p.tag.0 } };
}

impl BpfProg {
    /// The program of a name, where that is `bpf_prog_` and a tag up to the next `_` or the end; none for any
    /// other text. The one error is out of memory.
    pub fn parse(alloc: Global, s: &str, addr: u64) -> Result<Option<BpfProg>, AllocError>
        ensures { IfOk result (λ prog. prog ≡ prog_of s.now addr) }
    {
        let Some(tag) = named_tag(s.as_bytes()) else {
            return Ok(None);
        };
        let text = String::from_str(alloc, s)?;
        Ok(Some(BpfProg {
            address: addr,
            text,
            tag,
        }))
    }

    /// Its address.
    pub fn addr(&self) -> u64
        ensures { result ≡ self.now.addr }
    {
        self.address
    }

    /// Its whole name.
    pub fn name(&self) -> &str
        ensures { result.now ≡ self.now.name }
    {
        self.text.as_str()
    }

    /// Its tag.
    pub fn tag(&self) -> BpfTag
        ensures { result.0 ≡ self.now.tag }
    {
        self.tag
    }
}

/// Where the first `_` stands, if there is one.
fn first_underscore(text: &[u8]) -> Option<usize>
    ensures { result ≡ position is_underscore text.now }
{
    text.iter().position(|byte| *byte == b'_')
}

/// What stands before the first `_`.
fn before_underscore(text: &[u8]) -> &[u8]
    ensures { result.now ≡ before_first is_underscore text.now }
{
    match first_underscore(text) {
        Some(end) => &text[..end],
        None => text,
    }
}

/// The tag in a name.
fn named_tag(name: &[u8]) -> Option<BpfTag>
    ensures { option_map (λ tag. tag.0) result ≡ named_tag name.now }
{
    let rest = name.strip_prefix(PREFIX)?;
    tag_in(before_underscore(rest))
}
