//! Addresses of a process, as places in the files that it had mapped; and the names of BPF programs.
#![tactic(auto)]

mod bpf_prog;
mod bpf_tag;
mod btf;
mod build_ids;
mod error;
mod file_offsets;
mod meta;
mod metas;
mod normalizer;
mod numbers;
mod options;
mod order;
mod outputs;
mod query;

pub use bpf_prog::BpfProg;
pub use bpf_tag::BpfTag;
pub use btf::{Btf, bpf_line_info, btf_header};
pub use error::NormalizeError;
pub use file_offsets::{FileOffset, file_offset, passes_end};
pub use meta::{Elf, Reason, Unknown, UserMeta};
pub use normalizer::{Builder, Normalizer};
pub use options::{NormalizeOpts, Output, UserOutput};
pub use order::in_order;
