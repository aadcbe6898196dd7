//! The names of registers, in the order in which status records have them.
ghost use Rattle.std.specs.Prelude.{◌≡◌, length, map};
ghost use Rattle.thread_registers.specs.Names.{aarch64_names, name_of, x86_64_names};

/// Those of x86-64: `user_regs_struct` of arch/x86/include/asm/user_64.h.
static X86_64: [&str; 27] = [
    "r15", "r14", "r13", "r12", "rbp", "rbx", "r11", "r10", "r9", "r8", "rax", "rcx", "rdx", "rsi",
    "rdi", "orig_rax", "rip", "cs", "eflags", "rsp", "ss", "fs_base", "gs_base", "ds", "es", "fs",
    "gs",
];

/// Those of aarch64: `user_pt_regs` of arch/arm64/include/uapi/asm/ptrace.h, whose `regs` are x0 to x30.
static AARCH64: [&str; 34] = [
    "x0", "x1", "x2", "x3", "x4", "x5", "x6", "x7", "x8", "x9", "x10", "x11", "x12", "x13", "x14",
    "x15", "x16", "x17", "x18", "x19", "x20", "x21", "x22", "x23", "x24", "x25", "x26", "x27",
    "x28", "x29", "x30", "sp", "pc", "pstate",
];

/// The names of x86-64.
#[tactic(auto, unfolding(crate::specs::Names::x86_64_names))]
pub(crate) fn x86_64_names() -> &'static [&'static str]
    ensures are { map name_of result.now ≡ x86_64_names }
    ensures count { length result.now ≡ 27 }
{
    &X86_64
}

/// The names of aarch64.
#[tactic(auto, unfolding(crate::specs::Names::aarch64_names))]
pub(crate) fn aarch64_names() -> &'static [&'static str]
    ensures are { map name_of result.now ≡ aarch64_names }
    ensures count { length result.now ≡ 34 }
{
    &AARCH64
}
