ghost use Rattle.std.specs.Prelude.{◌≡◌, ◌<◌, ◌≤◌, ℕ, length, IfSome, IfNone, Some};
ghost use Rattle.sys_table.specs.Table.{name_of, recorded_of, result_of};

use crate::ArgKind::{Bytes, Signed, Unsigned};
use crate::ResultKind::{Int, UnsignedInt, Void};
use crate::{ArgKind, ResultKind};
use line_text::SysName;

// One system call of the table.
struct SysCall {
    name: &'static [u8],
    recorded: &'static [ArgKind],
    result: ResultKind,
}

// The system calls, each at the place of its number.
static TABLE: [SysCall; 24] = [
    SysCall {
        name: b"read",
        recorded: &[Signed, Unsigned],
        result: Int,
    },
    SysCall {
        name: b"write",
        recorded: &[Signed, Bytes],
        result: Int,
    },
    SysCall {
        name: b"open",
        recorded: &[Bytes, Signed, Unsigned],
        result: Int,
    },
    SysCall {
        name: b"close",
        recorded: &[Signed],
        result: Int,
    },
    SysCall {
        name: b"lseek",
        recorded: &[Signed, Signed, Signed],
        result: Int,
    },
    SysCall {
        name: b"dup",
        recorded: &[Signed],
        result: Int,
    },
    SysCall {
        name: b"dup2",
        recorded: &[Signed, Signed],
        result: Int,
    },
    SysCall {
        name: b"unlink",
        recorded: &[Bytes],
        result: Int,
    },
    SysCall {
        name: b"rename",
        recorded: &[Bytes, Bytes],
        result: Int,
    },
    SysCall {
        name: b"mkdir",
        recorded: &[Bytes, Unsigned],
        result: Int,
    },
    SysCall {
        name: b"rmdir",
        recorded: &[Bytes],
        result: Int,
    },
    SysCall {
        name: b"chdir",
        recorded: &[Bytes],
        result: Int,
    },
    SysCall {
        name: b"chmod",
        recorded: &[Bytes, Unsigned],
        result: Int,
    },
    SysCall {
        name: b"kill",
        recorded: &[Signed, Signed],
        result: Int,
    },
    SysCall {
        name: b"getpid",
        recorded: &[],
        result: Int,
    },
    SysCall {
        name: b"getppid",
        recorded: &[],
        result: Int,
    },
    SysCall {
        name: b"getuid",
        recorded: &[],
        result: UnsignedInt,
    },
    SysCall {
        name: b"geteuid",
        recorded: &[],
        result: UnsignedInt,
    },
    SysCall {
        name: b"getgid",
        recorded: &[],
        result: UnsignedInt,
    },
    SysCall {
        name: b"setuid",
        recorded: &[Unsigned],
        result: Int,
    },
    SysCall {
        name: b"socket",
        recorded: &[Signed, Signed, Signed],
        result: Int,
    },
    SysCall {
        name: b"listen",
        recorded: &[Signed, Signed],
        result: Int,
    },
    SysCall {
        name: b"fork",
        recorded: &[],
        result: Int,
    },
    SysCall {
        name: b"_exit",
        recorded: &[Signed],
        result: Void,
    },
];

/// The name of a system call.
#[tactic(auto, unfolding(crate::specs::Table::table))]
pub fn name_text(name: SysName) -> &'static [u8]
    ensures { result.now ≡ name_of name }
{
    TABLE[name.index() as usize].name
}

/// The kinds of a system call's recorded arguments, in order, at most three.
#[tactic(auto, unfolding(crate::specs::Table::table))]
pub fn argument_kinds(name: SysName) -> &'static [ArgKind]
    ensures kinds { result.now ≡ recorded_of name }
    ensures few { length result.now ≤ 3 }
{
    TABLE[name.index() as usize].recorded
}

/// The kind of a system call's result.
#[tactic(auto, unfolding(crate::specs::Table::table))]
pub fn result_kind(name: SysName) -> ResultKind
    ensures { result ≡ result_of name }
{
    TABLE[name.index() as usize].result
}

/// The system call with this name, or None where there is none.
pub fn find(text: &[u8]) -> Option<SysName>
    ensures some { IfSome result (λ x. name_of x ≡ text.now) }
    ensures none { IfNone result ((x : ℕ) → x < 24 → name_of x ≡ text.now → ⊥) }
    ensures each { (x : ℕ) → x < 24 → text.now ≡ name_of x → result ≡ Some x }
{
    for i in 0..24 {
        let name = SysName::from_index(i)?;
        if name_text(name) == text {
            return Some(name);
        }
    }
    None
}
