ghost use Rattle.std.specs.Prelude.{◌≡◌, ◌++◌, map};
ghost use Rattle.c_tree.specs.Functions.{null_types, sys_types};
ghost use Rattle.c_tree.specs.Prototypes.{prototype_type};

use crate::prototypes::PrototypeType::{CharPointer, Int, Uint, Void};

/// A type in a prototype of a system call or a null call.
#[derive(Clone, Copy)]
pub enum PrototypeType {
    /// `void`.
    Void,
    /// `int`.
    Int,
    /// `unsigned int`.
    Uint,
    /// `char *`.
    CharPointer,
}

/// What a system call or a null call gives and takes (C99 6.7.5.3).
pub struct Prototype {
    /// The type of its value.
    pub gives: PrototypeType,
    /// The types of its parameters, in order.
    pub takes: &'static [PrototypeType],
}

static PROTOTYPES: [Prototype; 26] = [
    // int read(int, char *, unsigned int)
    Prototype {
        gives: Int,
        takes: &[Int, CharPointer, Uint],
    },
    // int write(int, char *, unsigned int)
    Prototype {
        gives: Int,
        takes: &[Int, CharPointer, Uint],
    },
    // int open(char *, int, unsigned int)
    Prototype {
        gives: Int,
        takes: &[CharPointer, Int, Uint],
    },
    // int close(int)
    Prototype {
        gives: Int,
        takes: &[Int],
    },
    // int lseek(int, int, int)
    Prototype {
        gives: Int,
        takes: &[Int, Int, Int],
    },
    // int dup(int)
    Prototype {
        gives: Int,
        takes: &[Int],
    },
    // int dup2(int, int)
    Prototype {
        gives: Int,
        takes: &[Int, Int],
    },
    // int unlink(char *)
    Prototype {
        gives: Int,
        takes: &[CharPointer],
    },
    // int rename(char *, char *)
    Prototype {
        gives: Int,
        takes: &[CharPointer, CharPointer],
    },
    // int mkdir(char *, unsigned int)
    Prototype {
        gives: Int,
        takes: &[CharPointer, Uint],
    },
    // int rmdir(char *)
    Prototype {
        gives: Int,
        takes: &[CharPointer],
    },
    // int chdir(char *)
    Prototype {
        gives: Int,
        takes: &[CharPointer],
    },
    // int chmod(char *, unsigned int)
    Prototype {
        gives: Int,
        takes: &[CharPointer, Uint],
    },
    // int kill(int, int)
    Prototype {
        gives: Int,
        takes: &[Int, Int],
    },
    // int getpid(void)
    Prototype {
        gives: Int,
        takes: &[],
    },
    // int getppid(void)
    Prototype {
        gives: Int,
        takes: &[],
    },
    // unsigned int getuid(void)
    Prototype {
        gives: Uint,
        takes: &[],
    },
    // unsigned int geteuid(void)
    Prototype {
        gives: Uint,
        takes: &[],
    },
    // unsigned int getgid(void)
    Prototype {
        gives: Uint,
        takes: &[],
    },
    // int setuid(unsigned int)
    Prototype {
        gives: Int,
        takes: &[Uint],
    },
    // int socket(int, int, int)
    Prototype {
        gives: Int,
        takes: &[Int, Int, Int],
    },
    // int listen(int, int)
    Prototype {
        gives: Int,
        takes: &[Int, Int],
    },
    // int fork(void)
    Prototype {
        gives: Int,
        takes: &[],
    },
    // void _exit(int)
    Prototype {
        gives: Void,
        takes: &[Int],
    },
    // void __dyck_pre(unsigned int)
    Prototype {
        gives: Void,
        takes: &[Uint],
    },
    // void __dyck_post(unsigned int)
    Prototype {
        gives: Void,
        takes: &[Uint],
    },
];

/// The prototypes of the system calls, each at the place of its number.
pub fn system_prototypes() -> &'static [Prototype]
    ensures { map prototype_type result.now ≡ sys_types }
{
    &PROTOTYPES[..24]
}

/// The prototypes of the system calls, each at the place of its number, and of the two null calls after them.
pub fn all_prototypes() -> &'static [Prototype]
    ensures { map prototype_type result.now ≡ sys_types ++ null_types }
{
    &PROTOTYPES
}
