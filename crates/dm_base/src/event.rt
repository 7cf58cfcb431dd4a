ghost use Rattle.std.specs.Prelude.{◌≡◌, ◌<◌, ◌≤◌, ◌↔◌, [], ◌∷◌, ◌++◌, length, slice_get, IfOk};
ghost use Rattle.std.specs.Option.{option_copied};

use crate::{Bytes, OutOfMemory, SysName};
use arrayvec::ArrayVec;
use std::alloc::Global;
use std::marker::Model;

/// An argument of a system call, as it was recorded.
pub enum Arg {
    /// A number.
    Int(i64),
    /// The bytes of a buffer, or of a path before its zero.
    Bytes(Bytes),
}

impl Drop for Arg {
    fn drop(self) {
        match self {
            Arg::Int(_) => {}
            Arg::Bytes(_bytes) => {}
        }
    }
}

impl Arg {
    /// An equal argument.
    pub fn copy(&self, alloc: Global) -> Result<Arg, OutOfMemory>
        ensures { IfOk result (λ copied. copied ≡ self.now) }
    {
        match self {
            Arg::Int(number) => Ok(Arg::Int(*number)),
            Arg::Bytes(bytes) => Ok(Arg::Bytes(Bytes::of(alloc, bytes.as_slice())?)),
        }
    }
}

impl Default for Arg {
    fn default() -> Self {
        Arg::Int(0)
    }
}

/// The recorded arguments of a system call, at most three, seen as their list.
pub struct ArgList {
    held: ArrayVec<Arg, 3>,
}

impl Drop for ArgList {
    fn drop(self) {
        let Self { held: _held } = self;
    }
}

impl Model for ArgList {
    ghost use Rattle.std.specs.Prelude.{List};
    ghost use Rattle.dm_base.specs.declared.event.Arg.{Arg};

    ghost Value = { List Arg };

    ghost view = { λ a. a.held.items };
}

impl ArgList {
    /// No arguments.
    pub fn new() -> ArgList
        ensures { result ≡ [] }
    {
        ArgList {
            held: ArrayVec::new(),
        }
    }

    /// Adds an argument at the end. It takes no memory.
    pub fn push(&mut self, arg: Arg)
        requires { length self.old < 3 }
        ensures { self.new ≡ self.old ++ arg ∷ [] }
    {
        self.held.push(arg);
    }

    /// How many arguments there are, from 0 to 3.
    pub fn len(&self) -> usize
        ensures len { result ≡ length self.now }
        ensures few { result ≤ 3 }
    {
        self.held.len()
    }

    /// The argument at this place, counted from 0, or None from `len` up.
    pub fn get(&self, i: usize) -> Option<&Arg>
        ensures { option_copied result ≡ slice_get self.now i }
    {
        self.held.as_slice().get(i)
    }

    /// An equal list.
    pub fn copy(&self, alloc: Global) -> Result<ArgList, OutOfMemory>
        ensures { IfOk result (λ copied. copied ≡ self.now) }
    {
        let mut held = ArrayVec::new();
        for arg in self.held.as_slice() {
            held.push(arg.copy(alloc)?);
        }
        Ok(ArgList { held })
    }
}

/// One event of a trace.
pub enum Event {
    /// A system call with its recorded arguments and its result.
    Sys {
        name: SysName,
        args: ArgList,
        result: i64,
    },
    /// The null call before the call at a site.
    Pre(u32),
    /// The null call after the call at a site.
    Post(u32),
}

impl Drop for Event {
    fn drop(self) {
        match self {
            Event::Sys {
                name: _,
                args: _args,
                result: _,
            } => {}
            Event::Pre(_) | Event::Post(_) => {}
        }
    }
}

impl Event {
    /// An equal event.
    pub fn copy(&self, alloc: Global) -> Result<Event, OutOfMemory>
        ensures { IfOk result (λ copied. copied ≡ self.now) }
    {
        match self {
            Event::Sys { name, args, result } => Ok(Event::Sys {
                name: *name,
                args: args.copy(alloc)?,
                result: *result,
            }),
            Event::Pre(site) => Ok(Event::Pre(*site)),
            Event::Post(site) => Ok(Event::Post(*site)),
        }
    }
}
