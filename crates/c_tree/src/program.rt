ghost use Rattle.std.specs.Prelude.{◌≡◌, ℕ, ◌+◌, ◌<◌, Some, length, map, slice_get};
ghost use Rattle.c_tree.specs.Functions.{defined, name_of_function};
ghost use Rattle.c_tree.specs.Program.{IsProgram};
ghost use Rattle.c_tree.specs.Counts.{AreCounts};
ghost use Rattle.c_tree.specs.Layout.{cells};
ghost use Rattle.c_tree.specs.Operands.{IsObject};
ghost use Rattle.c_tree.specs.Sites.{sites_of_program};
ghost use Rattle.c_tree.specs.View.{members_in, ctype_of, program_of};

use crate::{CType, Function, Static, StructMembers, cells_of};
use dm_base::SysName;
use sys_table::name_text;

/// A well-typed program, seen as the members of its structs, its functions, the number of `main` and its
/// statics. Functions are numbered in the order of their definitions; the number `defined + i` stands for the
/// system call i, and in an instrumented program `defined + 24` and `defined + 25` stand for the two null
/// calls, which are called by their names alone.
pub struct Program {
    structs: Vec<StructMembers>,
    functions: Vec<Function>,
    main: u32,
    statics: Vec<Static>,
    sites: u32,
    struct_cells: Vec<u32>,
}

impl Drop for Program {
    fn drop(self) {
        let Self {
            structs: _structs,
            functions: _functions,
            main: _,
            statics: _statics,
            sites: _,
            struct_cells: _struct_cells,
        } = self;
    }
}

impl std::marker::Model for Program {
    ghost use Rattle.c_tree.specs.View.{Parts};

    ghost Value = { Parts };

    ghost use Rattle.std.specs.Coded.{codes};
    ghost use Rattle.c_tree.specs.contracts.tree.CType as t;
    ghost use Rattle.c_tree.specs.contracts.tree.TExprKind as e;
    ghost use Rattle.c_tree.specs.contracts.tree.TStmt as s;
    ghost use Rattle.c_tree.specs.contracts.tree.Function as f;
    ghost use Rattle.c_tree.specs.contracts.tree.Static as o;
    ghost use Rattle.c_tree.specs.contracts.tree.StructMembers as m;

    ghost coded = { Prim.hlevel (codes, t.the_row.coded, e.the_row.coded, s.the_row.coded, f.the_row.coded, o.the_row.coded, m.the_row.coded) };

    ghost use Rattle.c_tree.specs.Inside.{parts_in, IsRight};

    ghost view = { parts_in };

    ghost invariant = { IsRight };
}

impl Program {
    /// The program with these parts and so many call expressions; `struct_cells` holds the number of cells of
    /// each struct that has a definition, at its number.
    pub fn of(
        structs: Vec<StructMembers>,
        functions: Vec<Function>,
        main: u32,
        statics: Vec<Static>,
        sites: u32,
        struct_cells: Vec<u32>,
    ) -> Program
        requires typed { IsProgram (program_of (record { structs = structs.items; functions = functions.items; main = main; statics = statics.items })) sites }
        requires counts { AreCounts (map members_in structs.items) struct_cells.items }
        ensures { result ≡ record { structs = structs.items; functions = functions.items; main = main; statics = statics.items } }
    {
        Program {
            structs,
            functions,
            main,
            statics,
            sites,
            struct_cells,
        }
    }

    /// How many functions are defined, at most 4,098.
    pub fn defined(&self) -> u32
        ensures { result ≡ defined (program_of self.now) }
    {
        self.functions.len() as u32
    }

    /// How many call expressions there are, at most 30,000. Their sites are the numbers below, in the order of
    /// their opening parentheses.
    pub fn sites(&self) -> u32
        ensures typed { IsProgram (program_of self.now) result }
        ensures count { result ≡ length (sites_of_program (program_of self.now)) }
    {
        self.sites
    }

    /// The defined function with this number.
    pub fn function(&self, f: u32) -> &Function
        requires { f < defined (program_of self.now) }
        ensures { slice_get self.now.functions f ≡ Some result.now }
    {
        &self.functions[f as usize]
    }

    /// The number of `main`, a defined function.
    pub fn main(&self) -> u32
        ensures is { result ≡ self.now.main }
        ensures known { result < defined (program_of self.now) }
    {
        self.main
    }

    /// The name of the function with this number, defined or a system call.
    pub fn name_of(&self, f: u32) -> &[u8]
        requires { f < defined (program_of self.now) + 24 }
        ensures { result.now ≡ name_of_function (program_of self.now) f }
    {
        let count = self.functions.len() as u32;
        if f < count {
            return self.functions[f as usize].name.as_slice();
        }
        match SysName::from_index((f - count) as u8) {
            Some(name) => name_text(name),
            None => unreachable!(),
        }
    }

    /// The static objects in the order of their definitions, and after them the strings.
    pub fn statics(&self) -> &[Static]
        ensures { result.now ≡ self.now.statics }
    {
        &self.statics
    }

    /// The members of the structs, in the order of their numbers.
    pub fn structs(&self) -> &[StructMembers]
        ensures { result.now ≡ self.now.structs }
    {
        &self.structs
    }

    /// How many cells an object of this type has.
    pub fn cells_of(&self, t: &CType) -> u32
        requires { IsObject (program_of self.now).structs (ctype_of t.now) }
        ensures { result ≡ cells (program_of self.now).structs (ctype_of t.now) }
    {
        cells_of(&self.struct_cells, t)
    }
}
