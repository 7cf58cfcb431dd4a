ghost use Rattle.std.specs.Prelude.{◌≡◌, ◌<◌, ◌≤◌, ◌^◌, ℕ, List, length, map, slice_index_or, SomeIff, is_some};
ghost use Rattle.c_check_scopes.specs.Shown.{knowns_of, members_types};
ghost use Rattle.c_check_scopes.specs.declared.structs.StructMember.{StructMember};
ghost use Rattle.c_rules.specs.Limits.{most_cells};
ghost use Rattle.c_rules.specs.Names.{is_among};
ghost use Rattle.c_rules.specs.Scopes.{Member, declared_here, defined_struct, layout_of, struct_of, tag_number, type_of_member};
ghost use Rattle.c_check_scopes.specs.View.{env_of, member_of, struct_in};
ghost use Rattle.c_tree.specs.Layout.{cells, cells_of_all, first_cell, sizeof};
ghost use Rattle.c_tree.specs.Tree.{struct, void};
ghost use Rattle.c_tree.specs.View.{ctype_of};

use crate::few_names::FewNames;
use crate::numbering::Numbering;
use crate::scopes::Scopes;
use crate::structs::{StructMember, StructTable};
use c_tree::CType;
use dm_counts::{Count, Mode};

/// Whether what stands here is evaluated when the program runs.
#[derive(Clone, Copy)]
pub enum Context {
    /// It is.
    Evaluated,
    /// It stands in the operand of `sizeof` (C99 6.5.3.4 paragraph 2).
    Sized,
    /// It stands in an array size, a case value or the value of an enumerator (C99 6.6).
    Folded,
}

/// What is known where a part of a unit stands.
#[derive(Drop)]
pub struct Environment<'t> {
    /// The mode in which the unit is read.
    pub mode: Mode,
    /// The names of the functions that the unit defines, in order.
    pub defined_functions: FewNames<'t>,
    /// The names of the static objects that the unit defines, in order.
    pub objects: FewNames<'t>,
    /// The tags of structs of the whole unit, in the order of their numbers.
    pub struct_tags: FewNames<'t>,
    /// The ordinary names.
    pub names: Scopes<'t>,
    /// How many blocks enclose the part.
    pub depth: Count,
    /// The structs by their numbers.
    pub structs: StructTable<'t>,
    /// The tags of enums that stand before.
    pub enums: Numbering<'t>,
    /// The functions that earlier items declare, each once.
    pub functions: Numbering<'t>,
    /// The tags of structs in earlier items, the last one first.
    pub tags: Numbering<'t>,
    /// Whether the part is evaluated.
    pub context: Context,
}

impl<'t> Environment<'t> {
    /// The members of a struct, where its definition stands before.
    pub fn members(&self, s: u32) -> Option<&[StructMember<'t>]>
        ensures { struct_of (env_of self.now) s ≡ struct_in result }
    {
        self.structs.members(s as usize)
    }

    /// The members of the struct at a place, where its definition stands before.
    pub fn members_at(&self, place: usize) -> Option<&[StructMember<'t>]>
        ensures { struct_of (env_of self.now) place ≡ struct_in result }
    {
        self.structs.members(place)
    }

    /// How many cells an object of the struct at a place has, none where its definition doesn't stand before.
    pub fn struct_cells(&self, place: usize) -> u32
        ensures { result ≡ cells (layout_of (env_of self.now)) (struct place) }
    {
        self.structs.struct_cells(place)
    }

    /// How many structs the unit has.
    pub fn struct_count(&self) -> usize
        ensures { result ≡ length (layout_of (env_of self.now)) }
    {
        self.structs.count()
    }

    /// A struct whose definition stands before has the cells of its members.
    pub fn have_cells_of_members(&self)
        ensures { (s : ℕ) (ms : List Member) → struct_of (env_of self.now) s ≡ defined_struct ms → cells (layout_of (env_of self.now)) (struct s) ≡ cells_of_all (layout_of (env_of self.now)) (map type_of_member ms) }
    {
        self.structs.have_cells_of_members();
    }

    /// The members of a struct whose definition stands before have fewer than 2^32 cells together.
    pub fn have_few_cells(&self, s: u32)
        ensures { (members : List StructMember) → struct_of (env_of self.now) s ≡ defined_struct (map member_of (knowns_of members)) → cells_of_all (layout_of (env_of self.now)) (members_types members) < 2 ^ 32 }
    {
        self.structs.have_few_cells(s as usize);
    }

    /// How many cells an object of the type has, where these are fewer than 2^32.
    pub fn cells(&self, t: &CType) -> Option<u32>
        ensures { SomeIff result (cells (layout_of (env_of self.now)) (ctype_of t.now) < 2 ^ 32) (cells (layout_of (env_of self.now)) (ctype_of t.now)) }
    {
        self.structs.cells(t)
    }

    /// How many cells objects of these members have together, where these are fewer than 2^32.
    pub fn cells_of_all(&self, members: &[StructMember<'t>]) -> Option<u32>
        ensures { SomeIff result (cells_of_all (layout_of (env_of self.now)) (members_types members.now) < 2 ^ 32) (cells_of_all (layout_of (env_of self.now)) (members_types members.now)) }
    {
        self.structs.cells_of_all(members)
    }

    /// The first cell of the member with this number in a struct with these members, which have fewer than 2^32 cells
    /// together.
    pub fn first_cell(&self, members: &[StructMember<'t>], k: usize) -> u32
        requires within { k < length members.now }
        requires few { cells_of_all (layout_of (env_of self.now)) (members_types members.now) < 2 ^ 32 }
        ensures { result ≡ first_cell (layout_of (env_of self.now)) (members_types members.now) k }
    {
        self.structs.first_cell(members, k)
    }

    /// How many cells the member with this number has in a struct with these members, which have fewer than 2^32 cells
    /// together.
    pub fn member_cells(&self, members: &[StructMember<'t>], k: usize) -> u32
        requires within { k < length members.now }
        requires few { cells_of_all (layout_of (env_of self.now)) (members_types members.now) < 2 ^ 32 }
        ensures { result ≡ cells (layout_of (env_of self.now)) (slice_index_or (members_types members.now) k void) }
    {
        self.structs.member_cells(members, k)
    }

    /// What `sizeof` gives for the type (C99 6.5.3.4), which is within the limit on cells.
    pub fn sizeof(&self, t: &CType) -> u32
        requires few { cells (layout_of (env_of self.now)) (ctype_of t.now) ≤ most_cells }
        ensures { result ≡ sizeof (layout_of (env_of self.now)) (ctype_of t.now) }
    {
        match self.structs.sizeof(t) {
            Some(size) => size,
            None => unreachable!(),
        }
    }

    /// Whether the name is declared in the innermost scope (C99 6.2.1 paragraph 4).
    pub fn is_declared_here(&self, name: &[u8]) -> bool
        ensures { result ≡ is_some (declared_here (env_of self.now) name.now) }
    {
        match self.names.find(name) {
            Some(entry) => entry.depth.is(&self.depth),
            None => false,
        }
    }

    /// Whether it is the tag of an enum that stands before.
    pub fn is_enum(&self, tag: &[u8]) -> bool
        ensures { result ≡ is_among (env_of self.now).enums tag.now }
    {
        self.enums.contains(tag)
    }

    /// The number of a tag of a struct.
    pub fn tag_number(&self, tag: &[u8]) -> u32
        ensures { result ≡ tag_number (env_of self.now) tag.now }
    {
        match self.struct_tags.number(tag) {
            Some(n) => n,
            None => 0,
        }
    }
}
