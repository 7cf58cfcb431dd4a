ghost use Rattle.std.specs.Prelude.{◌≡◌, ◌<◌, ◌≤◌, ◌^◌, ℕ, List, None, Some, length, map, replicate, slice_get, slice_index_or, slice_set, take, unwrap_or, IfOk, IfSome, SomeIff};
ghost use Rattle.c_tree.specs.Layout.{cells, sizeof, cells_of_all, first_cell};
ghost use Rattle.c_rules.specs.Limits.{most_cells};
ghost use Rattle.c_tree.specs.Tree.{struct, void};
ghost use Rattle.c_tree.specs.View.{ctype_of};
ghost use Rattle.c_check_scopes.specs.Known.{Known, layout_of, type_of};
ghost use Rattle.c_check_scopes.specs.Fitting.{AreFitting};
ghost use Rattle.c_check_scopes.specs.Held.{AllInAll, IsDefined};
ghost use Rattle.c_check_scopes.specs.Laid.{AreLaid, IsMeasured};
ghost use Rattle.c_check_scopes.specs.Measured.{cells_kept, counted_all};
ghost use Rattle.c_check_scopes.specs.Shown.{knowns_of, members_types, defined_in, shown};

use crate::extents::Extent;
use crate::measures::{cells_in, cells_kept, cells_of_members, extent_of_members, size_in};
use c_tree::CType;
use dm_counts::OutOfMemory;
use std::alloc::Global;
use std::marker::Model;

/// A member of a struct (C99 6.7.2.1).
#[derive(Drop)]
pub struct StructMember<'t> {
    /// Its name.
    pub name: &'t [u8],
    /// Its type.
    pub ctype: CType,
}

// A struct that has a definition: its members, its cells, and its extent.
#[derive(Drop)]
pub struct Defined<'t> {
    pub members: Vec<StructMember<'t>>,
    pub cells: u32,
    pub extent: Extent,
}

/// The structs of a unit by their numbers, seen as a list: for each its members, where it has a definition.
#[derive(Drop)]
pub struct StructTable<'t> {
    structs: Vec<Option<Defined<'t>>>,
}

impl<'t> Model for StructTable<'t> {
    ghost use Rattle.std.specs.Prelude.{List, Option, map};
    ghost use Rattle.std.specs.Coded.{codes};
    ghost use Rattle.c_tree.specs.contracts.tree.CType as t;
    ghost use Rattle.c_check_scopes.specs.Known.{Known};

    ghost Value = { List (Option (List Known)) };

    ghost coded = { Prim.hlevel (codes, t.the_row.coded) };

    ghost use Rattle.c_check_scopes.specs.Shown.{shown};
    ghost use Rattle.c_check_scopes.specs.Laid.{AreLaid};

    ghost view = { λ s. shown s.structs.items };

    ghost invariant = { λ s. AreLaid s.structs.items };
}

// The first members.
fn front<'m, 't>(members: &'m [StructMember<'t>], k: usize) -> &'m [StructMember<'t>]
    requires { k ≤ length members.now }
    ensures { result.now ≡ take k members.now }
{
    &members[..k]
}

// So many structs without a definition.
fn without_definitions<'t>(
    alloc: Global,
    count: usize,
) -> Result<Vec<Option<Defined<'t>>>, OutOfMemory>
    ensures { IfOk result (λ structs. structs.items ≡ replicate count None) }
{
    let mut structs = Vec::new(alloc);
    for _ in 0..count {
        structs.push(None)?;
    }
    Ok(structs)
}

// The cells of members that are within the limit on them.
fn few_cells(structs: &[Option<Defined<'_>>], members: &[StructMember<'_>]) -> u32
    requires { counted_all (λ s. cells_kept (slice_get structs.now s)) (members_types members.now) ≤ most_cells }
    ensures { result ≡ counted_all (λ s. cells_kept (slice_get structs.now s)) (members_types members.now) }
{
    match cells_of_members(structs, members) {
        Some(cells) => cells,
        None => unreachable!(),
    }
}

// A struct with its cells and its extent.
fn measured<'t>(structs: &[Option<Defined<'t>>], members: Vec<StructMember<'t>>) -> Defined<'t>
    requires fitting { AreFitting structs.now }
    requires few { counted_all (λ s. cells_kept (slice_get structs.now s)) (members_types members.items) ≤ most_cells }
    ensures members { knowns_of result.members.items ≡ knowns_of members.entry.items }
    ensures measured { IsMeasured structs.now result }
{
    let cells = few_cells(structs, &members);
    let extent = extent_of_members(structs, &members);
    Defined {
        members,
        cells,
        extent,
    }
}

// Gives a struct its members; one that isn't there stays away.
fn put<'t>(structs: &mut Vec<Option<Defined<'t>>>, place: usize, members: Vec<StructMember<'t>>)
    requires open { unwrap_or (slice_get (shown structs.old.items) place) None ≡ None }
    requires laid { AreLaid structs.old.items }
    requires known { AllInAll (IsDefined (layout_of (shown structs.old.items))) (members_types members.items) }
    requires few { cells_of_all (layout_of (shown structs.old.items)) (members_types members.items) ≤ most_cells }
    ensures shown { shown structs.new.items ≡ slice_set (shown structs.old.items) place (Some (knowns_of members.entry.items)) }
    ensures laid { AreLaid structs.new.items }
{
    if place >= structs.len() {
        return;
    }
    let defined = measured(structs, members);
    structs[place] = Some(defined);
}

impl<'t> StructTable<'t> {
    /// So many structs without a definition.
    pub fn new(alloc: Global, count: usize) -> Result<StructTable<'t>, OutOfMemory>
        ensures { IfOk result (λ table. table ≡ replicate count None) }
    {
        let structs = without_definitions(alloc, count)?;
        Ok(StructTable { structs })
    }

    /// The members of the struct at a place, where it has a definition.
    pub fn members(&self, place: usize) -> Option<&[StructMember<'t>]>
        ensures { defined_in result ≡ unwrap_or (slice_get self.now place) None }
    {
        match self.structs.get(place) {
            Some(Some(defined)) => Some(&defined.members),
            _ => None,
        }
    }

    /// How many cells an object of the struct at a place has, none where it has no definition.
    pub fn struct_cells(&self, place: usize) -> u32
        ensures { result ≡ cells (layout_of self.now) (struct place) }
    {
        cells_kept(&self.structs, place)
    }

    /// How many structs there are.
    pub fn count(&self) -> usize
        ensures { result ≡ length self.now }
    {
        self.structs.len()
    }

    /// A struct with a definition has the cells of its members.
    pub fn have_cells_of_members(&self)
        ensures { (s : ℕ) (ks : List Known) → slice_get self.now s ≡ Some (Some ks) → cells (layout_of self.now) (struct s) ≡ cells_of_all (layout_of self.now) (map type_of ks) }
    {
        let _count = self.structs.len();
    }

    /// The members of a struct with a definition have fewer than 2^32 cells together.
    pub fn have_few_cells(&self, place: usize)
        ensures { (ks : List Known) → slice_get self.now place ≡ Some (Some ks) → cells_of_all (layout_of self.now) (map type_of ks) < 2 ^ 32 }
    {
        let _kept = cells_kept(&self.structs, place);
    }

    /// How many cells an object of the type has, where these are fewer than 2^32.
    pub fn cells(&self, t: &CType) -> Option<u32>
        ensures { SomeIff result (cells (layout_of self.now) (ctype_of t.now) < 2 ^ 32) (cells (layout_of self.now) (ctype_of t.now)) }
    {
        cells_in(&self.structs, t)
    }

    /// How many cells objects of these members have together, where these are fewer than 2^32.
    pub fn cells_of_all(&self, members: &[StructMember<'t>]) -> Option<u32>
        ensures { SomeIff result (cells_of_all (layout_of self.now) (members_types members.now) < 2 ^ 32) (cells_of_all (layout_of self.now) (members_types members.now)) }
    {
        cells_of_members(&self.structs, members)
    }

    /// The first cell of the member with this number in a struct with these members, which have fewer than 2^32 cells
    /// together.
    pub fn first_cell(&self, members: &[StructMember<'t>], k: usize) -> u32
        requires within { k < length members.now }
        requires few { cells_of_all (layout_of self.now) (members_types members.now) < 2 ^ 32 }
        ensures { result ≡ first_cell (layout_of self.now) (members_types members.now) k }
    {
        match self.cells_of_all(front(members, k)) {
            Some(first) => first,
            None => unreachable!(),
        }
    }

    /// How many cells the member with this number has in a struct with these members, which have fewer than 2^32 cells
    /// together.
    pub fn member_cells(&self, members: &[StructMember<'t>], k: usize) -> u32
        requires within { k < length members.now }
        requires few { cells_of_all (layout_of self.now) (members_types members.now) < 2 ^ 32 }
        ensures { result ≡ cells (layout_of self.now) (slice_index_or (members_types members.now) k void) }
    {
        match self.cells(&members[k].ctype) {
            Some(cells) => cells,
            None => unreachable!(),
        }
    }

    /// What `sizeof` gives for the type (C99 6.5.3.4), where it is below 2^32.
    pub fn sizeof(&self, t: &CType) -> Option<u32>
        ensures { SomeIff result (sizeof (layout_of self.now) (ctype_of t.now) < 2 ^ 32) (sizeof (layout_of self.now) (ctype_of t.now)) }
    {
        size_in(&self.structs, t)
    }

    /// Gives a struct without a definition its members, which hold structs with definitions alone and are within the
    /// limit on the cells of a struct; a struct that isn't there stays away.
    pub fn define(&mut self, s: u32, members: Vec<StructMember<'t>>)
        requires open { unwrap_or (slice_get self.old s) None ≡ None }
        requires known { AllInAll (IsDefined (layout_of self.old)) (members_types members.items) }
        requires few { cells_of_all (layout_of self.old) (members_types members.items) ≤ most_cells }
        ensures { self.new ≡ slice_set self.old s (Some (knowns_of members.entry.items)) }
    {
        put(&mut self.structs, s as usize, members)
    }
}
