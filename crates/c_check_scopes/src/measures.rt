ghost use Rattle.std.specs.Prelude.{◌≡◌, ◌+◌, ◌<◌, ◌≤◌, ◌^◌, SomeIff, slice_get};
ghost use Rattle.c_rules.specs.Limits.{most_cells};
ghost use Rattle.c_tree.specs.Layout.{extent_with, extent_after, rounded};
ghost use Rattle.c_tree.specs.View.{ctype_of};
ghost use Rattle.c_check_scopes.specs.Extents.{extent_seen};
ghost use Rattle.c_check_scopes.specs.Fitting.{AreFitting};
ghost use Rattle.c_check_scopes.specs.Measured.{counted, counted_all, cells_kept, extent_kept, no_extent};
ghost use Rattle.c_check_scopes.specs.Shown.{members_types};

use crate::extents::{Extent, of_integer, put_after, rounded};
use crate::structs::{Defined, StructMember};
use c_tree::CType;

// The cells that are kept of the struct at a place.
pub fn cells_kept(structs: &[Option<Defined<'_>>], place: usize) -> u32
    ensures { result ≡ cells_kept (slice_get structs.now place) }
{
    match structs.get(place) {
        Some(Some(defined)) => defined.cells,
        _ => 0,
    }
}

// The extent that is kept of a struct.
fn extent_kept(structs: &[Option<Defined<'_>>], s: u32) -> Extent
    ensures { extent_seen result ≡ extent_kept (slice_get structs.now s) }
{
    match structs.get(s as usize) {
        Some(Some(defined)) => defined.extent,
        _ => Extent {
            size: 0,
            alignment: 1,
        },
    }
}

// The cells of a type, where these are fewer than 2^32.
pub fn cells_in(structs: &[Option<Defined<'_>>], t: &CType) -> Option<u32>
    ensures { SomeIff result (counted (λ s. cells_kept (slice_get structs.now s)) (ctype_of t.now) < 2 ^ 32) (counted (λ s. cells_kept (slice_get structs.now s)) (ctype_of t.now)) }
{
    match t {
        CType::Void => Some(0),
        CType::Int(_) => Some(1),
        CType::Pointer(_) => Some(1),
        CType::Array(element, n) => {
            if *n == 0 {
                return Some(0);
            }
            let each = cells_in(structs, element)?;
            let cells = n.checked_mul(each)?;
            Some(cells)
        }
        CType::Struct(s) => Some(cells_kept(structs, *s as usize)),
        CType::Function(_, _) => Some(0),
    }
}

// The cells of all members, where these are fewer than 2^32.
pub fn cells_of_members(
    structs: &[Option<Defined<'_>>],
    members: &[StructMember<'_>],
) -> Option<u32>
    ensures { SomeIff result (counted_all (λ s. cells_kept (slice_get structs.now s)) (members_types members.now) < 2 ^ 32) (counted_all (λ s. cells_kept (slice_get structs.now s)) (members_types members.now)) }
{
    let mut sum = 0u32;
    for member in members {
        let each = cells_in(structs, &member.ctype)?;
        sum = sum.checked_add(each)?;
    }
    Some(sum)
}

// The bytes of a type, where these are fewer than 2^32.
pub fn size_in(structs: &[Option<Defined<'_>>], t: &CType) -> Option<u32>
    ensures { SomeIff result ((extent_with (λ s. extent_kept (slice_get structs.now s)) (ctype_of t.now)).size < 2 ^ 32) (extent_with (λ s. extent_kept (slice_get structs.now s)) (ctype_of t.now)).size }
{
    match t {
        CType::Void => Some(0),
        CType::Int(i) => Some(of_integer(*i).size),
        CType::Pointer(_) => Some(4),
        CType::Array(element, n) => {
            if *n == 0 {
                return Some(0);
            }
            let each = size_in(structs, element)?;
            let size = n.checked_mul(each)?;
            Some(size)
        }
        CType::Struct(s) => Some(extent_kept(structs, *s).size),
        CType::Function(_, _) => Some(0),
    }
}

// The number of which the address of an object of the type is a multiple.
fn alignment_in(structs: &[Option<Defined<'_>>], t: &CType) -> u32
    ensures { result ≡ (extent_with (λ s. extent_kept (slice_get structs.now s)) (ctype_of t.now)).alignment }
{
    match t {
        CType::Void => 1,
        CType::Int(i) => of_integer(*i).alignment,
        CType::Pointer(_) => 4,
        CType::Array(element, _) => alignment_in(structs, element),
        CType::Struct(s) => extent_kept(structs, *s).alignment,
        CType::Function(_, _) => 1,
    }
}

// The extent of a type that takes fewer than 2^32 bytes.
fn extent_in(structs: &[Option<Defined<'_>>], t: &CType) -> Extent
    requires { (extent_with (λ s. extent_kept (slice_get structs.now s)) (ctype_of t.now)).size < 2 ^ 32 }
    ensures { extent_seen result ≡ extent_with (λ s. extent_kept (slice_get structs.now s)) (ctype_of t.now) }
{
    match size_in(structs, t) {
        Some(size) => Extent {
            size,
            alignment: alignment_in(structs, t),
        },
        None => unreachable!(),
    }
}

// The extent of a struct with these members, within the limit on its cells.
pub fn extent_of_members(structs: &[Option<Defined<'_>>], members: &[StructMember<'_>]) -> Extent
    requires fitting { AreFitting structs.now }
    requires few { counted_all (λ s. cells_kept (slice_get structs.now s)) (members_types members.now) ≤ most_cells }
    ensures { extent_seen result ≡ rounded (extent_after (λ s. extent_kept (slice_get structs.now s)) no_extent (members_types members.now)) }
{
    let mut sum = Extent {
        size: 0,
        alignment: 1,
    };
    for member in members {
        let each = extent_in(structs, &member.ctype);
        sum = put_after(sum, each);
    }
    rounded(sum)
}
