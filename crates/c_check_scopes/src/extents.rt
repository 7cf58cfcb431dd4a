ghost use Rattle.std.specs.Prelude.{◌≡◌, ◌*◌, ◌≤◌, max};
ghost use Rattle.c_rules.specs.Limits.{most_cells};
ghost use Rattle.c_tree.specs.Layout.{extent_of_integer, put_after, round_up, rounded};
ghost use Rattle.c_check_scopes.specs.Extents.{extent_seen};

use c_tree::IntType;

/// The bytes that an object takes, and the number of which its address is a multiple (C99 6.5.3.4).
#[derive(Clone, Copy)]
pub struct Extent {
    /// The bytes that it takes.
    pub size: u32,
    /// The number of which its address is a multiple.
    pub alignment: u32,
}

// The next multiple of an alignment.
fn round_up(size: u32, alignment: u32) -> u32
    requires small { size ≤ 4 * most_cells }
    requires least { 1 ≤ alignment }
    requires most { alignment ≤ 4 }
    ensures { result ≡ round_up size alignment }
{
    (size + (alignment - 1)) / alignment * alignment
}

// The extent of an integer type.
pub fn of_integer(i: IntType) -> Extent
    ensures { extent_seen result ≡ extent_of_integer i }
{
    match i {
        IntType::Char => Extent {
            size: 1,
            alignment: 1,
        },
        IntType::Uchar => Extent {
            size: 1,
            alignment: 1,
        },
        IntType::Int => Extent {
            size: 4,
            alignment: 4,
        },
        IntType::Uint => Extent {
            size: 4,
            alignment: 4,
        },
    }
}

// A member after others: at the next multiple of its alignment.
pub fn put_after(before: Extent, member: Extent) -> Extent
    requires first { before.size ≤ 4 * most_cells }
    requires second { member.size ≤ 4 * most_cells }
    requires least { 1 ≤ member.alignment }
    requires most { member.alignment ≤ 4 }
    ensures { extent_seen result ≡ put_after (extent_seen before) (extent_seen member) }
{
    Extent {
        size: round_up(before.size, member.alignment) + member.size,
        alignment: before.alignment.max(member.alignment),
    }
}

// The extent of a struct whose members take so much.
pub fn rounded(e: Extent) -> Extent
    requires small { e.size ≤ 4 * most_cells }
    requires least { 1 ≤ e.alignment }
    requires most { e.alignment ≤ 4 }
    ensures { extent_seen result ≡ rounded (extent_seen e) }
{
    Extent {
        size: round_up(e.size, e.alignment),
        alignment: e.alignment,
    }
}
