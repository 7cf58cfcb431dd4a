ghost use Rattle.std.specs.Prelude.{◌≡◌, slice_index_or};
ghost use Rattle.c_tree.specs.Counts.{AreCounts};
ghost use Rattle.c_tree.specs.Layout.{Structs, cells};
ghost use Rattle.c_tree.specs.Operands.{IsObject};
ghost use Rattle.c_tree.specs.View.{ctype_of};

use crate::CType;

// The count with this number, or 0 past the end.
fn count_at(counts: &[u32], s: u32) -> u32
    ensures { result ≡ slice_index_or counts.now s 0 }
{
    let place = s as usize;
    if place < counts.len() {
        counts[place]
    } else {
        0
    }
}

/// How many cells an object of this type has, where `counts` holds the number of cells of each struct.
pub fn cells_of(counts: &[u32], t: &CType) -> u32
    ensures { (structs : Structs) → AreCounts structs counts.now → IsObject structs (ctype_of t.now) → result ≡ cells structs (ctype_of t.now) }
{
    match t {
        CType::Int(_) => 1,
        CType::Pointer(_) => 1,
        CType::Array(element, n) => {
            let each = cells_of(counts, element);
            each.wrapping_mul(*n)
        }
        CType::Struct(s) => count_at(counts, *s),
        CType::Void => 0,
        CType::Function(_, _) => 0,
    }
}
