ghost use Rattle.std.specs.Prelude.{◌≡◌, map, slice_get};
ghost use Rattle.c_tree.specs.Tree.{integer};
ghost use Rattle.c_tree.specs.View.{ctype_of, types_of};
ghost use Rattle.c_rules.specs.Names.{is_given_type};
ghost use Rattle.c_rules.specs.Names.{given_types};
ghost use Rattle.c_rules.specs.Types.{is_void, same_type, same_types};
ghost use Rattle.c_tree.specs.Prototypes.{prototype_type, type_meant, types_meant};
ghost use Rattle.c_check_scopes.specs.Prototypes.{prototype_seen};

use c_tree::{CType, IntType, Prototype, PrototypeType, all_prototypes, system_prototypes};
use dm_counts::Mode;

fn is_void(t: &CType) -> bool
    ensures { result ≡ is_void (ctype_of t.now) }
{
    match t {
        CType::Void => true,
        _ => false,
    }
}

fn is_integer(t: &CType, i: IntType) -> bool
    ensures { result ≡ same_type (ctype_of t.now) (integer i) }
{
    match t {
        CType::Int(j) => *j == i,
        _ => false,
    }
}

fn is_plain(t: &CType, p: PrototypeType) -> bool
    ensures { result ≡ same_type (ctype_of t.now) (type_meant p) }
{
    match p {
        PrototypeType::Void => is_void(t),
        PrototypeType::Int => is_integer(t, IntType::Int),
        PrototypeType::Uint => is_integer(t, IntType::Uint),
        PrototypeType::CharPointer => match t {
            CType::Pointer(target) => is_integer(target, IntType::Char),
            _ => false,
        },
    }
}

fn are_plain(ts: &[CType], ps: &[PrototypeType]) -> bool
    ensures { result ≡ same_types (types_of ts.now) (types_meant ps.now) }
{
    match ts {
        [] => ps.is_empty(),
        [t, ts @ ..] => match ps {
            [] => false,
            [p, ps @ ..] => {
                if !is_plain(t, *p) {
                    return false;
                }
                are_plain(ts, ps)
            }
        },
    }
}

fn has_prototype(t: &CType, p: &Prototype) -> bool
    ensures { result ≡ same_type (ctype_of t.now) (prototype_type p.now) }
{
    match t {
        CType::Function(gives, takes) => {
            if !is_plain(gives, p.gives) {
                return false;
            }
            are_plain(takes, p.takes)
        }
        _ => false,
    }
}

fn prototype_among(ps: &'static [Prototype], number: u32) -> Option<&'static Prototype>
    ensures { prototype_seen result ≡ slice_get (map prototype_type ps.now) number }
{
    ps.get(number as usize)
}

// The prototype of the function that has no definition with this number.
fn prototype_with(mode: Mode, number: u32) -> Option<&'static Prototype>
    ensures { prototype_seen result ≡ slice_get (given_types mode) number }
{
    match mode {
        Mode::Plain => prototype_among(system_prototypes(), number),
        Mode::Instrumented => prototype_among(all_prototypes(), number),
    }
}

/// Whether the type is that of the function that has no definition with this number, which `given_number` gives. No type is that
/// of a number without such a function.
pub fn has_given_type(mode: Mode, number: u32, t: &CType) -> bool
    ensures { result ≡ is_given_type (slice_get (given_types mode) number) (ctype_of t.now) }
{
    match prototype_with(mode, number) {
        Some(p) => has_prototype(t, p),
        None => false,
    }
}
