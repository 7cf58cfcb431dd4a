ghost use Rattle.std.specs.Prelude.{◌≡◌, ◌↔◌, IsTrue};
ghost use Rattle.c_tree.specs.View.{ctype_of, types_of};

use crate::CType;

/// Whether two types are the same (C99 6.2.7; `const` isn't kept).
#[cycle(same)]
pub fn is_same(a: &CType, b: &CType) -> bool
    ensures { IsTrue result ↔ (ctype_of a.now ≡ ctype_of b.now) }
{
    match a {
        CType::Void => match b {
            CType::Void => true,
            _ => false,
        },
        CType::Int(i) => match b {
            CType::Int(j) => i == j,
            _ => false,
        },
        CType::Pointer(t) => match b {
            CType::Pointer(u) => is_same(t, u),
            _ => false,
        },
        CType::Array(t, n) => match b {
            CType::Array(u, m) => {
                if *n != *m {
                    return false;
                }
                is_same(t, u)
            }
            _ => false,
        },
        CType::Struct(s) => match b {
            CType::Struct(r) => s == r,
            _ => false,
        },
        CType::Function(t, ts) => match b {
            CType::Function(u, us) => {
                if !is_same(t, u) {
                    return false;
                }
                are_same(ts, us)
            }
            _ => false,
        },
    }
}

// Whether two lists of types are the same.
#[cycle(same)]
fn are_same(ts: &[CType], us: &[CType]) -> bool
    ensures { IsTrue result ↔ (types_of ts.now ≡ types_of us.now) }
{
    if ts.len() != us.len() {
        return false;
    }
    for i in 0..ts.len() {
        if !is_same(&ts[i], &us[i]) {
            return false;
        }
    }
    true
}
