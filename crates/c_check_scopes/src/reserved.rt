ghost use Rattle.std.specs.Prelude.{◌≡◌};
ghost use Rattle.c_rules.specs.Names.{is_reserved, is_added, is_temporary, is_instrumented, may_be_declared};

use crate::fronts::{after_front, is_number, is_pair};
use crate::predeclared::is_null_call;
use dm_counts::Mode;

/// Whether the name begins with two underscores, which reserve it (C99 7.1.3).
pub fn is_reserved(name: &[u8]) -> bool
    ensures { result ≡ is_reserved name.now }
{
    after_front(b"__", name).is_some()
}

/// Whether it is a name of the instrumenter, which begins with `__dyck_`: variables of such names are numbered after the others.
pub fn is_added(name: &[u8]) -> bool
    ensures { result ≡ is_added name.now }
{
    after_front(b"__dyck_", name).is_some()
}

/// Whether it is the name of a variable of the instrumenter: `__dyck_f` and a number for the designator of a marked call, `__dyck_r`
/// and a number for its result, or `__dyck_a` and two numbers with an underscore between them for an argument.
pub fn is_temporary(name: &[u8]) -> bool
    ensures { result ≡ is_temporary name.now }
{
    if let Some(rest) = after_front(b"__dyck_f", name) {
        if is_number(rest) {
            return true;
        }
    }
    if let Some(rest) = after_front(b"__dyck_r", name) {
        if is_number(rest) {
            return true;
        }
    }
    match after_front(b"__dyck_a", name) {
        Some(rest) => is_pair(rest),
        None => false,
    }
}

// Whether it has a meaning of its own in this mode, and may be declared although it is reserved.
fn is_instrumented(mode: Mode, name: &[u8]) -> bool
    ensures { result ≡ is_instrumented mode name.now }
{
    match mode {
        Mode::Plain => false,
        Mode::Instrumented => {
            if is_null_call(name) {
                return true;
            }
            is_temporary(name)
        }
    }
}

/// Whether the name may be declared in this mode: it is not reserved (C99 7.1.3), or in an instrumented unit it is that of a null
/// call or of a variable of the instrumenter.
pub fn may_be_declared(mode: Mode, name: &[u8]) -> bool
    ensures { result ≡ may_be_declared mode name.now }
{
    if !is_reserved(name) {
        return true;
    }
    is_instrumented(mode, name)
}
