ghost use Rattle.std.specs.Prelude.{◌≡◌, IfOk};
ghost use Rattle.c_check_values.specs.Agreement.{AgreesWith};
ghost use Rattle.c_check_declarations.specs.Texts.{sized_by_count, text_seen};
ghost use Rattle.c_rules.specs.Checked.{fine, met, on};
ghost use Rattle.c_rules.specs.Initialisers.{text_fits, text_of};
ghost use Rattle.c_rules.specs.Objects.{sized_by_one, sized_by_init, sized_by, with_size};
ghost use Rattle.c_syntax.specs.UnitView.{init_of, maybe_init_of};
ghost use Rattle.c_syntax.specs.View.{expr_of};
ghost use Rattle.c_tree.specs.Tree.{array};
ghost use Rattle.c_tree.specs.View.{ctype_of};

use c_check_values::{C13, C14, CheckError, few_cells};
use c_syntax::{Expr, ExprKind, Init, InitKind};
use c_tree::{CType, IntType, copy_type};
use dm_base::OutOfMemory;
use std::alloc::Global;

/// The bytes of a string, where the expression is one (C99 6.4.5).
pub fn text_of(e: &Expr) -> Option<&[u8]>
    ensures { text_seen result ≡ text_of (expr_of e.now) }
{
    match &e.kind {
        ExprKind::Str(bytes) => Some(bytes.as_slice()),
        _ => None,
    }
}

// An array of so many elements.
fn array_with(alloc: Global, t: CType, size: u32) -> Result<CType, OutOfMemory>
    ensures { IfOk result (λ u. ctype_of u ≡ array (ctype_of t) size) }
{
    Ok(CType::Array(Box::new(alloc, t)?, size))
}

// The array of char that a string fills, its zero among the elements (C99 6.7.8 paragraphs 14 and 22); the string is within its limit.
fn sized_by_one(alloc: Global, at: u32, t: &CType, text: Option<&[u8]>) -> Result<CType, CheckError>
    requires fits { text_fits at (text_seen text) ≡ fine met }
    ensures { AgreesWith ctype_of result (sized_by_one at (ctype_of t.now) (text_seen text.entry)) }
{
    match t {
        CType::Int(IntType::Char) => match text {
            Some(bytes) => {
                let size = bytes.len() as u32 + 1;
                Ok(CType::Array(Box::new(alloc, CType::Int(IntType::Char))?, size))
            }
            None => Err(CheckError::At(C14, at)),
        },
        _ => Err(CheckError::At(C14, at)),
    }
}

// The limit on a string, where one stands.
fn text_fits(at: u32, text: Option<&[u8]>) -> Result<(), CheckError>
    ensures { AgreesWith (λ _. met) result (text_fits at (text_seen text.entry)) }
{
    match text {
        Some(bytes) => few_cells(at, bytes.len()),
        None => Ok(()),
    }
}

// The array that one expression gives its size: a string that fits.
fn sized_by_text(alloc: Global, at: u32, t: &CType, e: &Expr) -> Result<CType, CheckError>
    ensures { AgreesWith ctype_of result (on (text_fits at (text_of (expr_of e.now))) (λ _. sized_by_one at (ctype_of t.now) (text_of (expr_of e.now)))) }
{
    let text = text_of(e);
    text_fits(at, text)?;
    sized_by_one(alloc, at, t, text)
}

// An array with so many elements of this type, within the limit on the cells of an object.
fn sized_by_count(alloc: Global, name: u32, t: CType, count: usize) -> Result<CType, CheckError>
    ensures { AgreesWith ctype_of result (sized_by_count name (ctype_of t) count) }
{
    if count > 65536 {
        return Err(CheckError::At(C13, name));
    }
    Ok(array_with(alloc, t, count as u32)?)
}

// The array with elements of this type that an initialiser gives its size.
fn sized_by_init(alloc: Global, name: u32, t: CType, i: &Init) -> Result<CType, CheckError>
    ensures { AgreesWith ctype_of result (sized_by_init name (ctype_of t) (init_of i.now)) }
{
    match &i.kind {
        InitKind::One(e) => sized_by_text(alloc, i.at, &t, e),
        InitKind::List(inits) => sized_by_count(alloc, name, t, inits.len()),
    }
}

// The same where the initialiser may be left out.
fn sized_by(alloc: Global, name: u32, t: CType, m: &Option<Init>) -> Result<CType, CheckError>
    ensures { AgreesWith ctype_of result (sized_by name (ctype_of t) (maybe_init_of m.now)) }
{
    match m {
        Some(i) => sized_by_init(alloc, name, t, i),
        None => Err(CheckError::At(C14, name)),
    }
}

/// The type of an object; an array without a size has the size 0 until here, and that of its initialiser behind it (C99 6.7.8 paragraph 22).
pub fn with_size(alloc: Global, name: u32, m: &Option<Init>, t: CType) -> Result<CType, CheckError>
    ensures { AgreesWith ctype_of result (with_size name (maybe_init_of m.now) (ctype_of t)) }
{
    match &t {
        CType::Array(element, n) => {
            if *n == 0 {
                let element = copy_type(alloc, element)?;
                return sized_by(alloc, name, element, m);
            }
            Ok(t)
        }
        _ => Ok(t),
    }
}
