ghost use Rattle.std.specs.Prelude.{◌≡◌, ◌++◌, map, replicate, IfOk, OnOk};
ghost use Rattle.c_check_initialisers.specs.CellView.{cells_of, typed_expressions_of};
ghost use Rattle.c_check_values.specs.Agreement.{AgreesWith};
ghost use Rattle.c_rules.specs.Checked.{fine, met, on};
ghost use Rattle.c_rules.specs.Initialisers.{array_cells, typed_char, chars, text_fits, text_of};
ghost use Rattle.c_syntax.specs.View.{expr_of};
ghost use Rattle.c_tree.specs.Tree.{integer};
ghost use Rattle.c_tree.specs.declared.value.IntType.TheVariants.{Char};
ghost use Rattle.c_tree.specs.View.{ctype_of};

use crate::constants::typed_char;
use c_check_values::{C14, CheckError, TypedExpression, few_cells};
use c_syntax::{Expr, ExprKind};
use c_tree::{CType, IntType};
use dm_base::OutOfMemory;
use std::alloc::Global;

// The bytes of a string as chars.
fn text_cells(alloc: Global, text: &[u8]) -> Result<Vec<TypedExpression>, OutOfMemory>
    ensures { IfOk result (λ cells. typed_expressions_of cells.items ≡ map typed_char text.now) }
{
    let mut cells = Vec::new(alloc);
    for byte in text {
        let char = typed_char(alloc, *byte)?;
        cells.push(char)?;
    }
    Ok(cells)
}

// Adds so many zeros.
fn add_zeros(
    alloc: Global,
    count: usize,
    cells: &mut Vec<TypedExpression>,
) -> Result<(), OutOfMemory>
    ensures { OnOk result (typed_expressions_of cells.new.items ≡ typed_expressions_of cells.old.items ++ replicate count (typed_char 0)) }
{
    for _ in 0..count {
        let char = typed_char(alloc, 0)?;
        cells.push(char)?;
    }
    Ok(())
}

// A string in an array of so many chars; its zero is left out where there is no room.
fn chars(alloc: Global, n: u32, text: &[u8]) -> Result<Vec<TypedExpression>, CheckError>
    ensures { AgreesWith cells_of result (fine (chars n text.now)) }
{
    let mut cells = text_cells(alloc, text)?;
    let left = (n as usize).saturating_sub(text.len());
    add_zeros(alloc, left, &mut cells)?;
    Ok(cells)
}

// The same, where the string has room.
fn string_cells(
    alloc: Global,
    at: u32,
    n: u32,
    text: &[u8],
) -> Result<Vec<TypedExpression>, CheckError>
    ensures { AgreesWith cells_of result (array_cells at (integer Char) n (Some text.now)) }
{
    if text.len() > n as usize {
        return Err(CheckError::At(C14, at));
    }
    chars(alloc, n, text)
}

// The limit on a string, where the expression is one.
fn text_fits(at: u32, e: &Expr) -> Result<(), CheckError>
    ensures { AgreesWith (λ _. met) result (text_fits at (text_of (expr_of e.now))) }
{
    match &e.kind {
        ExprKind::Str(bytes) => few_cells(at, bytes.as_slice().len()),
        _ => Ok(()),
    }
}

/// The cells of an array with so many elements of this type, which one expression initialises: an array of char takes a string, and no
/// other array takes one expression (C99 6.7.8 paragraph 14).
pub fn array_cells(
    alloc: Global,
    at: u32,
    t: &CType,
    n: u32,
    e: &Expr,
) -> Result<Vec<TypedExpression>, CheckError>
    ensures { AgreesWith cells_of result (on (text_fits at (text_of (expr_of e.now))) (λ _. array_cells at (ctype_of t.now) n (text_of (expr_of e.now)))) }
{
    text_fits(at, e)?;
    elements_of(alloc, at, t, n, e)
}

// The same of a string that fits.
fn elements_of(
    alloc: Global,
    at: u32,
    t: &CType,
    n: u32,
    e: &Expr,
) -> Result<Vec<TypedExpression>, CheckError>
    ensures { AgreesWith cells_of result (array_cells at (ctype_of t.now) n (text_of (expr_of e.now))) }
{
    match t {
        CType::Int(IntType::Char) => match &e.kind {
            ExprKind::Str(bytes) => string_cells(alloc, at, n, bytes.as_slice()),
            _ => Err(CheckError::At(C14, at)),
        },
        _ => Err(CheckError::At(C14, at)),
    }
}
