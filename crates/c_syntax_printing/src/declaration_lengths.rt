ghost use Rattle.c_syntax.specs.UnitView.{storage_of, init_of, parts_of, maybe_init_of, decl_of};
ghost use Rattle.c_syntax.specs.View.{declarator_of, expr_behind};
ghost use Rattle.c_syntax.specs.Print.{storage_kinds, init_kinds, inits_kinds, part_kinds, parts_kinds, decl_kinds, maybe_kinds};
ghost use Rattle.c_syntax_printing.specs.Counted.{Counts};
ghost use Rattle.c_syntax.specs.WritesUnit.{inits_of};

use crate::expression_lengths::{count_declarator, count_expr, count_operand, count_spec};
use crate::token_lengths::{count_keyword, count_punctuator, count_separator};
use c_lexer::keyword::{EXTERN, STATIC};
use c_lexer::punctuator::{ASSIGN, LEFT_BRACE, RIGHT_BRACE, SEMICOLON};
use c_syntax::{Decl, DeclPart, Expr, Init, InitKind, Storage};

// Counts the storage class.
pub fn count_storage(total: usize, storage: Storage) -> usize
    ensures { Counts total (storage_kinds (storage_of storage)) result }
{
    match storage {
        Storage::Absent => total,
        Storage::Static => count_keyword(total, STATIC),
        Storage::Extern => count_keyword(total, EXTERN),
    }
}

// Counts the expression, where one stands.
pub fn count_maybe(total: usize, e: &Option<Box<Expr>>) -> usize
    ensures { Counts total (maybe_kinds (expr_behind e.now)) result }
{
    match e {
        None => total,
        Some(expr) => count_expr(total, expr),
    }
}

// Counts the initialiser.
#[cycle(counted_init)]
fn count_init(total: usize, init: &Init) -> usize
    ensures { Counts total (init_kinds (init_of init.now)) result }
{
    match &init.kind {
        InitKind::One(e) => count_operand(total, e),
        InitKind::List(all) => {
            let total = count_punctuator(total, LEFT_BRACE);
            let total = count_inits(total, all);
            count_punctuator(total, RIGHT_BRACE)
        }
    }
}

// Counts initialisers with commas between them.
#[cycle(counted_init)]
fn count_inits(mut total: usize, all: &[Init]) -> usize
    ensures { Counts total (inits_kinds (inits_of all.now)) result }
{
    let mut first = true;
    for init in all {
        total = count_separator(total, first);
        total = count_init(total, init);
        first = false;
    }
    total
}

// Counts the declarator with its initialiser.
fn count_part(total: usize, part: &DeclPart) -> usize
    ensures { Counts total (part_kinds (declarator_of part.now.declarator) (maybe_init_of part.now.init)) result }
{
    let total = count_declarator(total, &part.declarator);
    match &part.init {
        None => total,
        Some(init) => {
            let total = count_punctuator(total, ASSIGN);
            count_init(total, init)
        }
    }
}

// Counts declarators with their initialisers and commas between them.
fn count_parts(mut total: usize, parts: &[DeclPart]) -> usize
    ensures { Counts total (parts_kinds (parts_of parts.now)) result }
{
    let mut first = true;
    for part in parts {
        total = count_separator(total, first);
        total = count_part(total, part);
        first = false;
    }
    total
}

// Counts the declaration.
pub fn count_decl(total: usize, decl: &Decl) -> usize
    ensures { Counts total (decl_kinds (decl_of decl.now)) result }
{
    let total = count_storage(total, decl.storage);
    let total = count_spec(total, &decl.spec);
    let total = count_parts(total, &decl.parts);
    count_punctuator(total, SEMICOLON)
}
