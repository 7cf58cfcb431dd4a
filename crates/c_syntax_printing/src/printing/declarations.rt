ghost use Rattle.std.specs.Prelude.{OnOk};
ghost use Rattle.c_syntax.specs.UnitView.{storage_of, init_of, parts_of, maybe_init_of, decl_of};
ghost use Rattle.c_syntax.specs.View.{declarator_of, expr_behind};
ghost use Rattle.c_syntax.specs.Print.{storage_kinds, init_kinds, inits_kinds, part_kinds, parts_kinds, decl_kinds, maybe_kinds};
ghost use Rattle.c_syntax.specs.Writes.{Writes};
ghost use Rattle.c_syntax.specs.WritesUnit.{inits_of};

use crate::printing::expressions::{write_declarator, write_expr, write_operand, write_spec};
use crate::printing::tokens::{push_keyword, push_punctuator, push_separator};
use c_lexer::OutOfMemory;
use c_lexer::keyword::{EXTERN, STATIC};
use c_lexer::punctuator::{ASSIGN, LEFT_BRACE, RIGHT_BRACE, SEMICOLON};
use c_syntax::{Decl, DeclPart, Expr, Init, InitKind, Storage};

// Writes the storage class.
pub fn write_storage(out: &mut Vec<u8>, storage: Storage) -> Result<(), OutOfMemory>
    ensures { OnOk result (Writes out.old.items out.new.items (storage_kinds (storage_of storage))) }
{
    match storage {
        Storage::Absent => Ok(()),
        Storage::Static => push_keyword(out, STATIC),
        Storage::Extern => push_keyword(out, EXTERN),
    }
}

// Writes the expression, where one stands.
pub fn write_maybe(out: &mut Vec<u8>, e: &Option<Box<Expr>>) -> Result<(), OutOfMemory>
    ensures { OnOk result (Writes out.old.items out.new.items (maybe_kinds (expr_behind e.now))) }
{
    match e {
        None => Ok(()),
        Some(expr) => write_expr(out, expr),
    }
}

// Writes the initialiser.
#[cycle(printed_init)]
fn write_init(out: &mut Vec<u8>, init: &Init) -> Result<(), OutOfMemory>
    ensures { OnOk result (Writes out.old.items out.new.items (init_kinds (init_of init.now))) }
{
    match &init.kind {
        InitKind::One(e) => write_operand(out, e),
        InitKind::List(all) => {
            push_punctuator(out, LEFT_BRACE)?;
            write_inits(out, all)?;
            push_punctuator(out, RIGHT_BRACE)
        }
    }
}

// Writes initialisers with commas between them.
#[cycle(printed_init)]
fn write_inits(out: &mut Vec<u8>, all: &[Init]) -> Result<(), OutOfMemory>
    ensures { OnOk result (Writes out.old.items out.new.items (inits_kinds (inits_of all.now))) }
{
    let mut first = true;
    for init in all {
        push_separator(out, first)?;
        write_init(out, init)?;
        first = false;
    }
    Ok(())
}

// Writes the declarator with its initialiser.
fn write_part(out: &mut Vec<u8>, part: &DeclPart) -> Result<(), OutOfMemory>
    ensures { OnOk result (Writes out.old.items out.new.items (part_kinds (declarator_of part.now.declarator) (maybe_init_of part.now.init))) }
{
    write_declarator(out, &part.declarator)?;
    match &part.init {
        None => Ok(()),
        Some(init) => {
            push_punctuator(out, ASSIGN)?;
            write_init(out, init)
        }
    }
}

// Writes declarators with their initialisers and commas between them.
fn write_parts(out: &mut Vec<u8>, parts: &[DeclPart]) -> Result<(), OutOfMemory>
    ensures { OnOk result (Writes out.old.items out.new.items (parts_kinds (parts_of parts.now))) }
{
    let mut first = true;
    for part in parts {
        push_separator(out, first)?;
        write_part(out, part)?;
        first = false;
    }
    Ok(())
}

// Writes the declaration.
pub fn write_decl(out: &mut Vec<u8>, decl: &Decl) -> Result<(), OutOfMemory>
    ensures { OnOk result (Writes out.old.items out.new.items (decl_kinds (decl_of decl.now))) }
{
    write_storage(out, decl.storage)?;
    write_spec(out, &decl.spec)?;
    write_parts(out, &decl.parts)?;
    push_punctuator(out, SEMICOLON)
}
