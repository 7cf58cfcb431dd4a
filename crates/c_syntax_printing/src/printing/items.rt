ghost use Rattle.std.specs.Prelude.{OnOk};
ghost use Rattle.c_syntax.specs.View.{ident_of, spec_of};
ghost use Rattle.c_syntax.specs.UnitView.{declarators_of, members_of, enumerators_of, tag_of, item_at, items_of, maybe_of};
ghost use Rattle.c_syntax.specs.Print.{declarators_kinds, members_kinds, enumerator_value_kinds, enumerators_kinds, tag_kinds, item_kinds, unit_kinds};
ghost use Rattle.c_syntax.specs.Writes.{Writes};
ghost use Rattle.c_syntax.specs.WritesUnit.{member_kinds, enumerator_kinds};

use crate::printing::declarations::{write_decl, write_storage};
use crate::printing::expressions::{write_declarator, write_operand, write_spec};
use crate::printing::statements::write_stmt;
use crate::printing::tokens::{push_keyword, push_name, push_punctuator, push_separator};
use c_lexer::OutOfMemory;
use c_lexer::keyword::{ENUM, STRUCT};
use c_lexer::punctuator::{ASSIGN, LEFT_BRACE, RIGHT_BRACE, SEMICOLON};
use c_syntax::{Declarator, Enumerator, Expr, Ident, Item, ItemKind, Member};

// Writes what stands at file scope, in order.
pub fn write_items(out: &mut Vec<u8>, items: &[Item]) -> Result<(), OutOfMemory>
    ensures { OnOk result (Writes out.old.items out.new.items (unit_kinds (items_of items.now))) }
{
    for item in items {
        write_item(out, item)?;
    }
    Ok(())
}

// Writes what stands at file scope.
pub fn write_item(out: &mut Vec<u8>, item: &Item) -> Result<(), OutOfMemory>
    ensures { OnOk result (Writes out.old.items out.new.items (item_kinds (item_at item.now.at item.now.kind))) }
{
    match &item.kind {
        ItemKind::Struct { tag, members } => {
            push_keyword(out, STRUCT)?;
            push_name(out, tag.name.as_slice())?;
            push_punctuator(out, LEFT_BRACE)?;
            write_members(out, members)?;
            push_punctuator(out, RIGHT_BRACE)?;
            push_punctuator(out, SEMICOLON)
        }
        ItemKind::Enum { tag, list } => {
            push_keyword(out, ENUM)?;
            write_tag(out, tag)?;
            push_punctuator(out, LEFT_BRACE)?;
            write_enumerators(out, list)?;
            push_punctuator(out, RIGHT_BRACE)?;
            push_punctuator(out, SEMICOLON)
        }
        ItemKind::Tag(tag) => {
            push_keyword(out, STRUCT)?;
            push_name(out, tag.name.as_slice())?;
            push_punctuator(out, SEMICOLON)
        }
        ItemKind::Declaration(decl) => write_decl(out, decl),
        ItemKind::Function {
            storage,
            spec,
            declarator,
            body,
        } => {
            write_storage(out, *storage)?;
            write_spec(out, spec)?;
            write_declarator(out, declarator)?;
            write_stmt(out, body)
        }
    }
}

// Writes the tag of an enum, where one stands.
fn write_tag(out: &mut Vec<u8>, tag: &Option<Ident>) -> Result<(), OutOfMemory>
    ensures { OnOk result (Writes out.old.items out.new.items (tag_kinds (tag_of tag.now))) }
{
    match tag {
        None => Ok(()),
        Some(name) => push_name(out, name.name.as_slice()),
    }
}

// Writes the members of a struct.
fn write_members(out: &mut Vec<u8>, members: &[Member]) -> Result<(), OutOfMemory>
    ensures { OnOk result (Writes out.old.items out.new.items (members_kinds (members_of members.now))) }
{
    for member in members {
        write_member(out, member)?;
    }
    Ok(())
}

// Writes members of a struct that are declared together.
fn write_member(out: &mut Vec<u8>, member: &Member) -> Result<(), OutOfMemory>
    ensures { OnOk result (Writes out.old.items out.new.items (member_kinds (spec_of member.now.spec) (declarators_of member.now.declarators.items))) }
{
    write_spec(out, &member.spec)?;
    write_declarators(out, &member.declarators)?;
    push_punctuator(out, SEMICOLON)
}

// Writes declarators with commas between them.
fn write_declarators(out: &mut Vec<u8>, declarators: &[Declarator]) -> Result<(), OutOfMemory>
    ensures { OnOk result (Writes out.old.items out.new.items (declarators_kinds (declarators_of declarators.now))) }
{
    let mut first = true;
    for declarator in declarators {
        push_separator(out, first)?;
        write_declarator(out, declarator)?;
        first = false;
    }
    Ok(())
}

// Writes enumerators with commas between them.
fn write_enumerators(out: &mut Vec<u8>, list: &[Enumerator]) -> Result<(), OutOfMemory>
    ensures { OnOk result (Writes out.old.items out.new.items (enumerators_kinds (enumerators_of list.now))) }
{
    let mut first = true;
    for enumerator in list {
        push_separator(out, first)?;
        write_enumerator(out, enumerator)?;
        first = false;
    }
    Ok(())
}

// Writes an enumerator with its value, where one stands.
fn write_enumerator(out: &mut Vec<u8>, enumerator: &Enumerator) -> Result<(), OutOfMemory>
    ensures { OnOk result (Writes out.old.items out.new.items (enumerator_kinds (ident_of enumerator.now.name) (maybe_of enumerator.now.value))) }
{
    push_name(out, enumerator.name.name.as_slice())?;
    write_enumerator_value(out, &enumerator.value)
}

// Writes the value of an enumerator, where one stands.
fn write_enumerator_value(out: &mut Vec<u8>, number: &Option<Expr>) -> Result<(), OutOfMemory>
    ensures { OnOk result (Writes out.old.items out.new.items (enumerator_value_kinds (maybe_of number.now))) }
{
    match number {
        None => Ok(()),
        Some(e) => {
            push_punctuator(out, ASSIGN)?;
            write_operand(out, e)
        }
    }
}
