ghost use Rattle.c_syntax.specs.View.{ident_of, spec_of};
ghost use Rattle.c_syntax.specs.UnitView.{declarators_of, members_of, enumerators_of, tag_of, item_at, maybe_of};
ghost use Rattle.c_syntax.specs.Print.{declarators_kinds, members_kinds, enumerator_value_kinds, enumerators_kinds, tag_kinds, item_kinds};
ghost use Rattle.c_syntax_printing.specs.Counted.{Counts};
ghost use Rattle.c_syntax.specs.WritesUnit.{member_kinds, enumerator_kinds};

use crate::declaration_lengths::{count_decl, count_storage};
use crate::expression_lengths::{count_declarator, count_operand, count_spec};
use crate::statement_lengths::count_stmt;
use crate::token_lengths::{count_keyword, count_name, count_punctuator, count_separator};
use c_lexer::keyword::{ENUM, STRUCT};
use c_lexer::punctuator::{ASSIGN, LEFT_BRACE, RIGHT_BRACE, SEMICOLON};
use c_syntax::{Declarator, Enumerator, Expr, Ident, Item, ItemKind, Member};

// Counts what stands at file scope.
pub fn count_item(total: usize, item: &Item) -> usize
    ensures { Counts total (item_kinds (item_at item.now.at item.now.kind)) result }
{
    match &item.kind {
        ItemKind::Struct { tag, members } => {
            let total = count_keyword(total, STRUCT);
            let total = count_name(total, tag.name.as_slice());
            let total = count_punctuator(total, LEFT_BRACE);
            let total = count_members(total, members);
            let total = count_punctuator(total, RIGHT_BRACE);
            count_punctuator(total, SEMICOLON)
        }
        ItemKind::Enum { tag, list } => {
            let total = count_keyword(total, ENUM);
            let total = count_tag(total, tag);
            let total = count_punctuator(total, LEFT_BRACE);
            let total = count_enumerators(total, list);
            let total = count_punctuator(total, RIGHT_BRACE);
            count_punctuator(total, SEMICOLON)
        }
        ItemKind::Tag(tag) => {
            let total = count_keyword(total, STRUCT);
            let total = count_name(total, tag.name.as_slice());
            count_punctuator(total, SEMICOLON)
        }
        ItemKind::Declaration(decl) => count_decl(total, decl),
        ItemKind::Function {
            storage,
            spec,
            declarator,
            body,
        } => {
            let total = count_storage(total, *storage);
            let total = count_spec(total, spec);
            let total = count_declarator(total, declarator);
            count_stmt(total, body)
        }
    }
}

// Counts the tag of an enum, where one stands.
fn count_tag(total: usize, tag: &Option<Ident>) -> usize
    ensures { Counts total (tag_kinds (tag_of tag.now)) result }
{
    match tag {
        None => total,
        Some(name) => count_name(total, name.name.as_slice()),
    }
}

// Counts the members of a struct.
fn count_members(mut total: usize, members: &[Member]) -> usize
    ensures { Counts total (members_kinds (members_of members.now)) result }
{
    for member in members {
        total = count_member(total, member);
    }
    total
}

// Counts members of a struct that are declared together.
fn count_member(total: usize, member: &Member) -> usize
    ensures { Counts total (member_kinds (spec_of member.now.spec) (declarators_of member.now.declarators.items)) result }
{
    let total = count_spec(total, &member.spec);
    let total = count_declarators(total, &member.declarators);
    count_punctuator(total, SEMICOLON)
}

// Counts declarators with commas between them.
fn count_declarators(mut total: usize, declarators: &[Declarator]) -> usize
    ensures { Counts total (declarators_kinds (declarators_of declarators.now)) result }
{
    let mut first = true;
    for declarator in declarators {
        total = count_separator(total, first);
        total = count_declarator(total, declarator);
        first = false;
    }
    total
}

// Counts enumerators with commas between them.
fn count_enumerators(mut total: usize, list: &[Enumerator]) -> usize
    ensures { Counts total (enumerators_kinds (enumerators_of list.now)) result }
{
    let mut first = true;
    for enumerator in list {
        total = count_separator(total, first);
        total = count_enumerator(total, enumerator);
        first = false;
    }
    total
}

// Counts an enumerator with its value, where one stands.
fn count_enumerator(total: usize, enumerator: &Enumerator) -> usize
    ensures { Counts total (enumerator_kinds (ident_of enumerator.now.name) (maybe_of enumerator.now.value)) result }
{
    let total = count_name(total, enumerator.name.name.as_slice());
    count_enumerator_value(total, &enumerator.value)
}

// Counts the value of an enumerator, where one stands.
fn count_enumerator_value(total: usize, number: &Option<Expr>) -> usize
    ensures { Counts total (enumerator_value_kinds (maybe_of number.now)) result }
{
    match number {
        None => total,
        Some(e) => {
            let total = count_punctuator(total, ASSIGN);
            count_operand(total, e)
        }
    }
}
