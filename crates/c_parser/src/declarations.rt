ghost use Rattle.std.specs.Prelude.{◌<◌, IfOk, OnOk, List, length};
ghost use Rattle.c_lexer.specs.declared.token.Token.{Token};
ghost use Rattle.c_syntax.specs.View.{declarator_of};
ghost use Rattle.c_syntax.specs.UnitView.{decl_of, maybe_init_of, storage_of};
ghost use Rattle.c_syntax.specs.Specifiers.{ReadsStorage};
ghost use Rattle.c_parser_phrases.specs.Phrases.{HasDeclarator};
ghost use Rattle.c_parser.specs.Parsed.{HasPlainDecl, HasParts, HasMaybeInit};
ghost use Rattle.c_syntax_printing.specs.Fails.{Fails};
ghost use Rattle.c_syntax_printing.specs.Phrases.{Bound, APlainDecl};
ghost use Rattle.c_syntax_printing.specs.Declarations.{PartsTail, PartsEnd};
ghost use Rattle.c_syntax_printing.specs.Items.{AnOther};
ghost use Rattle.c_parser_phrases.specs.Refusing.{bound_of, Stops};
ghost use Rattle.c_parser.specs.Refusing.{AfterStorage};
ghost use Rattle.c_syntax_printing.specs.Opens.{DeepDecl};
ghost use Rattle.c_parser_phrases.specs.Looking.{IsAtSpecifier};
ghost use Rattle.c_parser.specs.Nesting.{Passes, OpensAs, OpensParts, OpensInitialiser};

use crate::starts::sure_to_be_deep;
use c_lexer::keyword::{EXTERN, STATIC};
use c_lexer::punctuator::{ASSIGN, COMMA, SEMICOLON};
use c_parser_phrases::{Cursor, PhraseError, Room};
use c_syntax::{Decl, DeclPart, Declarator, Init, Storage};
use std::alloc::Global;

/// Reads a declaration without a storage class, as in a block (C99 6.7). Its declarators are nodes, so a misfit
/// after its first token is one of nesting where there is no room for them.
pub fn declaration(cursor: &mut Cursor<'_>, alloc: Global, room: Room) -> Result<Decl, PhraseError>
    requires { IsAtSpecifier cursor.now.rest.now }
    ensures reads { IfOk result (λ x. HasPlainDecl room (decl_of x) cursor.old.rest.now cursor.new.rest.now) }
    ensures shorter { OnOk result (length cursor.new.rest.now < length cursor.old.rest.now) }
    ensures stops { Stops APlainDecl (bound_of room) result cursor.old.rest.now cursor.new.rest.now }
    ensures nests { Passes APlainDecl (OpensAs DeepDecl) room result cursor.old.rest.now }
{
    match plain_declaration(cursor, alloc, room) {
        Ok(decl) => Ok(decl),
        Err(error) => {
            if room.nodes == 0 {
                return Err(sure_to_be_deep(cursor, error));
            }
            Err(error)
        }
    }
}

fn plain_declaration(
    cursor: &mut Cursor<'_>,
    alloc: Global,
    room: Room,
) -> Result<Decl, PhraseError>
    ensures reads { IfOk result (λ x. HasPlainDecl room (decl_of x) cursor.old.rest.now cursor.new.rest.now) }
    ensures shorter { OnOk result (length cursor.new.rest.now < length cursor.old.rest.now) }
    ensures stops { Stops APlainDecl (bound_of room) result cursor.old.rest.now cursor.new.rest.now }
    ensures nests { Passes APlainDecl (OpensAs DeepDecl) room result cursor.old.rest.now }
{
    let at = cursor.place();
    let spec = cursor.specifiers(alloc)?;
    let first = cursor.declarator(alloc, room)?;
    let parts = parts(cursor, alloc, room, first)?;
    Ok(Decl {
        storage: Storage::Absent,
        spec,
        parts,
        at,
    })
}

/// Reads what follows the first declarator of a declaration, through its semicolon.
pub fn parts(
    cursor: &mut Cursor<'_>,
    alloc: Global,
    room: Room,
    first: Declarator,
) -> Result<Vec<DeclPart>, PhraseError>
    ensures reads { (start : List Token) → HasDeclarator room (declarator_of first) start cursor.old.rest.now → IfOk result (λ ps. HasParts room ps.items start cursor.new.rest.now) }
    ensures shorter { OnOk result (length cursor.new.rest.now < length cursor.old.rest.now) }
    ensures stops { Stops PartsTail (bound_of room) result cursor.old.rest.now cursor.new.rest.now }
    ensures nests { Passes PartsTail (OpensParts room (declarator_of first)) room result cursor.old.rest.now }
{
    let mut parts = Vec::new(alloc);
    let init = maybe_initialiser(cursor, alloc, room)?;
    parts.push(DeclPart {
        declarator: first,
        init,
    })?;
    'next: while !cursor.take(SEMICOLON) {
        if !cursor.take(COMMA) {
            return Err(PhraseError::Syntax);
        }
        let declarator = cursor.declarator(alloc, room)?;
        let init = maybe_initialiser(cursor, alloc, room)?;
        parts.push(DeclPart { declarator, init })?;
    }
    Ok(parts)
}

fn maybe_initialiser(
    cursor: &mut Cursor<'_>,
    alloc: Global,
    room: Room,
) -> Result<Option<Init>, PhraseError>
    ensures reads { IfOk result (λ v. HasMaybeInit room (maybe_init_of v) cursor.old.rest.now cursor.new.rest.now) }
    ensures stops { Stops PartsTail (bound_of room) result cursor.old.rest.now cursor.new.rest.now }
    ensures nests { Passes PartsTail OpensInitialiser room result cursor.old.rest.now }
    ensures leads { OnOk result ((x : Bound) (r : List Token) → Fails (PartsEnd x) cursor.new.rest.now r → Fails (PartsTail x) cursor.old.rest.now r) }
{
    if !cursor.take(ASSIGN) {
        return Ok(None);
    }
    let init = cursor.initialiser(alloc, room)?;
    Ok(Some(init))
}

/// Takes the storage class that stands first, if one does.
pub fn storage(cursor: &mut Cursor<'_>) -> Storage
    ensures reads { ReadsStorage (storage_of result) cursor.old.rest.now cursor.new.rest.now }
    ensures leads { (x : Bound) (r : List Token) → Fails (AfterStorage x) cursor.new.rest.now r → Fails (AnOther x) cursor.old.rest.now r }
{
    if cursor.take_keyword(STATIC) {
        return Storage::Static;
    }
    if cursor.take_keyword(EXTERN) {
        return Storage::Extern;
    }
    Storage::Absent
}
