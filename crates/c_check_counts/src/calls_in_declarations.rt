ghost use Rattle.std.specs.Prelude.{◌≡◌, ◌++◌, OnOk};
ghost use Rattle.c_syntax.specs.UnitView.{init_of, maybe_init_of, parts_of, decl_of, first_of_head};
ghost use Rattle.c_syntax.specs.WritesUnit.{inits_of};
ghost use Rattle.c_rules.specs.PlacesOfCalls.{places_of_init, places_of_inits, places_of_maybe_init, places_of_parts, places_of_decl, places_of_first};

use crate::calls_in_expressions::add_expression;
use c_syntax::{Decl, DeclPart, ForFirst, Init, InitKind};
use dm_base::OutOfMemory;

// Adds the places of the calls in the initialiser.
#[cycle(places_in_initialisers)]
fn add_initialiser(into: &mut Vec<u32>, init: &Init) -> Result<(), OutOfMemory>
    ensures { OnOk result (into.new.items ≡ into.old.items ++ places_of_init (init_of init.now)) }
{
    match &init.kind {
        InitKind::One(e) => add_expression(into, e),
        InitKind::List(all) => add_initialisers(into, all),
    }
}

// Adds those in initialisers, in order.
#[cycle(places_in_initialisers)]
fn add_initialisers(into: &mut Vec<u32>, all: &[Init]) -> Result<(), OutOfMemory>
    ensures { OnOk result (into.new.items ≡ into.old.items ++ places_of_inits (inits_of all.now)) }
{
    for init in all {
        add_initialiser(into, init)?;
    }
    Ok(())
}

// Adds those in an initialiser, where one stands.
fn add_maybe_initialiser(into: &mut Vec<u32>, init: &Option<Init>) -> Result<(), OutOfMemory>
    ensures { OnOk result (into.new.items ≡ into.old.items ++ places_of_maybe_init (maybe_init_of init.now)) }
{
    match init {
        Some(init) => add_initialiser(into, init),
        None => Ok(()),
    }
}

// Adds those in the initialisers of declarators.
fn add_parts(into: &mut Vec<u32>, parts: &[DeclPart]) -> Result<(), OutOfMemory>
    ensures { OnOk result (into.new.items ≡ into.old.items ++ places_of_parts (parts_of parts.now)) }
{
    for part in parts {
        add_maybe_initialiser(into, &part.init)?;
    }
    Ok(())
}

// Adds those in the declaration.
pub fn add_declaration(into: &mut Vec<u32>, decl: &Decl) -> Result<(), OutOfMemory>
    ensures { OnOk result (into.new.items ≡ into.old.items ++ places_of_decl (decl_of decl.now)) }
{
    add_parts(into, &decl.parts)
}

// Adds those in what stands first in the head of a `for`.
pub fn add_first(into: &mut Vec<u32>, first: &ForFirst) -> Result<(), OutOfMemory>
    ensures { OnOk result (into.new.items ≡ into.old.items ++ places_of_first (first_of_head first.now)) }
{
    match first {
        ForFirst::Absent => Ok(()),
        ForFirst::Expr(e) => add_expression(into, e),
        ForFirst::Declaration(decl) => add_declaration(into, decl),
    }
}
