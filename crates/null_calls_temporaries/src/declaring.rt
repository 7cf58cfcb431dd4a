ghost use Rattle.std.specs.Prelude.{◌≡◌, IfOk, OnOk};
ghost use Rattle.c_syntax.specs.Tree.{BlockItems, block_decl};
ghost use Rattle.c_syntax.specs.View.{spec_of, declarator_of};
ghost use Rattle.c_syntax.specs.UnitView.{decl_of};
ghost use Rattle.c_syntax.specs.WritesUnit.{block_items_of};
ghost use Rattle.c_syntax.specs.SeenNames.{seen};
ghost use Rattle.null_calls_laws.specs.Temporaries.{declaration_of, declared_before};
ghost use Rattle.null_calls_temporaries.specs.Kept.{temporary_of, temporaries_of, items_onto, alone};

use crate::spelled::{declarator, spec};
use crate::temporaries::Temporary;
use c_syntax::{BlockItem, Decl, DeclPart, Declarator, Ident, Spec, Storage};
use c_syntax_nodes::declared_node;
use dm_base::{Bytes, OutOfMemory};
use std::alloc::Global;

/// The declaration of one variable or function without a storage class or an initialiser.
pub fn declared_alone(
    alloc: Global,
    at: u32,
    spec: Spec,
    declarator: Declarator,
) -> Result<Decl, OutOfMemory>
    ensures { IfOk result (λ made. decl_of made ≡ alone at (spec_of spec) (declarator_of declarator)) }
{
    let mut parts = Vec::new(alloc);
    parts.push(DeclPart {
        declarator,
        init: None,
    })?;
    Ok(Decl {
        storage: Storage::Absent,
        spec,
        parts,
        at,
    })
}

// The declaration of the temporary.
fn declaration<'p>(
    alloc: Global,
    tags: &[&[u8]],
    at: u32,
    one: &Temporary<'p>,
) -> Result<Decl, OutOfMemory>
    ensures { IfOk result (λ made. decl_of made ≡ declaration_of (seen tags.now) at (temporary_of one.now)) }
{
    let name = Bytes::of(alloc, one.name.as_slice())?;
    let spec = spec(alloc, tags, at, one.ctype)?;
    let inner = declared_node(at, Ident { name, at });
    let declarator = declarator(alloc, tags, at, one.ctype, inner)?;
    declared_alone(alloc, at, spec, declarator)
}

// Adds a declaration to the items of a block.
fn add(items: &mut Vec<BlockItem>, one: Decl) -> Result<(), OutOfMemory>
    ensures { OnOk result ((rest : BlockItems) → items_onto items.new.items rest ≡ items_onto items.old.items (block_decl (decl_of one) rest)) }
{
    items.push(BlockItem::Declaration(one))?;
    Ok(())
}

/// The declarations of the temporaries, with all new places at one, and the items after them.
pub fn declared<'p>(
    alloc: Global,
    tags: &[&[u8]],
    at: u32,
    kept: &[Temporary<'p>],
    items: Vec<BlockItem>,
) -> Result<Vec<BlockItem>, OutOfMemory>
    ensures { IfOk result (λ made. block_items_of made.items ≡ declared_before (seen tags.now) at (temporaries_of kept.now) (block_items_of items.items)) }
{
    let mut all = Vec::new(alloc);
    for one in kept {
        let decl = declaration(alloc, tags, at, one)?;
        add(&mut all, decl)?;
    }
    let mut rest = items;
    all.append(&mut rest)?;
    Ok(all)
}
