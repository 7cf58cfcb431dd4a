// How a type is written (C99 6.7.5): specifiers, and a declarator round what is declared.

ghost use Rattle.std.specs.Prelude.{◌≡◌, IfOk, map, slice_index_or, []};
ghost use Rattle.c_tree.specs.View.{ctype_of};
ghost use Rattle.c_syntax.specs.Tree.{nothing};
ghost use Rattle.c_syntax.specs.View.{spec_of, declarator_of};
ghost use Rattle.c_syntax.specs.Writes.{declarator_in};
ghost use Rattle.c_syntax_nodes.specs.Copied.{param_of};
ghost use Rattle.c_syntax.specs.SeenNames.{seen};
ghost use Rattle.null_calls_laws.specs.SpelledTypes as types;
ghost use Rattle.null_calls_temporaries.specs.Spelled.{spelled_param};

use c_syntax::{Declarator, Ident, Param, Spec};
use c_syntax_nodes::{array_node, function_node, int_node, param_node, pointer_node};
use c_tree::{CType, IntType};
use dm_base::{Bytes, OutOfMemory};
use std::alloc::Global;

// The tag of the struct with this number; empty where there is none.
fn tag_of<'t>(tags: &[&'t [u8]], number: u32) -> &'t [u8]
    ensures { result.now ≡ slice_index_or (seen tags.now) number [] }
{
    match tags.get(number as usize) {
        Some(tag) => *tag,
        None => &[],
    }
}

fn integer_spec(i: IntType) -> Spec
    ensures { spec_of result ≡ types.integer_spec i }
{
    match i {
        IntType::Char => Spec::Char,
        IntType::Uchar => Spec::Uchar,
        IntType::Int => Spec::Int,
        IntType::Uint => Spec::Uint,
    }
}

// The specifiers of what has this type.
pub fn spec(alloc: Global, tags: &[&[u8]], at: u32, t: &CType) -> Result<Spec, OutOfMemory>
    ensures { IfOk result (λ made. spec_of made ≡ types.spec_of (seen tags.now) at (ctype_of t.now)) }
{
    match t {
        CType::Void => Ok(Spec::Void),
        CType::Int(i) => Ok(integer_spec(*i)),
        CType::Struct(number) => {
            let name = Bytes::of(alloc, tag_of(tags, *number))?;
            Ok(Spec::Struct(Ident { name, at }))
        }
        CType::Pointer(target) => spec(alloc, tags, at, target),
        CType::Array(element, _) => spec(alloc, tags, at, element),
        CType::Function(returns, _) => spec(alloc, tags, at, returns),
    }
}

// The declarator of what has this type, round what is declared.
#[cycle(spelled)]
pub fn declarator(
    alloc: Global,
    tags: &[&[u8]],
    at: u32,
    t: &CType,
    inner: Declarator,
) -> Result<Declarator, OutOfMemory>
    ensures { IfOk result (λ made. declarator_of made ≡ types.declarator_of (seen tags.now) at (ctype_of t.now) (declarator_of inner)) }
{
    match t {
        CType::Void => Ok(inner),
        CType::Int(_) => Ok(inner),
        CType::Struct(_) => Ok(inner),
        CType::Pointer(target) => {
            let inner = Box::new(alloc, inner)?;
            declarator(alloc, tags, at, target, pointer_node(at, Some(inner)))
        }
        CType::Array(element, count) => {
            let inner = Box::new(alloc, inner)?;
            let size = Box::new(alloc, int_node(at, *count, false))?;
            declarator(
                alloc,
                tags,
                at,
                element,
                array_node(at, Some(inner), Some(size)),
            )
        }
        CType::Function(returns, parameters) => {
            let inner = Box::new(alloc, inner)?;
            let list = params(alloc, tags, at, parameters)?;
            let node = function_node(at, Some(inner), list);
            declarator(alloc, tags, at, returns, node)
        }
    }
}

// The declarator of a parameter of this type, which has no name.
#[cycle(spelled)]
fn nameless(
    alloc: Global,
    tags: &[&[u8]],
    at: u32,
    t: &CType,
) -> Result<Option<Declarator>, OutOfMemory>
    ensures { IfOk result (λ made. declarator_in made ≡ types.declarator_of (seen tags.now) at (ctype_of t.now) nothing) }
{
    match t {
        CType::Void => Ok(None),
        CType::Int(_) => Ok(None),
        CType::Struct(_) => Ok(None),
        CType::Pointer(target) => {
            let made = declarator(alloc, tags, at, target, pointer_node(at, None))?;
            Ok(Some(made))
        }
        CType::Array(element, count) => {
            let size = Box::new(alloc, int_node(at, *count, false))?;
            let made = declarator(alloc, tags, at, element, array_node(at, None, Some(size)))?;
            Ok(Some(made))
        }
        CType::Function(returns, parameters) => {
            let list = params(alloc, tags, at, parameters)?;
            let node = function_node(at, None, list);
            let made = declarator(alloc, tags, at, returns, node)?;
            Ok(Some(made))
        }
    }
}

// The parameters of a function with these types.
#[cycle(spelled)]
fn params(alloc: Global, tags: &[&[u8]], at: u32, ts: &[CType]) -> Result<Vec<Param>, OutOfMemory>
    ensures { IfOk result (λ made. map param_of made.items ≡ map (spelled_param (seen tags.now) at) ts.now) }
{
    let mut made = Vec::new(alloc);
    for i in 0..ts.len() {
        let spec = spec(alloc, tags, at, &ts[i])?;
        let one = nameless(alloc, tags, at, &ts[i])?;
        made.push(param_node(at, spec, one))?;
    }
    Ok(made)
}
