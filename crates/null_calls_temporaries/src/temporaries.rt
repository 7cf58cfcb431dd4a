ghost use Rattle.std.specs.Prelude.{◌≡◌, ◌++◌, ◌∷◌, [], OnOk};
ghost use Rattle.c_tree.specs.View.{ctype_of, types_of};
ghost use Rattle.null_calls_temporaries.specs.Sited.{type_where, called_of};
ghost use Rattle.null_calls_laws.specs.Temporaries as kept;
ghost use Rattle.null_calls_temporaries.specs.Kept.{temporaries_of};

use crate::names::{argument_name, designator_name, result_name};
use crate::table::Called;
use c_tree::CType;
use dm_base::{Bytes, OutOfMemory};
use std::alloc::Global;

/// A variable in which what a marked call takes or gives is kept.
#[derive(Drop)]
pub struct Temporary<'p> {
    /// Its name.
    pub name: Bytes,
    /// Its type.
    pub ctype: &'p CType,
}

fn add<'p>(into: &mut Vec<Temporary<'p>>, name: Bytes, ctype: &'p CType) -> Result<(), OutOfMemory>
    ensures { OnOk result (temporaries_of into.new.items ≡ temporaries_of into.old.items ++ record { name = name; ctype = ctype_of ctype.now } ∷ []) }
{
    into.push(Temporary { name, ctype })?;
    Ok(())
}

fn add_designator<'p>(
    alloc: Global,
    into: &mut Vec<Temporary<'p>>,
    site: u32,
    pointer_type: Option<&'p CType>,
) -> Result<(), OutOfMemory>
    ensures { OnOk result (temporaries_of into.new.items ≡ temporaries_of into.old.items ++ kept.designator_kept site (type_where pointer_type.entry)) }
{
    match pointer_type {
        None => Ok(()),
        Some(t) => {
            let name = designator_name(alloc, site)?;
            add(into, name, t)
        }
    }
}

fn add_arguments<'p>(
    alloc: Global,
    into: &mut Vec<Temporary<'p>>,
    site: u32,
    ts: &'p [CType],
) -> Result<(), OutOfMemory>
    ensures { OnOk result (temporaries_of into.new.items ≡ temporaries_of into.old.items ++ kept.arguments_kept site 0 (types_of ts.now)) }
{
    for i in 0..ts.len() {
        let name = argument_name(alloc, site, i as u64)?;
        add(into, name, &ts[i])?;
    }
    Ok(())
}

/// Whether the result of a call is kept: where its value is wanted and it has one.
pub fn is_kept(wanted: bool, t: &CType) -> bool
    ensures { result ≡ kept.is_kept wanted (ctype_of t.now) }
{
    match t {
        CType::Void => false,
        CType::Int(_) => wanted,
        CType::Pointer(_) => wanted,
        CType::Array(_, _) => wanted,
        CType::Struct(_) => wanted,
        CType::Function(_, _) => wanted,
    }
}

fn add_result<'p>(
    alloc: Global,
    into: &mut Vec<Temporary<'p>>,
    site: u32,
    wanted: bool,
    t: &'p CType,
) -> Result<(), OutOfMemory>
    ensures { OnOk result (temporaries_of into.new.items ≡ temporaries_of into.old.items ++ kept.result_kept site wanted (ctype_of t.now)) }
{
    if !is_kept(wanted, t) {
        return Ok(());
    }
    let name = result_name(alloc, site)?;
    add(into, name, t)
}

/// Adds the temporaries of the marked call at the site: of the pointer that is called, of the arguments, and of the result where it
/// is wanted and there is one.
pub fn add_temporaries<'p>(
    alloc: Global,
    into: &mut Vec<Temporary<'p>>,
    site: u32,
    wanted: bool,
    called: &Called<'p>,
) -> Result<(), OutOfMemory>
    ensures { OnOk result (temporaries_of into.new.items ≡ temporaries_of into.old.items ++ kept.temporaries_of site wanted (called_of called.now)) }
{
    add_designator(alloc, into, site, called.pointer_type)?;
    add_arguments(alloc, into, site, called.parameters)?;
    add_result(alloc, into, site, wanted, called.returns)
}
