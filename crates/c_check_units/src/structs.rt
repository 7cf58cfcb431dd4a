ghost use Rattle.std.specs.Prelude.{◌≡◌, length, map, IfOk};
ghost use Rattle.c_check_values.specs.Shown.{members_types};
ghost use Rattle.c_rules.specs.Scopes.{layout_of, struct_of, types_of_struct};
ghost use Rattle.c_check_values.specs.View.{env_of};
ghost use Rattle.c_tree.specs.Counts.{AreCounts};
ghost use Rattle.c_tree.specs.View.{ctypes_of, members_in};

use c_check_values::{Environment, StructMember};
use c_tree::{CType, StructMembers, copy_type};
use dm_base::OutOfMemory;
use std::alloc::Global;

// The types of members.
fn types_of_members(alloc: Global, members: &[StructMember<'_>]) -> Result<Vec<CType>, OutOfMemory>
    ensures { IfOk result (λ types. ctypes_of types.items ≡ members_types members.now) }
{
    let mut types = Vec::new(alloc);
    for member in members {
        let copied = copy_type(alloc, &member.ctype)?;
        types.push(copied)?;
    }
    Ok(types)
}

// The types of the members of the struct at a place, where it has a definition.
fn members_of_struct(
    alloc: Global,
    env: &Environment<'_>,
    place: usize,
) -> Result<StructMembers, OutOfMemory>
    ensures { IfOk result (λ m. members_in m ≡ types_of_struct (struct_of (env_of env.now) place)) }
{
    match env.members_at(place) {
        Some(members) => {
            let types = types_of_members(alloc, members)?;
            Ok(StructMembers::Defined(types))
        }
        None => Ok(StructMembers::Undefined),
    }
}

// The structs by their numbers.
pub fn structs_of(alloc: Global, env: &Environment<'_>) -> Result<Vec<StructMembers>, OutOfMemory>
    ensures { IfOk result (λ structs. length (env_of env.now).structs ≡ length env.now.struct_tags → map members_in structs.items ≡ layout_of (env_of env.now)) }
{
    let count = env.struct_tags.len();
    let mut structs = Vec::new(alloc);
    for s in 0..count {
        let members = members_of_struct(alloc, env, s)?;
        structs.push(members)?;
    }
    Ok(structs)
}

// The cells of the structs by their numbers.
pub fn cells_of_structs(alloc: Global, env: &Environment<'_>) -> Result<Vec<u32>, OutOfMemory>
    ensures { IfOk result (λ counts. length (env_of env.now).structs ≡ length env.now.struct_tags → AreCounts (layout_of (env_of env.now)) counts.items) }
{
    let count = env.struct_tags.len();
    let mut counts = Vec::new(alloc);
    for s in 0..count {
        let cells = env.struct_cells(s);
        counts.push(cells)?;
    }
    Ok(counts)
}
