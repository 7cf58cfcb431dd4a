ghost use Rattle.std.specs.Prelude.{◌≡◌, ◌++◌, ℕ, flat_map, OnOk};
ghost use Rattle.text_places.specs.Views.{location_of};
ghost use Rattle.c_tree.specs.Functions.{defined};
ghost use Rattle.c_tree.specs.Tree.{Program as Tree};
ghost use Rattle.c_tree.specs.View.{program_of};
ghost use Rattle.flow_graph.specs.Calls.{AreCallsOf};
ghost use Rattle.site_lines.specs.SiteLines.{kind_of_site, name_behind};
ghost use Rattle.site_lines.specs.Parts.{site_front, site_end, line_at};

use c_tree::Program;
use dm_base::OutOfMemory;
use flow_graph::Calls;
use line_text::{push_bytes, push_decimal};
use std::alloc::Global;
use text_places::{Location, push_location};

// The word for the site. A call that isn't marked may call a system call only where it calls one by its name.
fn kind_of_site(calls: &Calls, count: u32, site: u32) -> &'static [u8]
    ensures { (p : Tree) → AreCallsOf p calls.now → count ≡ defined p → result.now ≡ kind_of_site p site }
{
    if calls.marked(site) {
        return b"marked";
    }
    match calls.candidates(site).first() {
        Some(f) => {
            if *f >= count {
                return b"system";
            }
            b"silent"
        }
        None => b"silent",
    }
}

// Adds what stands before the location.
fn push_front(
    alloc: Global,
    line: &mut Vec<u8>,
    program: &Program,
    calls: &Calls,
    site: u32,
) -> Result<(), OutOfMemory>
    requires { AreCallsOf (program_of program.now) calls.now }
    ensures { OnOk result (line.new.items ≡ line.old.items ++ site_front (program_of program.now) site) }
{
    let kind = kind_of_site(calls, program.defined(), site);
    push_decimal(alloc, line, u64::from(site))?;
    push_bytes(line, b" ")?;
    push_bytes(line, kind)?;
    push_bytes(line, b" ")
}

// Adds a blank and the name of the function with this number.
fn push_name(line: &mut Vec<u8>, program: &Program, f: u32) -> Result<(), OutOfMemory>
    ensures { OnOk result (line.new.items ≡ line.old.items ++ name_behind (program_of program.now) f) }
{
    push_bytes(line, b" ")?;
    let _sites = program.sites();
    if f < program.defined() + 24 {
        return push_bytes(line, program.name_of(f));
    }
    Ok(())
}

// Adds the names of these functions, each behind a blank.
fn push_names(line: &mut Vec<u8>, program: &Program, functions: &[u32]) -> Result<(), OutOfMemory>
    ensures { OnOk result (line.new.items ≡ line.old.items ++ flat_map (name_behind (program_of program.now)) functions.now) }
{
    for f in functions {
        push_name(line, program, *f)?;
    }
    Ok(())
}

// Adds what stands behind the location.
fn push_end(
    line: &mut Vec<u8>,
    program: &Program,
    calls: &Calls,
    site: u32,
    caller: &[u8],
) -> Result<(), OutOfMemory>
    requires { AreCallsOf (program_of program.now) calls.now }
    ensures { OnOk result (line.new.items ≡ line.old.items ++ site_end (program_of program.now) site caller.now) }
{
    push_bytes(line, b" in ")?;
    push_bytes(line, caller)?;
    push_bytes(line, b" calls")?;
    push_names(line, program, calls.candidates(site))?;
    push_bytes(line, b"\n")
}

// Adds the line of a site at this location.
pub fn push_site(
    alloc: Global,
    lines: &mut Vec<u8>,
    program: &Program,
    calls: &Calls,
    site: u32,
    location: &Location,
    caller: &[u8],
) -> Result<(), OutOfMemory>
    requires { AreCallsOf (program_of program.now) calls.now }
    ensures { OnOk result (lines.new.items ≡ lines.old.items ++ line_at (program_of program.now) site (location_of location.now) caller.now) }
{
    push_front(alloc, lines, program, calls, site)?;
    push_location(alloc, lines, location)?;
    push_end(lines, program, calls, site, caller)
}
