ghost use Rattle.std.specs.Prelude.{◌≡◌, length, IfOk};
ghost use Rattle.c_syntax.specs.UnitView.{items_of};
ghost use Rattle.c_tree.specs.Sites.{sites_of_program};
ghost use Rattle.c_tree.specs.View.{program_of};
ghost use Rattle.flow_graph.specs.Calls.{AreCallsOf};
ghost use Rattle.c_rules.specs.CallPlaces.{call_places};
ghost use Rattle.c_check_counts.specs.SeenCalls.{seen};
ghost use Rattle.site_lines.specs.SiteLines.{site_lines, sites_text};

use crate::site::push_site;
use c_check_counts::{CallPlace, places_of_calls};
use c_syntax::Unit;
use c_tree::Program;
use dm_base::OutOfMemory;
use flow_graph::Calls;
use std::alloc::Global;
use text_places::Locator;

// The lines of the program's sites, which are these call expressions.
fn lines_of(
    alloc: Global,
    file: &[u8],
    text: &[u8],
    program: &Program,
    calls: &Calls,
    places: &[CallPlace],
) -> Result<Vec<u8>, OutOfMemory>
    requires calls { AreCallsOf (program_of program.now) calls.now }
    requires sites { length places.now ≡ length (sites_of_program (program_of program.now)) }
    ensures { IfOk result (λ lines. lines.items ≡ site_lines file.now text.now (program_of program.now) 0 (seen places.now)) }
{
    let mut reader = Locator::new(file, text);
    let mut lines = Vec::new(alloc);
    for site in 0..program.sites() {
        let call = &places[site as usize];
        let location = reader.at(call.at as usize);
        push_site(
            alloc,
            &mut lines,
            program,
            calls,
            site,
            &location,
            call.caller,
        )?;
    }
    Ok(lines)
}

/// The lines of a unit's call expressions, one for each site of the program that it is typed as, in order: its number, what is called
/// there, where it stands in the text of the file, in which function, and which functions may be called. The error is that memory was
/// refused.
pub fn sites_text(
    alloc: Global,
    file: &[u8],
    text: &[u8],
    unit: &Unit,
    program: &Program,
) -> Result<Vec<u8>, OutOfMemory>
    requires { length (call_places (items_of unit.now.items.items)) ≡ length (sites_of_program (program_of program.now)) }
    ensures { IfOk result (λ lines. lines.items ≡ sites_text file.now text.now (items_of unit.now.items.items) (program_of program.now)) }
{
    let calls = Calls::of(alloc, program)?;
    let places = places_of_calls(alloc, &unit.items)?;
    lines_of(alloc, file, text, program, &calls, &places)
}
