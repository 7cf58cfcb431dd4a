ghost use Rattle.std.specs.Prelude.{◌≡◌, OnOk};
ghost use Rattle.c_check_units.specs.OutputView.{object_output, output_of};
ghost use Rattle.c_rules.specs.Items.{no_output, output_of_function, with_output};
ghost use Rattle.c_tree.specs.View.{function_of};

use c_tree::{Function, Static};
use dm_base::OutOfMemory;
use std::alloc::Global;

/// The functions and the static objects that items define, in the order of the text.
#[derive(Drop)]
pub struct Output {
    /// The functions.
    pub functions: Vec<Function>,
    /// The static objects.
    pub statics: Vec<Static>,
}

/// Nothing.
pub fn no_output(alloc: Global) -> Output
    ensures { output_of result ≡ no_output }
{
    Output {
        functions: Vec::new(alloc),
        statics: Vec::new(alloc),
    }
}

/// Adds an object that is defined, or none.
#[tactic(auto, using(crate::proofs::OutputLemmas::no_more, crate::proofs::OutputLemmas::one_static))]
pub fn add_object(into: &mut Output, object: Option<Static>) -> Result<(), OutOfMemory>
    ensures { OnOk result (output_of into.new ≡ with_output (output_of into.old) (object_output object)) }
{
    match object {
        Some(object) => {
            into.statics.push(object)?;
            Ok(())
        }
        None => Ok(()),
    }
}

/// Adds a function that is defined.
#[tactic(auto, using(crate::proofs::OutputLemmas::one_function))]
pub fn add_function(into: &mut Output, function: Function) -> Result<(), OutOfMemory>
    ensures { OnOk result (output_of into.new ≡ with_output (output_of into.old) (output_of_function (function_of function))) }
{
    into.functions.push(function)?;
    Ok(())
}
