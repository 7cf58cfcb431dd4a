ghost use Rattle.std.specs.Prelude.{◌≡◌, false};
ghost use Rattle.c_tree.specs.View.{stmt_of, stmts_of};
ghost use Rattle.c_values.specs.Seen.{seen};
ghost use Rattle.c_meaning.specs.Meaning.{declared_by, declared_in, name_in, without};
ghost use Rattle.ref_machine_frames.specs.Frames.{locals_of, place_of};

use crate::Here;
use c_tree::{ObjectName, TStmt};
use c_values::Memory;

/// The name of a variable of the activation that runs.
pub fn name_here(here: Here, variable: u32) -> ObjectName
    ensures { result ≡ name_in (place_of here.entry) false variable }
{
    ObjectName {
        activation: here.activation,
        variable,
    }
}

// The variable of a declaration ends.
fn end_declared(memory: &mut Memory, activation: u64, statement: &TStmt)
    ensures { seen memory.new ≡ without activation (declared_by (stmt_of statement.now)) (seen memory.old) }
{
    if let TStmt::Declare { variable, .. } = statement {
        memory.end(ObjectName {
            activation,
            variable: *variable,
        });
    }
}

// The variables that these statements declare end.
fn end_all(memory: &mut Memory, activation: u64, statements: &[TStmt])
    ensures { seen memory.new ≡ without activation (declared_in (stmts_of statements.now)) (seen memory.old) }
{
    for statement in statements {
        end_declared(memory, activation, statement);
    }
}

/// The variables that are declared directly in the block or in the head of the `for` end (C99 6.2.4 paragraph 5).
pub fn leave(memory: &mut Memory, activation: u64, of: &TStmt)
    ensures { seen memory.new ≡ without activation (locals_of (stmt_of of.now)) (seen memory.old) }
{
    match of {
        TStmt::Block(statements) => end_all(memory, activation, statements),
        TStmt::For { first, .. } => end_all(memory, activation, first),
        _ => {}
    }
}
