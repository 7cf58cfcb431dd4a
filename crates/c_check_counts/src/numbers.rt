ghost use Rattle.std.specs.Prelude.{◌≡◌, ◌∷◌, [], ◌≤◌, length, IfOk};
ghost use Rattle.c_syntax.specs.UnitView.{stmt_of};
ghost use Rattle.c_check_scopes.specs.Functions.{items_of_body};
ghost use Rattle.c_check_scopes.specs.Limits.{most_local_cells};
ghost use Rattle.c_check_scopes.specs.Variables.{names_of_block, number_in, past_name, past_names};
ghost use Rattle.c_check_counts.specs.Numbered.{AreFirst, HaveNumbers, next_of};
ghost use Rattle.c_syntax.specs.SeenNames.{seen};

use crate::names::add_names;
use c_check_scopes::is_added;
use c_syntax::{Param, Stmt};
use dm_base::{Mode, OutOfMemory};
use std::alloc::Global;

/// The numbers that the next variables of a function have. The instrumenter's variables are numbered after all others, so the
/// others have the numbers that they have without it.
#[derive(Clone, Copy)]
pub struct Next {
    /// That of the next variable that isn't the instrumenter's.
    pub plain: u32,
    /// That of the next one of the instrumenter.
    pub added: u32,
}

impl Next {
    /// The number of a variable with this name.
    pub fn number(self, name: &[u8]) -> u32
        ensures { result ≡ number_in (next_of self) name.now }
    {
        if is_added(name) {
            return self.added;
        }
        self.plain
    }

    /// The next numbers behind a variable with this name.
    pub fn past(self, name: &[u8]) -> Next
        requires { HaveNumbers (next_of self) (name.now ∷ []) }
        ensures { next_of result ≡ past_name (next_of self) name.now }
    {
        if is_added(name) {
            return Next {
                plain: self.plain,
                added: self.added + 1,
            };
        }
        Next {
            plain: self.plain + 1,
            added: self.added,
        }
    }
}

// The next numbers behind variables with these names.
fn past_all(next: Next, names: &[&[u8]]) -> Next
    requires { HaveNumbers (next_of next) (seen names.now) }
    ensures { next_of result ≡ past_names (next_of next) (seen names.now) }
{
    let mut reached = next;
    for name in names {
        reached = reached.past(name);
    }
    reached
}

// How many variables a function may have.
fn most_variables(mode: Mode) -> usize
    ensures exact { result ≡ most_local_cells mode }
    ensures few { result ≤ 262144 }
{
    match mode {
        Mode::Plain => 65_536,
        Mode::Instrumented => 262_144,
    }
}

// The first numbers behind so many parameters of variables with these names.
fn numbers_from(parameters: u32, names: &[&[u8]]) -> Next
    requires { HaveNumbers (record { plain = parameters; added = 0 }) (seen names.now) }
    ensures { next_of result ≡ record { plain = parameters; added = (past_names (record { plain = parameters; added = 0 }) (seen names.now)).plain } }
{
    let start = Next {
        plain: parameters,
        added: 0,
    };
    let end = past_all(start, names);
    Next {
        plain: parameters,
        added: end.plain,
    }
}

// The names of the variables that the body of a function declares, in order.
fn names_of_body<'t>(alloc: Global, body: &'t Stmt) -> Result<Vec<&'t [u8]>, OutOfMemory>
    ensures { IfOk result (λ names. seen names.items ≡ names_of_block (items_of_body (stmt_of body.now))) }
{
    let mut names = Vec::new(alloc);
    add_names(&mut names, body)?;
    Ok(names)
}

/// The first numbers of the variables in a function's body behind these parameters, where these aren't too many variables together (C99
/// 5.2.4.1).
pub fn first_numbers(
    alloc: Global,
    mode: Mode,
    parameters: &[Param],
    body: &Stmt,
) -> Result<Option<Next>, OutOfMemory>
    ensures { IfOk result (AreFirst mode (length parameters.now) (items_of_body (stmt_of body.now))) }
{
    let names = names_of_body(alloc, body)?;
    if parameters.len() + names.len() > most_variables(mode) {
        return Ok(None);
    }
    let count = parameters.len() as u32;
    Ok(Some(numbers_from(count, &names)))
}
