ghost use Rattle.std.specs.Prelude.{◌≡◌, ◌≤◌, IfOk, length};
ghost use Rattle.c_syntax.specs.UnitView.{items_of};
ghost use Rattle.c_syntax.specs.Text.{unit_text};
ghost use Rattle.c_syntax.specs.Spelling.{IsReadAs};

mod declarations;
mod expressions;
mod items;
mod statements;
mod tokens;

use crate::printing::items::write_items;
use c_lexer::OutOfMemory;
use c_syntax::Unit;
use std::alloc::Global;

/// The text of a unit: its tokens with one space between two tokens of a line, and a line ends after
/// each `;`, `{` and `}`. An operand that is a name, a constant, a string, a call, an index or a member
/// stands bare, any other in parentheses. Where the text has at most 16 MiB, its tokens spell, in
/// the mode Instrumented, a unit that is the same apart from places.
pub fn print(alloc: Global, unit: &Unit) -> Result<Vec<u8>, OutOfMemory>
    ensures text { IfOk result (λ text. text.items ≡ unit_text (items_of unit.now.items.items)) }
    ensures back { IfOk result (λ text. length text.items ≤ 16777216 → ∥ IsReadAs text.items (items_of unit.now.items.items) ∥₁) }
{
    let text = write_unit(alloc, unit)?;
    Ok(text)
}

// The text of a unit.
fn write_unit(alloc: Global, unit: &Unit) -> Result<Vec<u8>, OutOfMemory>
    ensures { IfOk result (λ text. text.items ≡ unit_text (items_of unit.now.items.items)) }
{
    let mut out = Vec::new(alloc);
    write_items(&mut out, &unit.items)?;
    Ok(out)
}
