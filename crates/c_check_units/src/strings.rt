ghost use Rattle.std.specs.Prelude.{◌≡◌, ◌<◌, ◌∷◌, [], ◌++◌, length, pos, IfOk};
ghost use Rattle.c_rules.specs.Limits.{most_cells};
ghost use Rattle.c_rules.specs.PrimaryExpressions.{string_type};
ghost use Rattle.c_rules.specs.Units.{static_string};
ghost use Rattle.c_tree.specs.Operators.{value_of};
ghost use Rattle.c_tree.specs.View.{ctype_of, static_of};
ghost use Rattle.c_tree.specs.declared.value.IntType.TheVariants.{Char};
ghost use Rattle.c_check_units.specs.Chars.{chars};

use c_tree::{CType, IntType, Static, Value};
use dm_base::OutOfMemory;
use std::alloc::Global;

// A byte of a string as a char (C99 6.3.1.3).
fn char_value(b: u8) -> Value
    ensures { result ≡ value_of Char (pos b) }
{
    Value::Char(b.cast_signed())
}

// Bytes as chars.
fn chars_of(alloc: Global, bytes: &[u8]) -> Result<Vec<Value>, OutOfMemory>
    ensures { IfOk result (λ cells. cells.items ≡ chars bytes.now) }
{
    let mut cells = Vec::new(alloc);
    for b in bytes {
        cells.push(char_value(*b))?;
    }
    Ok(cells)
}

// The cells of a string, with its zero.
#[tactic(auto, using(crate::proofs::StringLemmas::chars_more))]
fn string_cells(alloc: Global, bytes: &[u8]) -> Result<Vec<Value>, OutOfMemory>
    ensures { IfOk result (λ cells. cells.items ≡ chars (bytes.now ++ 0 ∷ [])) }
{
    let mut cells = chars_of(alloc, bytes)?;
    cells.push(char_value(0))?;
    Ok(cells)
}

// The type of a string of so many bytes.
fn string_type(alloc: Global, count: usize) -> Result<CType, OutOfMemory>
    requires { count < most_cells }
    ensures { IfOk result (λ t. ctype_of t ≡ string_type count) }
{
    let size = count as u32 + 1;
    Ok(CType::Array(Box::new(alloc, CType::Int(IntType::Char))?, size))
}

/// The static object that a string is, which is within the limit on a string (C99 6.4.5 paragraph 5).
pub fn static_string(alloc: Global, bytes: &[u8]) -> Result<Static, OutOfMemory>
    requires { length bytes.now < most_cells }
    ensures { IfOk result (λ s. static_of s ≡ static_string bytes.now) }
{
    let ctype = string_type(alloc, bytes.len())?;
    let cells = string_cells(alloc, bytes)?;
    Ok(Static {
        ctype,
        cells,
        string: true,
    })
}
