ghost use Rattle.std.specs.Prelude.{suc};
ghost use Rattle.c_check_values.specs.Agreement.{AgreesWith};
ghost use Rattle.c_check_scopes.specs.Checked.{met};
ghost use Rattle.c_check_scopes.specs.PrimaryExpressions.{few_cells};

use crate::codes::C13;
use crate::error::CheckError;

/// The limit on a string of so many bytes and its zero, which holds where it initialises an array too (C99 5.2.4.1).
pub fn few_cells(at: u32, bytes: usize) -> Result<(), CheckError>
    ensures { AgreesWith (λ _. met) result (few_cells at (suc bytes)) }
{
    if bytes >= 65_536 {
        return Err(CheckError::At(C13, at));
    }
    Ok(())
}
