ghost use Rattle.std.specs.Prelude.{◌≡◌, ◌∷◌, [], ◌++◌, OnOk};
ghost use Rattle.c_syntax.specs.SeenNames.{seen};

use dm_base::OutOfMemory;

// Adds one name.
pub fn add<'t>(into: &mut Vec<&'t [u8]>, name: &'t [u8]) -> Result<(), OutOfMemory>
    ensures { OnOk result (seen into.new.items ≡ seen into.old.items ++ name.now ∷ []) }
{
    into.push(name)?;
    Ok(())
}
