use dm_base::OutOfMemory;

/// Why nothing was read.
#[derive(Clone, Copy)]
pub enum Miss {
    /// Memory was refused.
    OutOfMemory,
    /// The text ends too early: there is a longer one in which something stands here.
    Short,
    /// However the text goes on, nothing that fits stands here.
    Wrong,
}

impl From<OutOfMemory> for Miss {
    ghost use Rattle.std.specs.Prelude.{◌≡◌};
    ghost use Rattle.line_text.specs.declared.miss.Miss.TheVariants.{OutOfMemory as memory};

    ghost from_gives = { λ _ miss. miss ≡ memory };

    fn from(_: OutOfMemory) -> Miss {
        Miss::OutOfMemory
    }
}
