ghost use Rattle.std.specs.Prelude.{◌≡◌, ◌∷◌, [], IfSome, IfNone, OnOk};

use crate::copied::Waiting;
use dm_base::OutOfMemory;
use std::alloc::Global;
use std::marker::Model;

/// The copies that wait, seen as their list, the next one first.
#[derive(Drop)]
pub struct Stack {
    held: Vec<Waiting>,
}

impl Model for Stack {
    ghost use Rattle.std.specs.Prelude.{List, reverse};
    ghost use Rattle.inline_model.specs.declared.copied.Waiting.{Waiting};

    ghost Value = { List Waiting };

    ghost view = { λ s. reverse s.held.items };
}

impl Stack {
    /// No copies.
    pub fn new(alloc: Global) -> Stack
        ensures { result ≡ [] }
    {
        Stack {
            held: Vec::new(alloc),
        }
    }

    /// Puts a copy before all others.
    pub fn push(&mut self, one: Waiting) -> Result<(), OutOfMemory>
        ensures { OnOk result (self.new ≡ one ∷ self.old) }
    {
        self.held.push(one)?;
        Ok(())
    }

    /// Takes the next copy.
    pub fn pop(&mut self) -> Option<Waiting>
        ensures some { IfSome result (λ one. self.old ≡ one ∷ self.new) }
        ensures none { IfNone result (self.old ≡ []) }
    {
        self.held.pop()
    }
}
