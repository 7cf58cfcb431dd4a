ghost use Rattle.std.specs.Prelude.{◌≤◌, ℕ, List, ◌++◌, length, OnOk};
ghost use Rattle.flow_model.specs.Graph.{Graph};
ghost use Rattle.trace_file.specs.Trace.{longest};

use dm_base::OutOfMemory;
use flow_model::Model;
use std::alloc::Global;

/// What is made of a file that is read in pieces.
pub trait Follower: Drop {
    /// The file begins with this text, which was followed by this model and up to this bound.
    ghost followed: { Self → Graph → ℕ → List ℕ → Type 0 };

    /// Follows the next piece of the file. Where memory is refused, it is of no more use.
    fn take(&mut self, alloc: Global, model: &Model, piece: &[u8]) -> Result<(), OutOfMemory>
        requires { (k : ℕ) × (text : List ℕ) × followed self.old model.now k text }
        ensures { OnOk result ((k : ℕ) (text : List ℕ) → followed self.old model.now k text → length (text ++ piece.now) ≤ longest → followed self.new model.now k (text ++ piece.now)) };
}
