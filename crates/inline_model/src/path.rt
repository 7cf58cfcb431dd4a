ghost use Rattle.inline_model.specs.Places.{place_of, places_of};
ghost use Rattle.std.specs.Prelude.{◌≡◌, List, [], ◌∷◌, ◌++◌, IfOk, IfSome, IfNone, OnOk};

use dm_base::OutOfMemory;
use std::alloc::Global;
use std::marker::Model;

/// A call edge by its place, or None for the start, and from which place on what it opens is still to be looked at.
#[derive(Clone, Copy)]
pub struct Frame {
    pub opener: Option<usize>,
    pub next: usize,
}

/// The way of a search, seen as the list of its frames, the newest first.
#[derive(Drop)]
pub struct Path {
    frames: Vec<Frame>,
}

impl Model for Path {
    ghost use Rattle.std.specs.Prelude.{List, reverse};
    ghost use Rattle.inline_model.specs.declared.path.Frame.{Frame};

    ghost Value = { List Frame };

    ghost view = { λ p. reverse p.frames.items };
}

// Adds the place of the frame where it has one.
fn add_place(places: &mut Vec<usize>, frame: Frame) -> Result<(), OutOfMemory>
    ensures { OnOk result (places.new.items ≡ places.old.items ++ place_of frame) }
{
    let Some(place) = frame.opener else {
        return Ok(());
    };
    places.push(place)?;
    Ok(())
}

// The places of the frames, in their order.
fn places_in_order(alloc: Global, frames: &[Frame]) -> Result<Vec<usize>, OutOfMemory>
    ensures { IfOk result (λ places. places.items ≡ places_of frames.now) }
{
    let mut places = Vec::new(alloc);
    for frame in frames {
        add_place(&mut places, *frame)?;
    }
    Ok(places)
}

impl Path {
    ghost use Rattle.inline_model.specs.declared.path.Frame.{Frame};
    ghost use Rattle.inline_model.specs.Places.{places_onto};

    /// The path that begins at the start.
    pub fn new(alloc: Global) -> Result<Path, OutOfMemory>
        ensures { IfOk result (λ p. p ≡ record { opener = None; next = 0 } ∷ []) }
    {
        let mut frames = Vec::new(alloc);
        frames.push(Frame {
            opener: None,
            next: 0,
        })?;
        Ok(Path { frames })
    }

    /// The newest frame.
    pub fn top(&self) -> Option<Frame>
        ensures some { IfSome result (λ frame. (rest : List Frame) × (self.now ≡ frame ∷ rest)) }
        ensures none { IfNone result (self.now ≡ []) }
    {
        self.frames.last().copied()
    }

    /// Puts a frame on top.
    pub fn push(&mut self, frame: Frame) -> Result<(), OutOfMemory>
        ensures { OnOk result (self.new ≡ frame ∷ self.old) }
    {
        self.frames.push(frame)?;
        Ok(())
    }

    /// The places of the call edges on the path, the oldest first.
    pub fn places(&self) -> Result<Vec<usize>, OutOfMemory>
        ensures { IfOk result (λ places. places.items ≡ places_onto self.now []) }
    {
        let places = places_in_order(*self.frames.allocator(), &self.frames)?;
        Ok(places)
    }

    /// Takes the newest frame away.
    pub fn pop(&mut self) -> Option<Frame>
        ensures some { IfSome result (λ frame. self.old ≡ frame ∷ self.new) }
        ensures none { IfNone result (self.old ≡ []) }
    {
        self.frames.pop()
    }
}
