ghost use Rattle.std.specs.Prelude.{◌≡◌, ◌∷◌, ◌++◌, [], true, false, OnOk, IfOk};
ghost use Rattle.c_meaning.specs.Shape.{Skip, End, Alt, Loop, Do};
ghost use Rattle.c_meaning.specs.ShapeOf.{before_parts, in_turn, alt as alt_of, seq_two};
ghost use Rattle.flow_graph.specs.View.{shape_of, parts_of};
ghost use Rattle.flow_graph.specs.Joined.{joined, is_skip};

use crate::shape::Shape;
use dm_base::OutOfMemory;
use std::alloc::Global;

// Whether the shape is nothing.
fn is_nothing(shape: &Shape) -> bool
    ensures { result ≡ is_skip (shape_of shape.now) }
{
    match shape {
        Shape::Skip => true,
        _ => false,
    }
}

// Adds a shape after others.
pub fn push(into: &mut Vec<Shape>, shape: Shape) -> Result<(), OutOfMemory>
    ensures { OnOk result (into.new.items ≡ into.old.items ++ shape ∷ []) }
{
    into.push(shape)?;
    Ok(())
}

// Adds a part after others, unless it is nothing.
pub fn add(into: &mut Vec<Shape>, part: Shape) -> Result<(), OutOfMemory>
    ensures { OnOk result (parts_of into.new.items ≡ joined (parts_of into.old.items) (before_parts (shape_of part) End)) }
{
    if is_nothing(&part) {
        return Ok(());
    }
    push(into, part)
}

// Puts a part before others, unless it is nothing.
fn put_before(into: &mut Vec<Shape>, part: Shape) -> Result<(), OutOfMemory>
    ensures { OnOk result (parts_of into.new.items ≡ before_parts (shape_of part) (parts_of into.old.items)) }
{
    if is_nothing(&part) {
        return Ok(());
    }
    into.insert(0, part)?;
    Ok(())
}

// The parts in turn, none of which is nothing.
pub fn in_turn(alloc: Global, mut parts: Vec<Shape>) -> Result<Shape, OutOfMemory>
    ensures { IfOk result (λ s. shape_of s ≡ in_turn (parts_of parts.items)) }
{
    if parts.is_empty() {
        return Ok(Shape::Skip);
    }
    let first = parts.remove(0);
    if parts.is_empty() {
        return Ok(first);
    }
    let first = Box::new(alloc, first)?;
    Ok(Shape::Seq(first, parts))
}

// Parts in turn, none of which is nothing, and a last one after them.
pub fn then_last(alloc: Global, mut parts: Vec<Shape>, last: Shape) -> Result<Shape, OutOfMemory>
    ensures { IfOk result (λ s. shape_of s ≡ in_turn (joined (parts_of parts.items) (before_parts (shape_of last) End))) }
{
    add(&mut parts, last)?;
    in_turn(alloc, parts)
}

// Parts in turn, none of which is nothing, between a first one and a last one.
pub fn between(
    alloc: Global,
    first: Shape,
    mut parts: Vec<Shape>,
    last: Shape,
) -> Result<Shape, OutOfMemory>
    ensures { IfOk result (λ s. shape_of s ≡ in_turn (before_parts (shape_of first) (joined (parts_of parts.items) (before_parts (shape_of last) End)))) }
{
    add(&mut parts, last)?;
    put_before(&mut parts, first)?;
    in_turn(alloc, parts)
}

// One part after another, where each that is nothing is left out.
pub fn two(alloc: Global, first: Shape, second: Shape) -> Result<Shape, OutOfMemory>
    ensures { IfOk result (λ s. shape_of s ≡ seq_two (shape_of first) (shape_of second)) }
{
    let mut parts = Vec::new(alloc);
    add(&mut parts, first)?;
    then_last(alloc, parts, second)
}

// Whether both shapes are nothing.
fn are_nothing(one: &Shape, other: &Shape) -> bool
    ensures both { result ≡ true → alt_of (shape_of one.now) (shape_of other.now) ≡ Skip }
    ensures some { result ≡ false → alt_of (shape_of one.now) (shape_of other.now) ≡ Alt (shape_of one.now) (shape_of other.now) }
{
    if !is_nothing(one) {
        return false;
    }
    is_nothing(other)
}

// One of two parts, and nothing where both are nothing.
pub fn alt(alloc: Global, one: Shape, other: Shape) -> Result<Shape, OutOfMemory>
    ensures { IfOk result (λ s. shape_of s ≡ alt_of (shape_of one) (shape_of other)) }
{
    if are_nothing(&one, &other) {
        return Ok(Shape::Skip);
    }
    let one = Box::new(alloc, one)?;
    let other = Box::new(alloc, other)?;
    Ok(Shape::Alt(one, other))
}

// A part, and after it another or nothing.
pub fn perhaps(alloc: Global, first: Shape, second: Shape) -> Result<Shape, OutOfMemory>
    ensures { IfOk result (λ s. shape_of s ≡ seq_two (shape_of first) (alt_of (shape_of second) Skip)) }
{
    let second = alt(alloc, second, Shape::Skip)?;
    two(alloc, first, second)
}

// A part, and after it one of two.
pub fn one_of(alloc: Global, first: Shape, one: Shape, other: Shape) -> Result<Shape, OutOfMemory>
    ensures { IfOk result (λ s. shape_of s ≡ seq_two (shape_of first) (alt_of (shape_of one) (shape_of other))) }
{
    let second = alt(alloc, one, other)?;
    two(alloc, first, second)
}

// A loop with its test, its body and its step.
pub fn loop_of(alloc: Global, test: Shape, body: Shape, step: Shape) -> Result<Shape, OutOfMemory>
    ensures { IfOk result (λ s. shape_of s ≡ Loop (shape_of test) (shape_of body) (shape_of step)) }
{
    let test = Box::new(alloc, test)?;
    let body = Box::new(alloc, body)?;
    let step = Box::new(alloc, step)?;
    Ok(Shape::Loop(test, body, step))
}

// A loop with its body and the test after it.
pub fn do_of(alloc: Global, body: Shape, test: Shape) -> Result<Shape, OutOfMemory>
    ensures { IfOk result (λ s. shape_of s ≡ Do (shape_of body) (shape_of test)) }
{
    let body = Box::new(alloc, body)?;
    let test = Box::new(alloc, test)?;
    Ok(Shape::Do(body, test))
}

// A loop after a part that is done first.
pub fn for_of(
    alloc: Global,
    first: Shape,
    test: Shape,
    body: Shape,
    step: Shape,
) -> Result<Shape, OutOfMemory>
    ensures { IfOk result (λ s. shape_of s ≡ seq_two (shape_of first) (Loop (shape_of test) (shape_of body) (shape_of step))) }
{
    let rounds = loop_of(alloc, test, body, step)?;
    two(alloc, first, rounds)
}
