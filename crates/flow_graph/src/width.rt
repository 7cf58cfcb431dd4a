ghost use Rattle.std.specs.Prelude.{◌≡◌, ◌+◌, ◌≤◌, ℕ, min};
ghost use Rattle.flow_graph.specs.View.{shape_of, parts_of};
ghost use Rattle.c_meaning.specs.GraphLayout.{width, widths, count};

use crate::Shape;

// The sum, or `most` where it is more.
pub fn add(a: u32, b: u32, most: u32) -> u32
    ensures { result ≡ min (a + b) most }
{
    a.saturating_add(b).min(most)
}

/// How many fresh nodes a shape has in all, or `most` where it has more.
#[cycle(width)]
pub fn width_of(shape: &Shape, most: u32) -> u32
    ensures { result ≡ min (width (shape_of shape.now)) most }
{
    match shape {
        Shape::Skip | Shape::Sys(_, _) | Shape::Call(_) => 0,
        Shape::Exit(_) => 1.min(most),
        Shape::Break | Shape::Continue | Shape::Return => 0,
        Shape::Seq(first, rest) => add(width_of(first, most), width_of_parts(rest, most), most),
        Shape::Alt(one, other) => add(width_of(one, most), width_of(other, most), most),
        Shape::Loop(test, body, step) => add(
            3,
            add(
                add(width_of(test, most), width_of(body, most), most),
                width_of(step, most),
                most,
            ),
            most,
        ),
        Shape::Do(body, test) => add(
            3,
            add(width_of(body, most), width_of(test, most), most),
            most,
        ),
        Shape::Cases(groups, _) => width_of_parts(groups, most),
    }
}

// How many fresh nodes shapes in order have, with one for each of them, or `most` where they have more.
#[cycle(width)]
fn width_of_parts(parts: &[Shape], most: u32) -> u32
    ensures { result ≡ min (count (parts_of parts.now) + widths (parts_of parts.now)) most }
{
    let mut sum = 0;
    for i in 0..parts.len() {
        sum = add(sum, add(1, width_of(&parts[i], most), most), most);
    }
    sum
}
