// Rule 6: where a side is cut off beyond the limit.
ghost use Rattle.std.specs.Prelude.{◌≡◌};
ghost use Rattle.join.specs.Clip.{zero_of, cut_of, side_line_of, unmoved_of, moved_of, clipped_of};

use plane::vector::{Point, dot, length, normalize, turned};

// A normal of no length: the side runs back along itself. -0 is zero too.
#[tactic(auto, unfolding(crate::specs::Clip::zero_of))]
pub fn is_zero(normal: Point) -> bool
    ensures { result ≡ zero_of normal }
{
    normal.x == 0.0 && normal.y == 0.0
}

// The direction in which a side is cut off: its normal's, or its own on the way in where it has no normal.
#[tactic(auto, unfolding(crate::specs::Clip::cut_of))]
pub fn cut_direction(v0: Point, normal: Point) -> Point
    ensures { result ≡ cut_of v0 normal }
{
    if is_zero(normal) {
        return v0;
    }
    normalize(normal)
}

// The line along which an offset moves: its own side's, a quarter turn from it.
#[derive(Clone, Copy)]
struct SideLine {
    length: f32,
    d: Point,
}

#[tactic(auto, unfolding(crate::specs::Clip::side_line_of))]
fn side_line(a: Point) -> SideLine
    ensures { result ≡ side_line_of a }
{
    let side = turned(a);
    let length = length(side);
    SideLine {
        length,
        d: side / length,
    }
}

// Whether an offset stays where it is: it has no length, or its side runs along the cut.
#[tactic(auto, unfolding(crate::specs::Clip::unmoved_of))]
fn is_unmoved(length: f32, along: f32) -> bool
    ensures { result ≡ unmoved_of length along }
{
    length == 0.0 || (-0.0009765625 < along && along < 0.0009765625)
}

// The offset a, moved along a line to the cut that lies at the distance c in the direction u.
#[tactic(auto, unfolding(crate::specs::Clip::moved_of))]
fn moved(a: Point, line: SideLine, u: Point, c: f32) -> Point
    ensures { result ≡ moved_of a line u c }
{
    let along = dot(line.d, u);
    if is_unmoved(line.length, along) {
        return a;
    }
    a + line.d * ((c - dot(a, u)) / along)
}

// The two offsets of a side, each cut off.
#[derive(Clone, Copy)]
pub struct Clipped {
    pub prev: Point,
    pub next: Point,
}

#[tactic(auto, unfolding(crate::specs::Clip::clipped_of))]
pub fn get_clip_intersections(prev: Point, next: Point, u: Point, distance: f32) -> Clipped
    ensures { result ≡ clipped_of prev next u distance }
{
    Clipped {
        prev: moved(prev, side_line(prev), u, distance),
        next: moved(next, side_line(next), u, distance),
    }
}
