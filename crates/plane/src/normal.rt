// lyon's `compute_normal`, the join's direction.
ghost use Rattle.std.specs.Prelude.{◌≡◌};
ghost use Rattle.plane.specs.F32.{size_below, size_at_most};
ghost use Rattle.plane.specs.Normal.{epsilon, two, in_domain, normal_of, normal_answer_of, compute_normal_of};

use crate::vector::{Point, dot, normalize, square_length, turned};
use refusals::Meaning;

// The normal in the terms of document 01's table, by number, as `normal_answer_of` and C have it.
#[derive(Clone, Copy)]
pub struct NormalAnswer {
    pub number: u32,
    pub place: u32,
    pub x: f32,
    pub y: f32,
}

fn is_small(k: f32) -> bool
    ensures { result ≡ size_below k epsilon }
{
    -0.0001 < k && k < 0.0001
}

// The normal between two edges with the unit directions v1 and v2, so long that the edges' sides
// one unit off meet at its end.
#[tactic(auto, unfolding(crate::specs::Normal::normal_of))]
pub fn join_normal(v1: Point, v2: Point) -> Point
    ensures { result ≡ normal_of v1 v2 }
{
    let n1 = turned(v1);
    let v12 = v1 + v2;
    if square_length(v12) < 0.0001 {
        return Point { x: 0.0, y: 0.0 };
    }
    let n = turned(normalize(v12));
    let inv_len = dot(n, n1);
    if is_small(inv_len) {
        return n1;
    }
    n / inv_len
}

fn is_at_most_two(x: f32) -> bool
    ensures { result ≡ size_at_most x two }
{
    -2.0 <= x && x <= 2.0
}

// No NaN is at most 2 in size, nor is an infinity.
#[tactic(auto, unfolding(crate::specs::Normal::in_domain))]
fn is_in_domain(v: Point) -> bool
    ensures { result ≡ in_domain v }
{
    is_at_most_two(v.x) && is_at_most_two(v.y)
}

// `join_normal`, for any two vectors: outside the domain there is none (refusal 4).
#[tactic(auto, unfolding(crate::specs::Normal::compute_normal_of))]
pub fn compute_normal(v1: Point, v2: Point) -> Option<Point>
    ensures { normal_answer_of result ≡ compute_normal_of v1 v2 }
{
    if is_in_domain(v1) && is_in_domain(v2) {
        return Some(join_normal(v1, v2));
    }
    None
}

// The number, the place and the vector that an answer stands for.
impl From<Option<Point>> for NormalAnswer {
    ghost from_gives = { λ d a. a ≡ normal_answer_of d };

    fn from(d: Option<Point>) -> NormalAnswer {
        match d {
            Some(n) => NormalAnswer {
                number: Meaning::Accepted as u32,
                place: 0,
                x: n.x,
                y: n.y,
            },
            None => NormalAnswer {
                number: Meaning::BadCoordinate as u32,
                place: 0,
                x: 0.0,
                y: 0.0,
            },
        }
    }
}
