// Rule 1: which points are near each other.
ghost use Rattle.std.specs.Prelude.{◌≡◌};
ghost use Rattle.kept.specs.Kept.{near_of};

use plane::vector::{Point, minus, square_length};

// Whether b is dropped behind a: their squared distance is below the limit.
#[tactic(auto, unfolding(crate::specs::Kept::near_of))]
pub fn is_near(limit: f32, a: Point, b: Point) -> bool
    ensures { result ≡ near_of limit a b }
{
    square_length(minus(b, a)) < limit
}
