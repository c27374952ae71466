// The stretches of a run that its pass goes along, one behind the other.
ghost use Rattle.std.specs.Prelude.{true, false, ◌≡◌, [], ◌∷◌};
ghost use Rattle.kept.specs.Held.{p0_of, p1_of, behind_of};
ghost use Rattle.along.specs.Points.{to_pass};

use endpoint::endpoint_after;
use kept::points::{Kept, Points};

// Points to pass: those from one on. On closing, points are sure to be kept.
#[derive(Clone, Copy)]
pub struct Stretch<'a> {
    pub points: Points<'a>,
    pub from: usize,
    pub sure: bool,
}

impl<'a> Stretch<'a> {
    // Behind the second kept point.
    pub fn rest(k: Kept<'a>) -> Stretch<'a>
        ensures points { to_pass result ≡ behind_of k.entry }
        ensures sure { result.sure ≡ false }
    {
        Stretch {
            points: k.points,
            from: k.second + 1,
            sure: false,
        }
    }

    // Back to p0, which ends a closed run's last edge.
    pub fn back(k: Kept<'a>) -> Stretch<'a>
        ensures points { to_pass result ≡ p0_of k.entry ∷ [] }
        ensures sure { result.sure ≡ true }
    {
        Stretch {
            points: k.points.up_to(2),
            from: 0,
            sure: true,
        }
    }

    // And on to p1, which ends its first edge once more.
    pub fn on(k: Kept<'a>) -> Stretch<'a>
        ensures points { to_pass result ≡ p1_of k.entry ∷ [] }
        ensures sure { result.sure ≡ true }
    {
        let from = 2 * k.second;
        Stretch {
            points: Points {
                coords: &k.points.coords[from..from + 2],
                first: endpoint_after(k.points.first, k.second),
            },
            from: 0,
            sure: true,
        }
    }
}
