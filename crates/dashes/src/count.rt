// How many cuts fall on an edge.
ghost use Rattle.std.specs.Prelude.{◌+◌, ◌<◌, ◌≤◌, length};
ghost use Rattle.dashes.specs.Counts.{EdgeCounted};
ghost use Rattle.dashes.specs.Marks.{cuts_enough};
ghost use Rattle.dashes.specs.Pattern.{index_limit};

use crate::spot::{Spot, falls, passed};

// The cuts that were passed on an edge, and the spot behind them.
#[derive(Clone, Copy)]
pub struct Passed {
    pub spot: Spot,
    pub count: usize,
}

// It stops at one more than is accepted: a cut that does not rise falls on the edge for ever.
pub fn count_edge(ds: &[f32], mut spot: Spot) -> Passed
    requires { (0 < length ds.now) × (spot.beat.index + cuts_enough ≤ index_limit) }
    ensures { EdgeCounted ds.now spot result }
{
    for count in 0..65537 {
        if !falls(spot) {
            return Passed { spot, count };
        }
        spot = passed(ds, spot);
    }
    Passed { spot, count: 65537 }
}
