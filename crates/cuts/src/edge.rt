// The cuts on one edge, added to those before it.
ghost use Rattle.std.specs.Prelude.{◌≡◌, ◌<◌, length};
ghost use Rattle.cuts.specs.Cuts.{capped_of};
ghost use Rattle.cuts.specs.Counts.{Bounded, OnEdge, turned_at};

use dashes::count::{Passed, count_edge};
use dashes::spot::turned;
use endpoint::Endpoint;

// No path has more cuts than this (refusal 26).
pub const CUT_LIMIT: usize = 65536;

// One more than is accepted stands for every greater number.
fn capped(n: usize) -> usize
    ensures { result ≡ capped_of n }
{
    n.min(CUT_LIMIT + 1)
}

// Past the cuts on the edge that t stands on. Once there are too many, nothing more is counted.
pub fn count_on(ds: &[f32], t: Passed) -> Passed
    requires { (0 < length ds.now) × Bounded t }
    ensures { OnEdge ds.now t result }
{
    if t.count > CUT_LIMIT {
        return t;
    }
    let e = count_edge(ds, t.spot);
    Passed {
        spot: e.spot,
        count: capped(t.count + e.count),
    }
}

// Past the corner, and past the cuts on the edge from there to p.
pub fn count_next(ds: &[f32], t: Passed, p: Endpoint) -> Passed
    requires { (0 < length ds.now) × Bounded t }
    ensures { OnEdge ds.now (turned_at t p) result }
{
    count_on(
        ds,
        Passed {
            spot: turned(t.spot, p),
            ..t
        },
    )
}
