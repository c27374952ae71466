// The cuts of one run; n is the number of cuts before it.
ghost use Rattle.std.specs.Prelude.{false, ◌≡◌, ◌+◌, ◌*◌, ◌≤◌, ◌<◌, length};
ghost use Rattle.kept.specs.Kept.{kept_points};
ghost use Rattle.kept.specs.Held.{points_of};
ghost use Rattle.cuts.specs.Cuts.{capped_of, kept_cuts};
ghost use Rattle.cuts.specs.Counts.{Ready, Bounded, Visited, PointsCounted};

use crate::edge::{count_next, count_on};
use dashes::count::Passed;
use dashes::pattern::Beat;
use dashes::spot::spot_of;
use endpoint::Endpoint;
use kept::near::is_near;
use kept::points::Points;
use kept::{first_far, kept_end};

// The next point, which may be dropped.
fn visit(ds: &[f32], limit: f32, t: Passed, p: Endpoint) -> Passed
    requires { (0 < length ds.now) × Bounded t }
    ensures { Visited limit ds.now t p result }
{
    if is_near(limit, t.spot.to.position, p.position) {
        return t;
    }
    count_next(ds, t, p)
}

// The points from the one at i on.
fn count_points(ds: &[f32], limit: f32, p: Points, i: usize, mut t: Passed) -> Passed
    requires { (0 < length ds.now) × Bounded t × (2 * i ≤ length p.coords.now) }
    ensures { PointsCounted limit ds.now p.entry.coords.now p.entry.first.0 i t result }
{
    for j in i..p.count() {
        t = visit(ds, limit, t, p.at(j));
    }
    t
}

// The points of p, none of which is dropped on closing.
fn count_kept(ds: &[f32], limit: f32, b: Beat, p: Points, closed: bool, n: usize) -> usize
    requires { Ready ds.now b n × (2 ≤ length p.coords.now) }
    ensures { result ≡ capped_of (n + kept_cuts closed ds.now b (kept_points limit false (points_of p.entry))) }
{
    let i = first_far(limit, p);
    if p.count() <= i {
        return n;
    }
    let p0 = p.at(0);
    let start = Passed {
        spot: spot_of(p0, 0.0, p.at(i), b),
        count: n,
    };
    let t = count_points(ds, limit, p, i + 1, count_on(ds, start));
    if closed {
        return count_next(ds, t, p0).count;
    }
    t.count
}

// A run, and the cuts before it.
pub fn count_run(ds: &[f32], limit: f32, b: Beat, p: Points, closed: bool, n: usize) -> usize
    requires { Ready ds.now b n }
    ensures { result ≡ capped_of (n + kept_cuts closed ds.now b (kept_points limit closed (points_of p.entry))) }
{
    if p.coords.len() < 2 {
        return n;
    }
    if closed {
        let to = 2 * kept_end(limit, p);
        return count_kept(ds, limit, b, p.up_to(to), true, n);
    }
    count_kept(ds, limit, b, p, false, n)
}
